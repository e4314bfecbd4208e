//! The fields of a line, and a line of them.

ghost use Rattle.std.specs.Prelude.{◌≡◌, ◌++◌, ◌∷◌, [], map, decimal, Some, OnOk, OnErr};
ghost use Rattle.std.specs.List.{flat_map};
ghost use Rattle.std.specs.Option.{option_copied};
ghost use Rattle.dht_types.specs.Text.{gfid_text, hex_bytes};
ghost use Rattle.dht_types.specs.declared.lines.RecordLine.TheVariants.{Forward};
ghost use Rattle.dht_types.specs.declared.stored.Main.TheVariants.{File};
ghost use Rattle.dht_sched.specs.Printing.{Appends, field_words, behind_spaces};
ghost use Rattle.dht_sched.specs.Spelling.{name_words, spelled};
ghost use Rattle.dht_sched.specs.Dump.{value_word, bytes_word, main_words, standby_words, record_words};
ghost use Rattle.dht_sched.specs.Transcript.{text_of, point_words};

use crate::names::push_name;
use dht_types::bytes::Bytes;
use dht_types::identifiers::{BrickNo, Gfid};
use dht_types::lines::RecordLine;
use dht_types::stored::{Main, Standby};
use itoa::Buffer;
use std::alloc::AllocError;

/// A field of a line. Most are one word.
#[derive(Clone, Copy)]
pub enum Field<'a> {
    /// The word itself.
    Word(&'static str),
    /// A number in decimal.
    Number(u64),
    /// A word for each number.
    Numbers(&'a [u16]),
    /// The line at which an answer holds: `at` and its number, and nothing where there is none.
    Point(Option<u64>),
    /// A name of these bytes, spelled.
    Name(&'a [u8]),
    /// The name of a call, of these bytes, spelled; and nothing where it has none.
    CallName(Option<&'a [u8]>),
    /// The text of a gfid.
    Gfid(Gfid),
    /// The attribute of a directory: in hexadecimal digits, `x` where it is empty, and `-` where
    /// there is none.
    Value(&'a Option<Bytes>),
    /// The main part of a slot, and `-` where there is none.
    Main(&'a Option<Main>),
    /// The standby part of a slot, and `-` where there is none.
    Standby(Option<Standby>),
    /// A file's record.
    Record(&'a RecordLine),
}

/// Appends a number in decimal.
fn push_number(out: &mut Vec<u8>, number: u64) -> Result<(), AllocError>
    ensures { Appends out.old.items out.new.items result (decimal number) }
{
    let mut buffer = Buffer::new();
    out.extend_from_slice(buffer.format(number).as_bytes())
}

/// Appends a space and a word.
fn push_word(out: &mut Vec<u8>, word: &[u8]) -> Result<(), AllocError>
    ensures { Appends out.old.items out.new.items result (32 ∷ word.now) }
{
    out.push(b' ')?;
    out.extend_from_slice(word)
}

/// Appends a space and a number.
fn push_number_word(out: &mut Vec<u8>, number: u64) -> Result<(), AllocError>
    ensures { Appends out.old.items out.new.items result (32 ∷ decimal number) }
{
    out.push(b' ')?;
    push_number(out, number)
}

/// Appends each number behind a space.
fn push_numbers(out: &mut Vec<u8>, numbers: &[u16]) -> Result<(), AllocError>
    ensures { Appends out.old.items out.new.items result (behind_spaces (map decimal numbers.now)) }
{
    for number in numbers {
        push_number_word(out, u64::from(*number))?;
    }
    Ok(())
}

/// Appends the point of an answer, where there is one.
fn push_point(out: &mut Vec<u8>, point: Option<u64>) -> Result<(), AllocError>
    ensures { Appends out.old.items out.new.items result (behind_spaces (point_words point)) }
{
    match point {
        None => Ok(()),
        Some(line) => {
            push_word(out, b"at")?;
            push_number_word(out, line)
        }
    }
}

/// The two hexadecimal digits of a byte, in lower case.
pub fn hex_pair(byte: u8) -> [u8; 2]
    ensures { result ≡ hex_bytes (byte ∷ []) }
{
    let mut digits = [0; 2];
    hex::encode_to_slice([byte], &mut digits).unwrap();
    digits
}

/// Appends each byte as two digits.
fn push_hex(out: &mut Vec<u8>, bytes: &[u8]) -> Result<(), AllocError>
    ensures { Appends out.old.items out.new.items result (hex_bytes bytes.now) }
{
    for byte in bytes {
        out.extend_from_slice(&hex_pair(*byte))?;
    }
    Ok(())
}

/// Appends a space, and each byte as two digits.
fn push_hex_word(out: &mut Vec<u8>, bytes: &[u8]) -> Result<(), AllocError>
    ensures { Appends out.old.items out.new.items result (32 ∷ hex_bytes bytes.now) }
{
    out.push(b' ')?;
    push_hex(out, bytes)
}

/// Appends a space and the spelling of a name.
fn push_name_word(out: &mut Vec<u8>, name: &[u8]) -> Result<(), AllocError>
    ensures { Appends out.old.items out.new.items result (32 ∷ spelled name.now) }
{
    out.push(b' ')?;
    push_name(out, name)
}

/// Appends the name of a call, where it has one.
fn push_call_name(out: &mut Vec<u8>, name: Option<&[u8]>) -> Result<(), AllocError>
    ensures { Appends out.old.items out.new.items result
        (behind_spaces (name_words (option_copied name.entry))) }
{
    match name {
        None => Ok(()),
        Some(name) => push_name_word(out, name),
    }
}

/// Appends a space, and the attribute of a directory.
fn push_value(out: &mut Vec<u8>, value: &Option<Bytes>) -> Result<(), AllocError>
    ensures { Appends out.old.items out.new.items result (32 ∷ value_word value.now) }
{
    match value {
        None => push_word(out, b"-"),
        Some(value) => match value.as_slice() {
            [] => push_word(out, b"x"),
            bytes => push_hex_word(out, bytes),
        },
    }
}

/// Appends a space, an `x`, and each byte as two digits.
fn push_bytes(out: &mut Vec<u8>, bytes: &[u8]) -> Result<(), AllocError>
    ensures { Appends out.old.items out.new.items result (32 ∷ bytes_word bytes.now) }
{
    out.extend_from_slice(b" x")?;
    push_hex(out, bytes)
}

/// Appends a word and a gfid, each behind a space.
fn push_gfid(out: &mut Vec<u8>, word: &str, gfid: Gfid) -> Result<(), AllocError>
    ensures { Appends out.old.items out.new.items result
        (behind_spaces (word.now ∷ gfid_text gfid ∷ [])) }
{
    push_word(out, word.as_bytes())?;
    push_word(out, &gfid.text())
}

/// Appends what a file at a name is, and the brick for which the name is marked, if it is.
fn push_file(out: &mut Vec<u8>, file: Gfid, over: Option<BrickNo>) -> Result<(), AllocError>
    ensures { Appends out.old.items out.new.items result
        (behind_spaces (main_words (Some (File file over)))) }
{
    push_gfid(out, "data", file)?;
    match over {
        None => Ok(()),
        Some(brick) => {
            push_word(out, b"over")?;
            push_number_word(out, u64::from(brick.0))
        }
    }
}

/// Appends the main part of a slot.
fn push_main(out: &mut Vec<u8>, main: &Option<Main>) -> Result<(), AllocError>
    ensures { Appends out.old.items out.new.items result (behind_spaces (main_words main.now)) }
{
    match main {
        None => push_word(out, b"-"),
        Some(Main::Dir(dir)) => push_gfid(out, "dir", *dir),
        Some(Main::File(file, over)) => push_file(out, *file, *over),
        Some(Main::Linkto(value)) => {
            push_word(out, b"linkto")?;
            push_bytes(out, value.as_slice())
        }
    }
}

/// Appends the standby part of a slot.
fn push_standby(out: &mut Vec<u8>, standby: Option<Standby>) -> Result<(), AllocError>
    ensures { Appends out.old.items out.new.items result (behind_spaces (standby_words standby)) }
{
    match standby {
        None => push_word(out, b"-"),
        Some(Standby::StandLink(file)) => push_gfid(out, "link", file),
        Some(Standby::Copy(file)) => push_gfid(out, "copy", file),
    }
}

/// Appends three numbers, each behind a space, and then bytes as two digits each.
fn push_content(out: &mut Vec<u8>, numbers: [u64; 3], digest: &[u8]) -> Result<(), AllocError>
    ensures { Appends out.old.items out.new.items result
        (behind_spaces (map decimal numbers ++ hex_bytes digest.now ∷ [])) }
{
    let [first, second, third] = numbers;
    push_number_word(out, first)?;
    push_number_word(out, second)?;
    push_number_word(out, third)?;
    push_hex_word(out, digest)
}

/// Appends where a file was moved on to.
fn push_forward(out: &mut Vec<u8>, brick: BrickNo, hop: u64) -> Result<(), AllocError>
    ensures { Appends out.old.items out.new.items result
        (behind_spaces (record_words (Forward brick hop))) }
{
    push_word(out, b"forward")?;
    push_number_word(out, u64::from(brick.0))?;
    push_number_word(out, hop)
}

/// Appends what a dump tells of a file's record.
fn push_record(out: &mut Vec<u8>, line: &RecordLine) -> Result<(), AllocError>
    ensures { Appends out.old.items out.new.items result (behind_spaces (record_words line.now)) }
{
    match line {
        RecordLine::Live {
            hop,
            links,
            length,
            digest,
        } => {
            push_word(out, b"live")?;
            push_content(out, [*hop, *links, *length], digest)
        }
        RecordLine::Moving {
            hop,
            links,
            length,
            digest,
            dest,
        } => {
            push_word(out, b"moving")?;
            push_content(out, [*hop, *links, *length], digest)?;
            push_number_word(out, u64::from(dest.0))
        }
        RecordLine::Standby {
            hop,
            source,
            length,
            digest,
            is_dirty,
        } => {
            push_word(out, b"standby")?;
            push_content(out, [*hop, u64::from(source.0), *length], digest)?;
            push_word(out, if *is_dirty { b"dirty" } else { b"clean" })
        }
        RecordLine::Forward { brick, hop } => push_forward(out, *brick, *hop),
    }
}

/// Appends the words of a field, each behind a space.
fn push_field(out: &mut Vec<u8>, field: &Field<'_>) -> Result<(), AllocError>
    ensures { Appends out.old.items out.new.items result (behind_spaces (field_words field.now)) }
{
    match *field {
        Field::Word(word) => push_word(out, word.as_bytes()),
        Field::Number(number) => push_number_word(out, number),
        Field::Numbers(numbers) => push_numbers(out, numbers),
        Field::Point(point) => push_point(out, point),
        Field::Name(name) => push_name_word(out, name),
        Field::CallName(name) => push_call_name(out, name),
        Field::Gfid(gfid) => push_word(out, &gfid.text()),
        Field::Value(value) => push_value(out, value),
        Field::Main(main) => push_main(out, main),
        Field::Standby(standby) => push_standby(out, standby),
        Field::Record(line) => push_record(out, line),
    }
}

/// Appends a first word, the fields behind it, and a newline.
fn push_fields(out: &mut Vec<u8>, first: &str, fields: &[Field<'_>]) -> Result<(), AllocError>
    ensures { Appends out.old.items out.new.items result
        (text_of (first.now ∷ flat_map field_words fields.now)) }
{
    out.extend_from_slice(first.as_bytes())?;
    for field in fields {
        push_field(out, field)?;
    }
    out.push(b'\n')?;
    Ok(())
}

/// Prints the line of a first word and the fields behind it. Where memory runs out, the text stays
/// as it was.
pub fn print_fields(out: &mut Vec<u8>, first: &str, fields: &[Field<'_>]) -> Result<(), AllocError>
    ensures ok { OnOk result (out.new.items
        ≡ out.old.items ++ text_of (first.now ∷ flat_map field_words fields.now)) }
    ensures err { OnErr result (out.new.items ≡ out.old.items) }
{
    let before = out.len();
    let printed = push_fields(out, first, fields);
    if printed.is_err() {
        out.truncate(before);
    }
    printed
}
