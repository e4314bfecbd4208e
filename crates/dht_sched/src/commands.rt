//! The lines that the commands `hash` and `layout` print.

ghost use Rattle.std.specs.Prelude.{◌≡◌, ◌++◌, OnOk, OnErr};
ghost use Rattle.dht_types.specs.Text.{hex_number};
ghost use Rattle.dht_sched.specs.Commands.{hash_line, range_line};
ghost use Rattle.dht_sched.specs.Printing.{Appends};

use crate::fields::{Field, print_fields};
use crate::names::push_name;
use dht_types::bytes::Bytes;
use dht_types::identifiers::BrickNo;
use itoa::Buffer;
use std::alloc::AllocError;

/// The eight hexadecimal digits of a hash, in lower case.
fn hash_digits(hash: u32) -> [u8; 8]
    ensures { result ≡ hex_number 8 hash }
{
    let mut digits = [0; 8];
    hex::encode_to_slice(hash.to_be_bytes(), &mut digits).unwrap();
    digits
}

/// Appends a hash and a name.
fn push_hash(out: &mut Vec<u8>, hash: u32, name: &[u8]) -> Result<(), AllocError>
    ensures { Appends out.old.items out.new.items result (hash_line hash name.now) }
{
    out.extend_from_slice(&hash_digits(hash))?;
    out.push(b' ')?;
    push_name(out, name)?;
    out.push(b'\n')?;
    Ok(())
}

/// Appends the line of a hash and the name that has it to `out`, with its newline. The name may be
/// any bytes. Where memory runs out, `out` stays as it was.
pub fn print_hash(hash: u32, name: &[u8], out: &mut Vec<u8>) -> Result<(), AllocError>
    ensures ok { OnOk result (out.new.items ≡ out.old.items ++ hash_line hash name.now) }
    ensures err { OnErr result (out.new.items ≡ out.old.items) }
{
    let before = out.len();
    let printed = push_hash(out, hash, name);
    if printed.is_err() {
        out.truncate(before);
    }
    printed
}

/// Appends the line of a brick and a directory's attribute on it to `out`, with its newline. Where
/// memory runs out, `out` stays as it was.
#[tactic(auto, unfolding(crate::specs::Commands::range_line))]
pub fn print_range(
    brick: BrickNo,
    value: &Option<Bytes>,
    out: &mut Vec<u8>,
) -> Result<(), AllocError>
    ensures ok { OnOk result (out.new.items ≡ out.old.items ++ range_line brick.0 value.now) }
    ensures err { OnErr result (out.new.items ≡ out.old.items) }
{
    let mut buffer = Buffer::new();
    let number = buffer.format(u64::from(brick.0));
    print_fields(out, number, &[Field::Value(value)])
}
