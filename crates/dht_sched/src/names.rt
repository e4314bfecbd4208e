//! The spelling of names: a byte that prints stands for itself, and any other is `%` and two
//! digits.

ghost use Rattle.std.specs.Prelude.{◌≡◌, ◌≢◌, ◌<◌, ℕ, false, List, [], ◌∷◌, ◌++◌, ◌/◌, ◌%◌, IfSome, IfNone};
ghost use Rattle.std.specs.List.{flat_map};
ghost use Rattle.dht_types.specs.Text.{hex_digit};
ghost use Rattle.dht_sched.specs.Printing.{Appends};
ghost use Rattle.dht_sched.specs.Reading.{Reads, ReadsUnless};
ghost use Rattle.dht_sched.specs.Spelling.{AreBytes, is_plain, spelled_byte, spelled};

use crate::fault::LineFault;
use crate::fields::hex_pair;
use dht_types::bytes::Bytes;
use std::alloc::{AllocError, Global};

/// Whether a byte stands for itself.
fn is_plain(byte: u8) -> bool
    ensures { result ≡ is_plain byte }
{
    byte.is_ascii_graphic() && byte != b'%'
}

/// Appends the spelling of a byte.
fn push_byte(out: &mut Vec<u8>, byte: u8) -> Result<(), AllocError>
    ensures { Appends out.old.items out.new.items result (spelled_byte byte) }
{
    if is_plain(byte) {
        out.push(byte)?;
        return Ok(());
    }
    let [high, low] = hex_pair(byte);
    out.extend_from_slice(&[b'%', high, low])
}

/// Appends the spelling of a name of these bytes.
pub fn push_name(out: &mut Vec<u8>, bytes: &[u8]) -> Result<(), AllocError>
    ensures { Appends out.old.items out.new.items result (spelled bytes.now) }
{
    if bytes.is_empty() {
        return out.extend_from_slice(b"%-");
    }
    for byte in bytes {
        push_byte(out, *byte)?;
    }
    Ok(())
}

/// The value of a hexadecimal digit in lower case.
fn digit_value(digit: u8) -> Option<u8>
    ensures { Reads hex_digit (λ d. d < 16) digit result }
{
    match digit {
        b'0'..=b'9' => Some(digit - b'0'),
        b'a'..=b'f' => Some(digit - b'a' + 10),
        _ => None,
    }
}

/// The byte that these digits behind a `%` spell. A byte that stands for itself has no such
/// spelling.
fn escaped(high: u8, low: u8) -> Option<u8>
    ensures { Reads (λ b. hex_digit (b / 16) ∷ hex_digit (b % 16) ∷ [])
        (λ b. (b < 256) × (is_plain b ≡ false)) (high ∷ low ∷ []) result }
{
    let byte = digit_value(high)? * 16 + digit_value(low)?;
    (!is_plain(byte)).then_some(byte)
}

/// The byte whose spelling a text begins with, and the rest of the text.
fn first_byte(text: &[u8]) -> Option<(u8, &[u8])>
    ensures byte { IfSome result (λ x. x.0 < 256) }
    ensures found { IfSome result (λ x. text.now ≡ spelled_byte x.0 ++ x.1.now) }
    ensures none { IfNone result ((b : ℕ) (rest : List ℕ) → b < 256
        → text.now ≢ spelled_byte b ++ rest) }
{
    let (first, rest) = text.split_first()?;
    if is_plain(*first) {
        return Some((*first, rest));
    }
    if *first != b'%' || rest.len() < 2 {
        return None;
    }
    let (digits, rest) = rest.split_at(2);
    Some((escaped(digits[0], digits[1])?, rest))
}

/// The bytes whose spellings a text is, one after another.
fn read_bytes(alloc: Global, text: &[u8]) -> Result<Bytes, LineFault>
    ensures { ReadsUnless (flat_map spelled_byte) AreBytes text.now result }
{
    let mut bytes = Vec::new(alloc);
    let mut rest = text;
    while !rest.is_empty() {
        let Some((byte, after)) = first_byte(rest) else {
            return Err(LineFault::Malformed);
        };
        bytes.push(byte)?;
        rest = after;
    }
    Ok(Bytes::new(bytes))
}

/// The name that a word spells, which may be any bytes.
pub fn read_name(alloc: Global, word: &[u8]) -> Result<Bytes, LineFault>
    ensures { ReadsUnless spelled AreBytes word.now result }
{
    if word == b"%-".as_slice() {
        return Ok(Bytes::new(Vec::new(alloc)));
    }
    if word.is_empty() {
        return Err(LineFault::Malformed);
    }
    read_bytes(alloc, word)
}
