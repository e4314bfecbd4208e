//! The bytes of a file, read.

ghost use Rattle.std.specs.Prelude.{◌≡◌, IfOk, drop, take};
ghost use Rattle.dht_types.specs.Content.{read_at};

use dht_types::bytes::Bytes;
use std::alloc::{AllocError, Global};

/// The bytes before a place.
fn before(bytes: &[u8], place: u64) -> &[u8]
    ensures { result.now ≡ take place bytes.now }
{
    if place < bytes.len() as u64 {
        &bytes[..place as usize]
    } else {
        bytes
    }
}

/// The bytes from a place on.
fn after(bytes: &[u8], place: u64) -> &[u8]
    ensures { result.now ≡ drop place bytes.now }
{
    if place < bytes.len() as u64 {
        &bytes[place as usize..]
    } else {
        &[]
    }
}

/// At most so many bytes from an offset on, and none past the end.
pub(crate) fn read(alloc: Global, bytes: &[u8], offset: u64, size: u64) -> Result<Bytes, AllocError>
    ensures { IfOk result (λ b. b ≡ read_at bytes.now offset size) }
{
    Ok(Bytes::new(before(after(bytes, offset), size).to_vec(alloc)?))
}
