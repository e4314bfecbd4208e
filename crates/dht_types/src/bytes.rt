//! Lists of bytes.

ghost use Rattle.std.specs.Prelude.{◌≡◌, ◌+◌, ◌-◌, ◌≤◌, ◌++◌, length, take, drop, replicate, IfOk, OnOk, OnErr};
ghost use Rattle.dht_types.specs.Content.{cut_to, written};

use std::alloc::{AllocError, Global};
use std::marker::Model;

/// A list of bytes. Contracts see it as that list.
#[derive(Drop)]
pub struct Bytes {
    each: Vec<u8>,
}

impl Model for Bytes {
    ghost use Rattle.std.specs.Prelude.{ℕ, List};

    ghost Value = { List ℕ };

    ghost view = { λ b. b.each.items };
}

/// Adds zeros up to a length, if there are fewer bytes.
fn grow(bytes: &mut Vec<u8>, size: usize) -> Result<(), AllocError>
    ensures ok { OnOk result (bytes.new.items
        ≡ bytes.old.items ++ replicate (size - length bytes.old.items) 0) }
    ensures err { OnErr result (bytes.new.items ≡ bytes.old.items) }
{
    if size <= bytes.len() {
        return Ok(());
    }
    bytes.resize(size, 0)
}

/// Writes a piece over the bytes at an offset.
pub(crate) fn overwrite(bytes: &mut [u8], start: usize, piece: &[u8])
    requires { start + length piece.now ≤ length bytes.old }
    ensures { bytes.new
        ≡ take start bytes.old ++ piece.now ++ drop (start + length piece.now) bytes.old }
{
    bytes[start..start + piece.len()].copy_from_slice(piece);
}

impl Bytes {
    /// These bytes.
    pub fn new(each: Vec<u8>) -> Bytes
        ensures { result ≡ each.items }
    {
        Bytes { each }
    }

    /// Each byte.
    pub fn as_slice(&self) -> &[u8]
        ensures { result.now ≡ self.now }
    {
        self.each.as_slice()
    }

    /// The same bytes again.
    pub fn copied(&self, alloc: Global) -> Result<Bytes, AllocError>
        ensures { IfOk result (λ b. b ≡ self.now) }
    {
        Ok(Bytes {
            each: self.each.as_slice().to_vec(alloc)?,
        })
    }

    /// Writes a piece at an offset, with zeros between the old end and the offset. Where memory
    /// runs out nothing is changed.
    pub fn write(&mut self, offset: u64, piece: &[u8]) -> Result<(), AllocError>
        ensures ok { OnOk result (self.new ≡ written self.old offset piece.now) }
        ensures err { OnErr result (self.new ≡ self.old) }
    {
        let start = offset as usize;
        let Some(end) = start.checked_add(piece.len()) else {
            return Err(AllocError);
        };
        grow(&mut self.each, end)?;
        overwrite(&mut self.each, start, piece);
        Ok(())
    }

    /// Keeps the first bytes up to a length, and puts zeros where there were none. Where memory
    /// runs out nothing is changed.
    pub fn cut(&mut self, length: u64) -> Result<(), AllocError>
        ensures ok { OnOk result (self.new ≡ cut_to self.old length) }
        ensures err { OnErr result (self.new ≡ self.old) }
    {
        self.each.resize(length as usize, 0)
    }
}
