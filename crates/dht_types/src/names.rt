//! The names of files and directories.

ghost use Rattle.std.specs.Prelude.{◌≡◌, ◌≤◌, ◌↔◌, Some, IsTrue, IsOk, IfOk, bytes_eq, length, refl};
ghost use Rattle.std.specs.List.{list_any};
ghost use Rattle.std.specs.Result.{result_err};
ghost use Rattle.std.specs.Ordering.{nat_cmp};
ghost use Rattle.std.specs.Cmp.{partial_equiv_from_equiv};
ghost use Rattle.std.specs.Cmp.Lexicographic.{slice_cmp, nat_list_eq_equiv, nat_list_cmp_total, texts_ties, texts_po};
ghost use Rattle.dht_types.specs.declared.names.EntryKey.{EntryKey};
ghost use Rattle.dht_types.specs.Entry.{entry_cmp};
ghost use Rattle.dht_types.specs.Name.{IsName, is_forbidden, is_dots, is_invalid, refusal_of};
ghost use Rattle.dht_types.specs.Padded.{padded};

use super::errors::Errno;
use super::identifiers::Gfid;
use std::cmp::Ordering;
use std::marker::Model;

/// The most bytes that a name has.
pub const LONGEST_NAME: usize = 255;

/// A name of at most 255 bytes, kept in place. Contracts see it as the list of its bytes.
#[derive(Clone, Copy)]
pub struct Name {
    size: u8,
    bytes: [u8; 255],
}

impl Model for Name {
    ghost use Rattle.std.specs.Prelude.{ℕ, List, length, take};
    ghost use Rattle.dht_types.specs.Padded.{IsPadded, padded, length_back, places_back};

    ghost Value = { List ℕ };

    ghost view = { λ n. take n.size n.bytes };

    ghost invariant = { λ n. IsPadded 255 0 n.size n.bytes };

    ghost inverse = { λ xs. record { size = length xs; bytes = padded 255 0 xs } };

    ghost inverse_ok = { λ n h. λ i. record {
      size = length_back 255 0 n.size n.bytes h i;
      bytes = places_back 255 0 n.size n.bytes h i;
    } };
}

/// The bytes, and zeros behind them.
fn place_of(bytes: &[u8]) -> [u8; 255]
    requires { length bytes.now ≤ 255 }
    ensures { result ≡ padded 255 0 bytes.now }
{
    let mut place = [0u8; 255];
    place[..bytes.len()].copy_from_slice(bytes);
    place
}

/// Whether the bytes are `.` or `..`.
fn is_dots(bytes: &[u8]) -> bool
    ensures { result ≡ is_dots bytes.now }
{
    bytes == b".".as_slice() || bytes == b"..".as_slice()
}

/// Whether one of the bytes is a `/` or zero.
fn has_forbidden(bytes: &[u8]) -> bool
    ensures { result ≡ list_any is_forbidden bytes.now }
{
    bytes.iter().any(|byte| *byte == b'/' || *byte == 0)
}

/// Whether the bytes are none, `.` or `..`, or one of them is a `/` or zero.
fn is_invalid(bytes: &[u8]) -> bool
    ensures { result ≡ is_invalid bytes.now }
{
    bytes.is_empty() || is_dots(bytes) || has_forbidden(bytes)
}

impl Name {
    /// Whether these bytes are a name. `Einval` where they are none, `.` or `..`, or one of them is a
    /// `/` or zero; else `Enametoolong` where they are more than 255.
    pub fn check(bytes: &[u8]) -> Result<(), Errno>
        ensures refusal { result_err result ≡ refusal_of bytes.now }
        ensures name { IsOk result ↔ IsName bytes.now }
    {
        if is_invalid(bytes) {
            return Err(Errno::Einval);
        }
        if bytes.len() > LONGEST_NAME {
            return Err(Errno::Enametoolong);
        }
        Ok(())
    }

    /// The name of these bytes, refused as by `check`.
    pub fn new(bytes: &[u8]) -> Result<Name, Errno>
        ensures refusal { result_err result ≡ refusal_of bytes.now }
        ensures name { IsOk result ↔ IsName bytes.now }
        ensures same { IfOk result (λ name. name ≡ bytes.now) }
    {
        Name::check(bytes)?;
        Ok(Name::of(bytes))
    }

    /// The name of these bytes, whether or not they are one.
    pub fn of(bytes: &[u8]) -> Name
        requires { length bytes.now ≤ 255 }
        ensures { result ≡ bytes.now }
    {
        Name {
            size: bytes.len() as u8,
            bytes: place_of(bytes),
        }
    }

    /// Its bytes.
    pub fn as_bytes(&self) -> &[u8]
        ensures { result.now ≡ self.now }
    {
        &self.bytes[..usize::from(self.size)]
    }

    /// Whether two names are one.
    pub fn same(&self, other: &Name) -> bool
        ensures { IsTrue result ↔ (self.now ≡ other.now) }
    {
        self.as_bytes() == other.as_bytes()
    }
}

impl PartialEq for Name {
    ghost eq = { bytes_eq };

    ghost laws = { partial_equiv_from_equiv nat_list_eq_equiv };

    fn eq(&self, other: &Name) -> bool {
        self.as_bytes() == other.as_bytes()
    }
}

impl Eq for Name {
    ghost laws = { nat_list_eq_equiv };
}

impl PartialOrd for Name {
    ghost partial_cmp = { λ a b. Some (slice_cmp nat_cmp a b) };

    ghost laws = { texts_po };

    fn partial_cmp(&self, other: &Name) -> Option<Ordering> {
        Some(self.cmp(other))
    }
}

impl Ord for Name {
    ghost cmp = { slice_cmp nat_cmp };

    ghost total = { nat_list_cmp_total };

    ghost matches_partial_cmp = { λ a b. refl };

    ghost matches_eq = { texts_ties };

    fn cmp(&self, other: &Name) -> Ordering {
        self.as_bytes().cmp(other.as_bytes())
    }
}

/// A name in a directory, as a key of a map.
#[derive(Clone, Copy, PartialEq, Eq, PartialOrd, Ord)]
pub struct EntryKey {
    /// The directory.
    pub dir: Gfid,
    /// The name in it.
    pub name: Name,
}

/// Keys that compare equal are one key: this is a law for callers, and does nothing.
pub fn equal_keys_are_one()
    ensures { (a b : EntryKey) → entry_cmp a b ≡ Ordering.Equal → a ≡ b }
{}
