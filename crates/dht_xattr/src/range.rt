//! The range of hashes that a brick holds of a directory, and its bytes.

ghost use Rattle.std.specs.Prelude.{◌≡◌, ◌≢◌, ◌≤◌, ◌<◌, ◌^◌, Some, IfSome, IfNone};
ghost use Rattle.dht_xattr.specs.declared.range.Range.{Range};
ghost use Rattle.dht_xattr.specs.Range.{IsRange, contains, encoded, decoded};

use byteorder::{BigEndian, ByteOrder};
use dht_types::layouts::LayoutValue;

/// How many bytes a range has.
pub const RANGE_LEN: usize = 16;

/// The type of a range, as GlusterFS's `DHT_HASH_TYPE_DM`: the hash is that of Davies and Meyer.
const HASH_TYPE: u32 = 0;

/// A range of hashes, both ends included.
#[derive(Clone, Copy, PartialEq, Eq)]
pub struct Range {
    /// The commit word, as GlusterFS's commit hash: the number of the run whose rebalance settled
    /// the layout, and 0 where none has.
    pub commit: u32,
    /// The first hash.
    pub first: u32,
    /// The last hash.
    pub last: u32,
}

impl Range {
    /// Whether a hash is in it.
    pub fn contains(self, hash: u32) -> bool
        ensures { result ≡ contains (Some self) hash }
    {
        self.first <= hash && hash <= self.last
    }

    /// Its value, of the bytes that `encode` gives. It takes no memory.
    pub fn value(self) -> LayoutValue
        ensures { result ≡ encoded self }
    {
        LayoutValue::new(encode(self))
    }
}

/// The bytes of a range, as GlusterFS's attribute `trusted.glusterfs.dht`: four numbers of 32 bits,
/// the highest byte first, which are the commit word, the type, the first and the last hash.
pub fn encode(range: Range) -> [u8; 16]
    ensures { result ≡ encoded range }
{
    let mut value = [0u8; 16];
    BigEndian::write_u32(&mut value, range.commit);
    BigEndian::write_u32(&mut value[4..], HASH_TYPE);
    BigEndian::write_u32(&mut value[8..], range.first);
    BigEndian::write_u32(&mut value[12..], range.last);
    value
}

/// The range of these bytes. There is none where they are not 16, where their type is not 0, and
/// where the first hash is above the last.
pub fn decode(value: &[u8]) -> Option<Range>
    ensures decoded { result ≡ decoded value.now }
    ensures range { IfSome result IsRange }
    ensures some { IfSome result (λ r. value.now ≡ encoded r) }
    ensures none { IfNone result ((r : Range) → IsRange r → value.now ≢ encoded r) }
{
    if value.len() != RANGE_LEN {
        return None;
    }
    let commit = BigEndian::read_u32(value);
    let hash_type = BigEndian::read_u32(&value[4..]);
    let first = BigEndian::read_u32(&value[8..]);
    let last = BigEndian::read_u32(&value[12..]);
    if hash_type == HASH_TYPE && first <= last {
        Some(Range {
            commit,
            first,
            last,
        })
    } else {
        None
    }
}

/// A range is read from its own bytes: this is a law for callers, and does nothing.
pub fn a_range_is_read_from_its_bytes()
    ensures { (r : Range) → r.commit < 2 ^ 32 → r.first ≤ r.last → r.last < 2 ^ 32
        → decoded (encoded r) ≡ Some r }
{}
