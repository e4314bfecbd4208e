//! The layout of a directory.

ghost use Rattle.std.specs.Prelude.{◌≡◌, ◌≤◌, ◌<◌, [], ◌∷◌, ◌++◌, ℕ, List, Option, Some, None, IfSome, IfNone, true, option_map, slice_index_or, length};
ghost use Rattle.dht_xattr.specs.declared.range.Range.{Range};
ghost use Rattle.dht_xattr.specs.Range.{contains};
ghost use Rattle.dht_xattr.specs.Layout.{holder, covers};
ghost use Rattle.dht_xattr.specs.Plan.{value_of};
ghost use Rattle.dht_types.specs.Padded.{padded};

use super::range::Range;
use dht_types::identifiers::BrickNo;
use dht_types::layouts::LayoutValue;
use std::marker::Model;

/// The most ranges that a layout has: one for each brick of the largest volume.
pub const MOST_RANGES: usize = 32;

/// The ranges of a directory, one for each brick in the bricks' order, and none where a brick holds
/// nothing of the directory; as GlusterFS's `dht_layout_t`. There are at most 32, kept in place.
/// Contracts see a layout as the list of these.
#[derive(Clone, Copy)]
pub struct Layout {
    count: u8,
    places: [Option<Range>; 32],
}

impl Model for Layout {
    ghost use Rattle.std.specs.Prelude.{List, Option, None, length, take};
    ghost use Rattle.dht_xattr.specs.declared.range.Range.{Range};
    ghost use Rattle.dht_types.specs.Padded.{IsPadded, padded, length_back, places_back};

    ghost Value = { List (Option Range) };

    ghost view = { λ l. take l.count l.places };

    ghost invariant = { λ l. IsPadded 32 None l.count l.places };

    ghost inverse = { λ ranges. record { count = length ranges; places = padded 32 None ranges } };

    ghost inverse_ok = { λ l h. λ i. record {
      count = length_back 32 None l.count l.places h i;
      places = places_back 32 None l.count l.places h i;
    } };
}

/// The ranges, and none behind them.
fn places_of(ranges: &[Option<Range>]) -> [Option<Range>; 32]
    requires { length ranges.now ≤ 32 }
    ensures { result ≡ padded 32 None ranges.now }
{
    let mut places = [None; 32];
    places[..ranges.len()].copy_from_slice(ranges);
    places
}

impl Layout {
    /// The layout of these ranges.
    pub fn new(ranges: &[Option<Range>]) -> Layout
        requires { length ranges.now ≤ 32 }
        ensures { result ≡ ranges.now }
    {
        Layout {
            count: ranges.len() as u8,
            places: places_of(ranges),
        }
    }

    /// The layout with no ranges.
    pub fn empty() -> Layout
        ensures { result ≡ [] }
    {
        Layout::new(&[])
    }

    /// The layout with one range more, at its end.
    pub fn with(self, range: Option<Range>) -> Layout
        requires { length self < 32 }
        ensures { result ≡ self ++ range ∷ [] }
    {
        let mut places = self.places;
        places[usize::from(self.count)] = range;
        Layout {
            count: self.count + 1,
            places,
        }
    }

    /// Its ranges.
    pub fn as_slice(&self) -> &[Option<Range>]
        ensures ranges { result.now ≡ self.now }
        ensures few { length self.now ≤ 32 }
    {
        &self.places[..usize::from(self.count)]
    }

    /// The attribute of a brick: the value of its range, and none where it has no range. It takes
    /// no memory.
    pub fn value(&self, brick: BrickNo) -> Option<LayoutValue>
        ensures { result ≡ value_of (slice_index_or self.now brick.0 None) }
    {
        match self.as_slice().get(usize::from(brick.0)) {
            Some(Some(range)) => Some(range.value()),
            _ => None,
        }
    }
}

/// Whether a hash is in a range; it is in none where there is no range.
pub(crate) fn is_in(range: &Option<Range>, hash: u32) -> bool
    ensures { result ≡ contains range.now hash }
{
    match range {
        Some(range) => range.contains(hash),
        None => false,
    }
}

/// The place of the first range that contains a hash.
fn first_with(ranges: &[Option<Range>], hash: u32) -> Option<usize>
    ensures { result ≡ holder ranges.now hash }
{
    ranges.iter().position(|range| is_in(range, hash))
}

/// The brick that holds a hash: the first whose range contains it.
pub fn holder(layout: &Layout, hash: u32) -> Option<BrickNo>
    ensures holder { option_map (λ b. b.0) result ≡ holder layout.now hash }
    ensures some { IfSome result (λ b. (b.0 < length layout.now)
        × (contains (slice_index_or layout.now b.0 None) hash ≡ true)) }
    ensures none { IfNone result (covers layout.now hash ≡ 0) }
{
    let brick = first_with(layout.as_slice(), hash)?;
    Some(BrickNo(brick as u16))
}

/// What is wrong with a layout.
#[derive(Clone, Copy, PartialEq, Eq)]
pub struct Faults {
    /// Some hash is in no range.
    pub holes: bool,
    /// Some hash is in two ranges.
    pub overlaps: bool,
}

/// The holder of a hash is a brick of the layout, and a hash that is in some range has one: these
/// are laws for callers, and do nothing.
pub fn a_holder_is_in_the_layout()
    ensures within { (ranges : List (Option Range)) (hash b : ℕ) → holder ranges hash ≡ Some b
        → b < length ranges }
    ensures some { (ranges : List (Option Range)) (hash : ℕ) → 0 < covers ranges hash
        → (b : ℕ) × (b < length ranges) × (holder ranges hash ≡ Some b) }
{}
