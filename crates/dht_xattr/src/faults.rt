//! What may be wrong with a layout.

ghost use Rattle.std.specs.Prelude.{◌≡◌, ◌↔◌, IsTrue};
ghost use Rattle.std.specs.List.{list_any};
ghost use Rattle.dht_xattr.specs.Layout.{HasHole, HasOverlap, covers};
ghost use Rattle.dht_xattr.specs.Faults.{is_open_behind, is_shared_at_first, has_hole, has_overlap};

use super::layout::{Faults, Layout, is_in};
use super::range::Range;

/// In how many of these ranges a hash is.
fn covers(ranges: &[Option<Range>], hash: u32) -> usize
    ensures { result ≡ covers ranges.now hash }
{
    ranges.iter().filter(|range| is_in(range, hash)).count()
}

/// Whether a hash is in none of these ranges. Where there is one, 0 is such a hash, or the one
/// behind some range.
fn has_hole(ranges: &[Option<Range>]) -> bool
    ensures { result ≡ has_hole ranges.now }
{
    covers(ranges, 0) == 0 || is_open_behind_some(ranges)
}

/// Whether the hash behind some range is in none of these ranges.
fn is_open_behind_some(ranges: &[Option<Range>]) -> bool
    ensures { result ≡ list_any (is_open_behind ranges.now) ranges.now }
{
    ranges.iter().any(|range| is_open_behind(ranges, range))
}

/// Whether there is a hash behind a range, and it is in none of these ranges.
fn is_open_behind(ranges: &[Option<Range>], range: &Option<Range>) -> bool
    ensures { result ≡ is_open_behind ranges.now range.now }
{
    match range {
        Some(range) => range.last < u32::MAX && covers(ranges, range.last + 1) == 0,
        None => false,
    }
}

/// Whether a hash is in two of these ranges. Where there is one, the first of some range is such a
/// hash.
fn has_overlap(ranges: &[Option<Range>]) -> bool
    ensures { result ≡ has_overlap ranges.now }
{
    ranges.iter().any(|range| is_shared_at_first(ranges, range))
}

/// Whether the first hash of a range is in two of these ranges.
fn is_shared_at_first(ranges: &[Option<Range>], range: &Option<Range>) -> bool
    ensures { result ≡ is_shared_at_first ranges.now range.now }
{
    match range {
        Some(range) => covers(ranges, range.first) >= 2,
        None => false,
    }
}

/// What is wrong with a layout, as GlusterFS's `dht_layout_anomalies`: whether some hash from 0 to
/// `ffffffff` is in no range, and whether some is in two.
pub fn faults(layout: &Layout) -> Faults
    ensures holes { IsTrue result.holes ↔ HasHole layout.now }
    ensures overlaps { IsTrue result.overlaps ↔ HasOverlap layout.now }
{
    Faults {
        holes: has_hole(layout.as_slice()),
        overlaps: has_overlap(layout.as_slice()),
    }
}
