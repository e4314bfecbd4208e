//! The order in which a brick shows what it contains: whole, or a page at a time.

ghost use Rattle.std.specs.Prelude.{◌≡◌};
ghost use Rattle.dht_brick.specs.Order.{gfids_from};

use dht_types::identifiers::Gfid;
use std::ops::Bound;

/// The most names, or files, that are given at once.
pub const PAGE_SIZE: usize = 256;

/// Where the gfids above another one begin, or all of them.
pub fn gfids_from(after: Option<Gfid>) -> Bound<Gfid>
    ensures { result ≡ gfids_from after }
{
    match after {
        None => Bound::Unbounded,
        Some(after) => Bound::Excluded(after),
    }
}
