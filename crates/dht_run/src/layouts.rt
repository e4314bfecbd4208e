//! The layout of the root directory of a new volume.

ghost use Rattle.std.specs.Prelude.{◌≡◌, IfOk, IfSome, All};
ghost use Rattle.dht_types.specs.Gfid.{root};
ghost use Rattle.dht_sched.specs.Schedule.{IsScheduledVolume};
ghost use Rattle.dht_xattr.specs.Plan.{IsPlanned, planned, value_of};

use dht_types::bytes::Bytes;
use dht_types::identifiers::Gfid;
use dht_types::volumes::{Volume, Weights};
use dht_xattr::layout::Layout;
use dht_xattr::plan::plan;
use dht_xattr::range::{Range, encode};
use std::alloc::{AllocError, Global};

/// The attribute that says a range, where there is one.
pub fn value_of(alloc: Global, range: &Option<Range>) -> Result<Option<Bytes>, AllocError>
    requires { IfSome range.now IsPlanned }
    ensures { IfOk result (λ value. value ≡ value_of range.now) }
{
    match range {
        Some(range) => Ok(Some(Bytes::new(encode(*range).to_vec(alloc)?))),
        None => Ok(None),
    }
}

/// The planned layout of the root directory of a new volume of these weights.
pub fn root_layout(alloc: Global, weights: &Weights) -> Result<Layout, AllocError>
    requires volume { IsScheduledVolume weights.now }
    ensures planned { IfOk result (λ layout. layout ≡ planned weights.now root) }
    ensures valid { IfOk result (All (λ range. IfSome range IsPlanned)) }
{
    match Volume::replay(alloc, weights, 1) {
        Ok(volume) => Ok(plan(&volume, Gfid::ROOT)),
        Err(_) => Err(AllocError),
    }
}
