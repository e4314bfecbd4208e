//! New bricks: those of a new volume, and those that come in a remount.

ghost use Rattle.std.specs.Prelude.{◌≡◌, ◌+◌, ◌-◌, ◌≤◌, ◌<◌, ◌^◌, IfOk, OnOk, OnErr, Err, length, vec_len};
ghost use Rattle.dht_types.specs.Volume.{IsVolume};
ghost use Rattle.dht_membrick.specs.State.{mem_state};
ghost use Rattle.dht_sched.specs.Schedule.{IsScheduledVolume};
ghost use Rattle.dht_world.specs.Bricks.{disk_of, journals_of, none_down, IsNew, AreNew, AreNewborn, AreReady};
ghost use Rattle.dht_world.specs.Places.{next_volume, MayJoin};
ghost use Rattle.dht_run.specs.NewBricks.{first_value};

use dht_brick::brick::Brick;
use dht_membrick::MemBrick;
use dht_section::caller::Caller;
use dht_types::identifiers::BrickNo;
use dht_types::volumes::{Volume, Weights};
use dht_world::World;
use std::alloc::{AllocError, Global};

/// A kind of brick of which new ones can be made.
pub trait NewBrick: Brick {
    /// A new brick of this number, which knows this volume and fails only where it is armed. It has
    /// the root alone: with its planned range if it is among the first bricks of the volume, and
    /// with none if it comes later.
    fn new_brick(
        alloc: Global,
        volume: &Volume,
        number: BrickNo,
        first: bool,
    ) -> Result<Self, AllocError>
        requires { number.0 < length volume.now.names }
        ensures { IfOk result (λ b. IsNew volume.now
            (first_value first volume.now.weights number.0) number.0 (Self.state b)) };
}

impl NewBrick for MemBrick {
    fn new_brick(
        alloc: Global,
        volume: &Volume,
        number: BrickNo,
        first: bool,
    ) -> Result<MemBrick, AllocError> {
        MemBrick::new(alloc, volume, number, first)
    }
}

/// The bricks of this volume from this number on, all new.
fn new_bricks<B: NewBrick + Drop>(
    alloc: Global,
    volume: &Volume,
    from: u16,
    first: bool,
) -> Result<Vec<B>, AllocError>
    ensures count { IfOk result (λ v. vec_len v ≡ length volume.now.names - from) }
    ensures new { IfOk result (λ v.
        AreNew B.state volume.now (first_value first volume.now.weights) from v.items) }
{
    let mut bricks = Vec::new(alloc);
    for number in from..volume.bricks() {
        bricks.push(B::new_brick(alloc, volume, BrickNo(number), first)?)?;
    }
    Ok(bricks)
}

/// The bricks of a new volume of these weights, in the first run. The root has its planned range on
/// each.
pub fn first_bricks<B: NewBrick + Drop>(
    alloc: Global,
    weights: &Weights,
) -> Result<Vec<B>, AllocError>
    requires volume { IsScheduledVolume weights.now }
    ensures count { IfOk result (λ v. vec_len v ≡ length weights.now) }
    ensures newborn { IfOk result (λ v.
        AreNewborn weights.now (disk_of B.state v.items) (journals_of B.state v.items)) }
    ensures ready { IfOk result (λ v. AreReady B.state weights.now 1 none_down v.items) }
{
    let Ok(volume) = Volume::replay(alloc, weights, 1) else {
        return Err(AllocError);
    };
    new_bricks(alloc, &volume, 0, true)
}

/// The bricks that come to the world where these weights are mounted next.
pub fn fresh_bricks<B: NewBrick + Drop, C: Caller>(
    alloc: Global,
    world: &World<B, C>,
    weights: &Weights,
) -> Result<Vec<B>, AllocError>
    requires volume { IsScheduledVolume weights.now }
    requires run { world.now.run + 1 < 2 ^ 32 }
    requires bricks { vec_len world.now.bricks ≤ 32 }
    ensures volume { OnOk result (IsVolume (next_volume world.now weights.now)) }
    ensures join { IfOk result (λ v. MayJoin B.Brick world.now weights.now v.items) }
{
    let Ok(volume) = Volume::replay(alloc, weights, world.run + 1) else {
        return Err(AllocError);
    };
    new_bricks(alloc, &volume, world.bricks.len() as u16, false)
}
