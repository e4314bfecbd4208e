//! A new brick.

ghost use Rattle.std.specs.Prelude.{◌≡◌, ◌<◌, [], length, true, None, IfOk, IfSome, if◌then◌else◌};
ghost use Rattle.dht_types.specs.Gfid.{root};
ghost use Rattle.dht_types.specs.Saved.{IsValue};
ghost use Rattle.dht_types.specs.declared.saved.Saved.{Saved};
ghost use Rattle.dht_xattr.specs.Plan.{planned_value};
ghost use Rattle.dht_brick.specs.Bricks.{IsNewborn};
ghost use Rattle.dht_brick.specs.Saving.{IsDirOf};
ghost use Rattle.dht_membrick.specs.State.{mem_state};

use crate::brick::MemBrick;
use dht_brick::journal::Journal;
use dht_files::Files;
use dht_locks::Locks;
use dht_names::Tables;
use dht_opens::Opens;
use dht_types::bytes::Bytes;
use dht_types::identifiers::{BrickNo, Gfid};
use dht_types::saved::{Saved, SavedDir, SavedSlots};
use dht_types::stored::DirRecord;
use dht_types::volumes::Volume;
use dht_xattr::plan::plan;
use std::alloc::{AllocError, Global};

/// The attribute of the root that is planned for a brick.
fn planned_value(
    alloc: Global,
    volume: &Volume,
    brick: BrickNo,
) -> Result<Option<Bytes>, AllocError>
    requires { brick.0 < length volume.now.names }
    ensures value { IfOk result (λ v. v ≡ planned_value volume.now.weights root brick.0) }
    ensures text { IfOk result (λ v. IfSome v IsValue) }
{
    match plan(volume, Gfid::ROOT).value(brick) {
        None => Ok(None),
        Some(value) => Ok(Some(Bytes::new(Vec::from_slice(alloc, value.as_slice())?))),
    }
}

/// The attribute of the root on a new brick: the planned one, if the brick is among the first of
/// its volume, and none if it came later.
fn first_value(
    alloc: Global,
    volume: &Volume,
    brick: BrickNo,
    first: bool,
) -> Result<Option<Bytes>, AllocError>
    requires { brick.0 < length volume.now.names }
    ensures value { IfOk result (λ v. v
        ≡ (if first then planned_value volume.now.weights root brick.0 else None)) }
    ensures text { IfOk result (λ v. IfSome v IsValue) }
{
    if first {
        planned_value(alloc, volume, brick)
    } else {
        Ok(None)
    }
}

/// The record of the root, with this attribute.
fn root_record(alloc: Global, value: Option<Bytes>) -> Saved
    requires { IfSome value IsValue }
    ensures is { result ≡ Saved.Dir (record {
      gfid = root;
      dir = record { place = None; depth = 0; value = value };
      slots = [];
    }) }
    ensures spelled { IsDirOf root result }
{
    Saved::Dir(SavedDir {
        gfid: Gfid::ROOT,
        dir: DirRecord {
            place: None,
            depth: 0,
            value,
        },
        slots: SavedSlots::new(Vec::new(alloc)),
    })
}

impl MemBrick {
    /// A new brick of this number, which knows this volume: it contains the root alone, which has
    /// its planned range if the brick is among the first of the volume, and no range if it came
    /// later.
    #[tactic(auto, unfolding(crate::specs::State::mem_state))]
    pub fn new(
        alloc: Global,
        volume: &Volume,
        brick: BrickNo,
        first: bool,
    ) -> Result<MemBrick, AllocError>
        requires { brick.0 < length volume.now.names }
        ensures newborn { IfOk result (λ b. IsNewborn brick.0 volume.now
            (if first then planned_value volume.now.weights root brick.0 else None) (mem_state b)) }
        ensures faultless { IfOk result (λ b. (mem_state b).is_faultless ≡ true) }
    {
        let value = first_value(alloc, volume, brick, first)?;
        let mut tables = Tables::new(alloc, volume)?;
        tables.restore(Gfid::ROOT, Some(&root_record(alloc, value)))?;
        Ok(MemBrick {
            alloc,
            number: brick,
            volume: volume.copied(alloc)?,
            tables,
            files: Files::new(alloc),
            opens: Opens::new(alloc),
            locks: Locks::new(alloc),
            is_up: true,
            is_armed: false,
            faults: 0,
            journal: Journal::new(alloc),
        })
    }
}
