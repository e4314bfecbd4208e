//! A remount: more bricks, or other weights of those that are there. All clients begin anew.

ghost use Rattle.std.specs.Prelude.{◌≡◌, ◌+◌, ◌≤◌, ◌<◌, ◌^◌, ◌⊎◌, ℕ, Bool, List, ◌++◌, OnOk, OnErr, IfOk, vec_len, vec_capacity, length, map};
ghost use Rattle.dht_types.specs.History.{history_of};
ghost use Rattle.dht_types.specs.Volume.{IsVolume, replay_info};
ghost use Rattle.dht_types.specs.declared.lines.Line.{Line};
ghost use Rattle.dht_world.specs.Bricks.{remounted_in, AreReady, SomeBecame};
ghost use Rattle.dht_world.specs.Clients.{AreNewClients};
ghost use Rattle.dht_world.specs.Places.{next_volume, IsAt, IsAccepted, IsRefused, IsRemounting, MayJoin, Mounts, StaysInPart, Adds, Comes};

use super::events::World;
use super::notes::push_line;
use super::places::Place;
use dht_brick::brick::Brick;
use dht_section::caller::Caller;
use dht_types::events::Event;
use dht_types::identifiers::{CallNo, ClientNo};
use dht_types::lines::Line;
use dht_types::volumes::{Volume, Weights};
use std::alloc::{AllocError, Global};

/// How many clients a world has.
const CLIENTS: u16 = 64;

/// Mounts each brick anew in this volume, the first brick first. Where memory runs out, some bricks
/// have been mounted anew, and the others are as they were.
fn remount_bricks<B: Brick>(bricks: &mut Vec<B>, volume: &Volume) -> Result<(), AllocError>
    requires ready { (ws : List ℕ) × (run : ℕ) × (down : ℕ → Bool)
        × AreReady B.state ws run down bricks.old.items }
    requires grown { vec_len bricks.old ≤ length volume.now.names }
    ensures ok { OnOk result (map B.state bricks.new.items
        ≡ map (remounted_in volume.now) (map B.state bricks.old.items)) }
    ensures some { SomeBecame (remounted_in volume.now)
        (map B.state bricks.old.items) (map B.state bricks.new.items) }
{
    for number in 0..bricks.len() {
        bricks[number].remount(volume)?;
    }
    Ok(())
}

/// Makes all clients anew.
fn begin_anew<C: Caller + Drop>(clients: &mut Vec<Place<C>>)
    requires many { vec_len clients.old ≡ 64 }
    ensures many { vec_len clients.new ≡ 64 }
    ensures new { AreNewClients C.Caller clients.new.items }
{
    for number in 0..CLIENTS {
        let client = C::new(ClientNo(number));
        clients[usize::from(number)] = Place::Living(client, CallNo(0));
    }
}

/// What a remount with these weights in this run needs: the weights twice, and the volume.
fn prepared(
    alloc: Global,
    weights: &Weights,
    run: u32,
) -> Result<(Weights, Weights, Volume), AllocError>
    ensures first { IfOk result (λ made. made.0 ≡ weights.now) }
    ensures second { IfOk result (λ made. made.1 ≡ weights.now) }
    ensures volume { IfOk result (λ made. made.2 ≡ replay_info weights.now run) }
{
    let told = weights.copied(alloc)?;
    let known = weights.copied(alloc)?;
    match Volume::replay(alloc, weights, run) {
        Ok(volume) => Ok((told, known, volume)),
        Err(_) => Err(AllocError),
    }
}

impl<B: Brick, C: Caller> World<B, C> {
    /// A remount that is not refused.
    fn mount(
        &mut self,
        alloc: Global,
        weights: &Weights,
        mut fresh: Vec<B>,
        out: &mut Vec<Line>,
    ) -> Result<(), AllocError>
    where
        B: Drop,
        C: Drop,
        requires volume { IsVolume (next_volume self.old weights.now) }
        requires run { self.old.run + 1 < 2 ^ 32 }
        requires fresh { MayJoin B.Brick self.old weights.now fresh.items }
        requires room { vec_len out.old + 3 ≤ vec_capacity out.old }
        requires few { self.old.lines + 3 < 2 ^ 64 }
        requires accepted { IsAccepted B.Brick C.Caller self.old (Event.Remount weights.now) }
        ensures comes { OnOk result (Comes B.Brick C.Caller self.old self.new
            (Event.Remount weights.now) out.old.items out.new.items) }
        ensures mounts { OnOk result
            (Mounts B.Brick self.old self.new weights.now fresh.items) }
        ensures err { OnErr result ((past : List Line)
            → IsAt B.Brick C.Caller self.old past
            → IsRemounting B.Brick C.Caller self.new weights.now past) }
        ensures stays { OnErr result (StaysInPart B.Brick self.old self.new weights.now) }
        ensures none { OnErr result (out.new.items ≡ out.old.items) }
        ensures grows { self.new.lines ≤ self.old.lines + 3 }
    {
        let (told, known, volume) = prepared(alloc, weights, self.run + 1)?;
        remount_bricks(&mut self.bricks, &volume)?;
        self.bricks.append(&mut fresh)?;
        begin_anew(&mut self.clients);
        self.weights = known;
        self.run += 1;
        push_line(out, Line::Remounted(told));
        self.lines += 1;
        Ok(())
    }

    /// A remount with these weights, that of this line of the schedule; its line is appended.
    /// `fresh` are the bricks that come, in the order of their numbers; they are dropped where the
    /// remount is refused. Where memory runs out the remount has not happened, but some bricks may
    /// have been mounted anew already and know the volume that was to be; so no other event may
    /// come then.
    pub fn remount(
        &mut self,
        alloc: Global,
        weights: &Weights,
        fresh: Vec<B>,
        line: u64,
        out: &mut Vec<Line>,
    ) -> Result<(), AllocError>
    where
        B: Drop,
        C: Drop,
        requires volume { IsVolume (next_volume self.old weights.now) }
        requires run { self.old.run + 1 < 2 ^ 32 }
        requires fresh { MayJoin B.Brick self.old weights.now fresh.items }
        requires few { self.old.lines + 3 < 2 ^ 64 }
        requires at { (past : List Line) × IsAt B.Brick C.Caller self.old past }
        ensures ok { OnOk result ((past : List Line)
            → IsAt B.Brick C.Caller self.old past
            → Adds B.Brick C.Caller self.old self.new line (Event.Remount weights.now) past
            out.old.items out.new.items) }
        ensures mounts { OnOk result ((past : List Line)
            → IsAt B.Brick C.Caller self.old past
            → IsRefused (history_of past) (Event.Remount weights.now)
            ⊎ Mounts B.Brick self.old self.new weights.now fresh.items) }
        ensures err { OnErr result ((past : List Line)
            → IsAt B.Brick C.Caller self.old past
            → IsRemounting B.Brick C.Caller self.new weights.now past) }
        ensures stays { OnErr result (StaysInPart B.Brick self.old self.new weights.now) }
        ensures none { OnErr result (out.new.items ≡ out.old.items) }
        ensures grows { self.new.lines ≤ self.old.lines + 3 }
    {
        out.reserve(3)?;
        if let Some(cause) = self.remount_cause(weights) {
            self.refuse(line, cause, out);
            return Ok(());
        }
        self.mount(alloc, weights, fresh, out)
    }
}
