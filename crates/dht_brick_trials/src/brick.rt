//! A whole brick in memory, and what happens to it.

ghost use Rattle.std.specs.Prelude.{◌≡◌, ◌<◌, ◌≤◌, length, IfOk};
ghost use Rattle.dht_membrick.specs.State.{mem_state};

use crate::fault::Fault;
use crate::words::Words;
use crate::{requests, stored, told};
use dht_brick::brick::Brick;
use dht_brick::pokes::{PokeAt, PokeFault};
use dht_membrick::MemBrick;
use dht_sched::print_line;
use dht_types::identifiers::{BrickNo, CallNo, ClientNo};
use dht_types::lines::Line;
use dht_types::volumes::{Volume, Weights};
use std::alloc::{AllocError, Global};

/// The number that dumps are asked for. It is not the brick's own.
pub(crate) const DUMPED_AS: BrickNo = BrickNo(5);

/// A volume of so many bricks of equal weight.
pub(crate) fn volume(alloc: Global, bricks: u16, run: u32) -> Result<Volume, Fault>
    ensures { IfOk result (λ v. length v.names ≡ bricks) }
{
    let mut each = Vec::new(alloc);
    for _ in 0..bricks {
        each.push(1u16)?;
    }
    let weights = Weights::new(each);
    match Volume::replay(alloc, &weights, run) {
        Ok(volume) if volume.bricks() == bricks => Ok(volume),
        _ => Err(Fault::Unreadable),
    }
}

/// A brick, and the client and the call that ask it.
#[derive(Drop)]
pub(crate) struct OneBrick {
    alloc: Global,
    bricks: u16,
    client: ClientNo,
    call: CallNo,
    brick: MemBrick,
    ghost knows: { length (mem_state brick).volume.names ≡ bricks },
    ghost is_of_them: { (mem_state brick).number < bricks },
    ghost some: { 1 ≤ bricks },
}

impl OneBrick {
    /// A new brick of this number, of a volume of so many.
    pub(crate) fn new(alloc: Global, number: u16, bricks: u16) -> Result<OneBrick, Fault> {
        if number >= bricks {
            return Err(Fault::Unreadable);
        }
        let volume = volume(alloc, bricks, 1)?;
        Ok(OneBrick {
            alloc,
            bricks,
            client: ClientNo(3),
            call: CallNo(1),
            brick: MemBrick::new(alloc, &volume, BrickNo(number), true)?,
        })
    }

    /// Carries out what a line says, and tells the answer.
    pub(crate) fn obey(&mut self, line: &str, out: &mut String) -> Result<(), Fault> {
        let mut words = Words::new(self.alloc, self.bricks, line);
        let kind = words.word();
        if let Some(request) = requests::request(kind, &mut words) {
            words.end()?;
            self.brick.make_room()?;
            let reply = self.brick.serve(self.client, self.call, &request);
            return Ok(told::reply(out, &reply)?);
        }
        match kind {
            "poke" => self.poke(words, out),
            "value" => self.value(words, out),
            "census" => self.census(out),
            "journal" => Ok(self.journal(out)?),
            _ => {
                self.happen(kind, words)?;
                Ok(out.push_str("ok")?)
            }
        }
    }

    /// The lines of what it contains.
    pub(crate) fn dump(&self) -> Result<Vec<String>, AllocError> {
        let mut lines = Vec::new(self.alloc);
        self.brick.dump(DUMPED_AS, &mut lines)?;
        stored::lines(self.alloc, lines.as_slice())
    }

    /// What happens to a brick beside requests. The words may name a client and a call, a client,
    /// or how many bricks there are.
    fn happen(&mut self, kind: &str, mut words: Words<'_>) -> Result<(), Fault> {
        match kind {
            "up" => self.brick.set_up(true),
            "down" => self.brick.set_up(false),
            "arm" => self.brick.arm(),
            "as" => {
                self.client = ClientNo(words.short());
                self.call = CallNo(words.number());
            }
            "death" => self.brick.free_client(ClientNo(words.short())),
            "remount" => self.remount(words.short())?,
            _ => return Err(Fault::Unreadable),
        }
        words.end()
    }

    /// Is mounted anew in a volume of so many bricks.
    fn remount(&mut self, bricks: u16) -> Result<(), Fault> {
        if bricks < self.bricks {
            return Err(Fault::Unreadable);
        }
        let volume = volume(self.alloc, bricks, 2)?;
        self.brick.remount(&volume)?;
        self.bricks = bricks;
        Ok(())
    }

    /// Is given a value from outside.
    fn poke(&mut self, mut words: Words<'_>, out: &mut String) -> Result<(), Fault> {
        let at = match words.word() {
            "layout" => PokeAt::Layout(words.gfid()),
            "linkto" => PokeAt::Linkto(words.gfid(), words.name()),
            _ => return Err(Fault::Unreadable),
        };
        let value = words.bytes();
        words.end()?;
        let word = match self.brick.poke(&at, value.as_slice()) {
            Ok(()) => "ok",
            Err(PokeFault::Slot) => "slot",
            Err(PokeFault::Failed) => "failed",
            Err(PokeFault::OutOfMemory) => "no memory",
        };
        Ok(out.push_str(word)?)
    }

    /// The attribute of a directory.
    fn value(&self, mut words: Words<'_>, out: &mut String) -> Result<(), Fault> {
        let dir = words.gfid();
        words.end()?;
        match self.brick.value(dir) {
            None => out.push_str("no such directory")?,
            Some(None) => out.push_str("ok, no value")?,
            Some(Some(value)) => {
                out.push_str("ok, value ")?;
                told::bytes(out, value)?;
            }
        }
        Ok(())
    }

    /// How much it contains.
    fn census(&self, out: &mut String) -> Result<(), Fault> {
        let all = self.brick.census();
        write!(
            out,
            "ok, dirs {}, slots {}, files {}",
            all.dirs, all.slots, all.files
        )?;
        Ok(write!(out, ", chunks {}", all.chunks)?)
    }

    /// What it served: a transcript's line of each request, and what the entry has beside it.
    fn journal(&self, out: &mut String) -> Result<(), AllocError> {
        for entry in self.brick.entries().as_slice() {
            let (call, client) = (entry.call, entry.client);
            let step = Line::Stepped(call, client, DUMPED_AS, entry.request, entry.reply);
            let mut line = Vec::new(self.alloc);
            print_line(&step, &mut line)?;
            out.push_str("\n    ")?;
            out.push_str(
                str::from_utf8(line.as_slice())
                    .unwrap_or("no text")
                    .trim_end(),
            )?;
            out.push_str(": ")?;
            told::gfid(out, entry.gfid)?;
            out.push('/')?;
            told::bytes(out, entry.name.as_bytes())?;
            write!(out, ", bytes {} + {}", entry.offset, entry.length)?;
        }
        Ok(())
    }
}
