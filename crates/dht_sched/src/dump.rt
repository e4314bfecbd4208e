//! The lines of what bricks contain, printed.

ghost use Rattle.std.specs.Prelude.{◌≡◌, ◌++◌, OnOk, OnErr};
ghost use Rattle.dht_sched.specs.Transcript.{dump_text};

use crate::fields::{Field, print_fields};
use dht_types::lines::DumpLine;
use std::alloc::AllocError;

/// Appends a line of what the bricks contain to `out`, with its newline. Where memory runs out,
/// `out` stays as it was.
#[tactic(auto, unfolding(crate::specs::Transcript::dump_text))]
pub fn print_dump_line(line: &DumpLine, out: &mut Vec<u8>) -> Result<(), AllocError>
    ensures ok { OnOk result (out.new.items ≡ out.old.items ++ dump_text line.now) }
    ensures err { OnErr result (out.new.items ≡ out.old.items) }
{
    match line {
        DumpLine::Brick(brick, is_up) => {
            let up = Field::Word(if *is_up { "up" } else { "down" });
            print_fields(out, "brick", &[Field::Number(u64::from(brick.0)), up])
        }
        DumpLine::Dir(brick, directory, value) => {
            let directory = Field::Gfid(*directory);
            let words = [
                Field::Number(u64::from(brick.0)),
                directory,
                Field::Value(value),
            ];
            print_fields(out, "dir", &words)
        }
        DumpLine::Slot(brick, directory, name, slot) => {
            let (brick, directory) = (Field::Number(u64::from(brick.0)), Field::Gfid(*directory));
            let (main, standby) = (Field::Main(&slot.main), Field::Standby(slot.standby));
            let words = [
                brick,
                directory,
                Field::Name(name.as_bytes()),
                main,
                standby,
            ];
            print_fields(out, "slot", &words)
        }
        DumpLine::File(brick, file, line) => {
            let (brick, file) = (Field::Number(u64::from(brick.0)), Field::Gfid(*file));
            print_fields(out, "file", &[brick, file, Field::Record(line)])
        }
        DumpLine::End => print_fields(out, "end", &[]),
    }
}
