//! What is tried: a whole brick, or its tables and file records alone.

use crate::brick::OneBrick;
use crate::fault::Fault;
use crate::parts::Parts;
use crate::words::Words;
use std::alloc::{AllocError, Global};

/// What is tried.
#[derive(Drop)]
pub(crate) enum Bench {
    Brick(OneBrick),
    Parts(Parts),
}

impl Bench {
    /// What a line `brick NUMBER BRICKS` or `parts BRICKS` makes.
    pub(crate) fn new(alloc: Global, line: &str) -> Result<Bench, Fault> {
        let mut words = Words::new(alloc, 1, line);
        let is_whole = words.word() == "brick";
        let number = if is_whole { words.short() } else { 0 };
        let bricks = words.short();
        words.end()?;
        if is_whole {
            Ok(Bench::Brick(OneBrick::new(alloc, number, bricks)?))
        } else {
            Ok(Bench::Parts(Parts::new(alloc, bricks)?))
        }
    }

    /// Carries out what a line says, and tells the answer.
    pub(crate) fn obey(&mut self, line: &str, out: &mut String) -> Result<(), Fault> {
        if line == "dump" {
            return Ok(listed(out, "", self.dump()?.as_slice(), &[])?);
        }
        match self {
            Bench::Brick(brick) => brick.obey(line, out),
            Bench::Parts(parts) => parts.obey(line, out),
        }
    }

    /// The same, and tells which lines of the dump went and came.
    pub(crate) fn change(&mut self, line: &str, out: &mut String) -> Result<(), Fault> {
        let before = self.dump()?;
        self.obey(line, out)?;
        let after = self.dump()?;
        listed(out, "- ", before.as_slice(), after.as_slice())?;
        Ok(listed(out, "+ ", after.as_slice(), before.as_slice())?)
    }

    /// The lines of what it contains.
    fn dump(&self) -> Result<Vec<String>, AllocError> {
        match self {
            Bench::Brick(brick) => brick.dump(),
            Bench::Parts(parts) => parts.dump(),
        }
    }
}

/// Adds a line of its own for each of these that is not among the others.
fn listed(
    out: &mut String,
    mark: &str,
    lines: &[String],
    others: &[String],
) -> Result<(), AllocError> {
    for line in lines {
        if !others.contains(line) {
            out.push_str("\n    ")?;
            out.push_str(mark)?;
            out.push_str(line.as_str())?;
        }
    }
    Ok(())
}
