//! The name of a call, and the section of it.

ghost use Rattle.std.specs.Prelude.{◌≡◌, IfOk};
ghost use Rattle.dht_section.specs.Location.{prepared_at, section_at};

use super::section::{Prepared, Section};
use dht_types::identifiers::Gfid;
use dht_types::locks::Mode;
use dht_types::names::Name;
use std::alloc::{AllocError, Global};

/// A name in a directory, of a volume of so many bricks.
#[derive(Clone, Copy)]
pub struct Location {
    pub directory: Gfid,
    pub name: Name,
    pub bricks: u16,
}

impl Location {
    /// What the section of the name needs, which shares the lock of its directory.
    pub fn prepare(&self, alloc: Global) -> Result<Prepared, AllocError>
        ensures { IfOk result (λ p. p ≡ prepared_at self.now) }
    {
        Prepared::of_name(alloc, self.bricks, self.directory, Mode::Shared, self.name)
    }

    /// The section of the name. It takes the memory that the section will need.
    pub fn section(&self, alloc: Global) -> Result<Section, AllocError>
        ensures { IfOk result (λ m. m ≡ section_at self.now) }
    {
        Ok(self.prepare(alloc)?.begin())
    }
}
