//! The memory of a section of a name that is a directory's, which is taken before that directory is
//! known.

ghost use Rattle.std.specs.Prelude.{◌≡◌, IfOk};
ghost use Rattle.dht_section.specs.Pairs.{aimed_pair, pair_room};

use super::looks::Looks;
use super::section::Prepared;
use super::want::Scope;
use dht_types::identifiers::Gfid;
use dht_types::names::Name;
use std::alloc::{AllocError, Global};

impl Prepared {
    /// What the section of a name needs that is a directory's: it shares the lock of the directory
    /// in which the name stands, and takes that of the name's directory alone. That one is not
    /// known yet.
    pub fn of_pair(
        alloc: Global,
        bricks: u16,
        directory: Gfid,
        name: Name,
    ) -> Result<Prepared, AllocError>
        ensures { IfOk result (λ p. p ≡ pair_room bricks directory name) }
    {
        let scope = Scope::of_pair(alloc, bricks, directory, directory, name)?;
        let looks = Looks::new(alloc, 1)?;
        Ok(Prepared { scope, looks })
    }

    /// The same for this directory, which is the name's. It takes no memory.
    pub fn aimed(self, own: Gfid) -> Prepared
        ensures { result ≡ aimed_pair self own }
    {
        Prepared {
            scope: self.scope.aimed(own),
            looks: self.looks,
        }
    }
}
