//! The file records of a brick, as the requests about names use them.

ghost use Rattle.std.specs.Prelude.{◌≡◌, [], None, IfOk, OnOk, OnErr};
ghost use Rattle.std.specs.FinMap.{get, insert, remove};
ghost use Rattle.dht_types.specs.declared.stored.Record.{Record};
ghost use Rattle.dht_brick.specs.Contents.{Files, store_of};
ghost use Rattle.dht_brick.specs.Looks.{shape_of, orphans_of};

use super::replies::Gfids;
use super::shapes::Shape;
use super::slots::Slots;
use dht_types::identifiers::Gfid;
use std::alloc::AllocError;

/// The file records of a brick, as a request about a name reads and changes them.
pub trait FileRecords {
    /// The file records.
    ghost files: { Self → Files };

    /// The outline of a file's record. A file without one is Absent.
    fn shape(&self, file: Gfid) -> Shape
        ensures { result ≡ shape_of (get (files self.now) file) };

    /// Gives a file that has no record that of a new, empty file.
    fn make(&mut self, file: Gfid) -> Result<(), AllocError>
        requires { get (files self.old) file ≡ None }
        ensures ok { OnOk result (files self.new
            ≡ insert (files self.old) file (Record.Live 0 [])) }
        ensures err { OnErr result (files self.new ≡ files self.old) };

    /// Takes the record of a file away, if it has one.
    fn remove(&mut self, file: Gfid)
        ensures { files self.new ≡ remove (files self.old) file };

    /// Up to 256 files above this one, or from the start, that are here and have no links among
    /// these slots.
    fn orphans<S: Slots>(&self, after: Option<Gfid>, slots: &S) -> Result<Gfids, AllocError>
        ensures { IfOk result (λ found. found
            ≡ orphans_of (store_of (S.tables slots.now) (files self.now)) after) };
}
