//! Laws of bricks, for callers. They do nothing.

ghost use Rattle.std.specs.Coded.{Coded};
ghost use Rattle.dht_brick.specs.Contents.{Tables, Files, Opens};
ghost use Rattle.dht_brick.specs.Laws.{RefusalsChangeNothing, WaitsChangeNothing, ServedByRow, RowServes, NamesServe, FilesServe, RegisterServes, UnregisterServes, SealServes, LockServes, UnlockServes, FreeLocksAreGranted, HeldLocksAreAwaited, FileIsRestored, DirIsRestored, NewbornShowsTheRoot, NeverIsNotInMemory, RowsStayWithin, RepliesAreWithin, NewbornIsWithin, FreedStaysWithin, RemountedStaysWithin, PokedStaysWithin, GrownStaysWithin};
ghost use Rattle.dht_brick.specs.Locality.{NamesAreLocal, FilesAreLocal, LocksAreLocal};
ghost use Rattle.dht_brick.specs.Table.{LeavesAsTheTable, ObeysTheTable};

/// A request that is refused, or waits, changes nothing.
pub fn refusals_change_nothing()
    ensures refused { RefusalsChangeNothing }
    ensures waits { WaitsChangeNothing }
{}

/// A request that was served, and did not run out of memory, has the reply of its row, and leaves
/// what the row leaves.
pub fn served_is_by_row()
    ensures served { ServedByRow }
    ensures row { RowServes }
{}

/// The rows about a file's record do what the table of dht_guard says: they are refused, and leave
/// the record in a state, as the cell does.
pub fn file_rows_are_of_the_table()
    ensures leaves { LeavesAsTheTable }
    ensures obeys { ObeysTheTable }
{}

/// A request about names or about a file changes at most one slot, the record of one directory and
/// that of one file; where a directory is dropped, the slots in it go too. No request changes a
/// lock of another client.
pub fn requests_are_local()
    ensures names { NamesAreLocal }
    ensures files { FilesAreLocal }
    ensures locks { LocksAreLocal }
{}

/// What a part of a brick serves, the brick serves.
pub fn parts_serve()
    ensures names { NamesServe }
    ensures files { FilesServe }
    ensures register { RegisterServes }
    ensures unregister { UnregisterServes }
    ensures seal { SealServes }
    ensures lock { LockServes }
    ensures unlock { UnlockServes }
{}

/// A lock is waited for exactly where another client holds it in a mode that excludes the one asked
/// for, and the lowest such client is named.
pub fn only_held_locks_are_awaited()
    ensures granted { FreeLocksAreGranted }
    ensures awaited { HeldLocksAreAwaited }
{}

/// What was saved of a file or a directory and is restored is as it was.
pub fn saved_is_restored()
    ensures file { FileIsRestored }
    ensures dir { DirIsRestored }
{}

/// A new brick shows the record of the root alone.
pub fn a_new_brick_shows_the_root()
    ensures { NewbornShowsTheRoot }
{}

/// What never takes memory takes none on a brick in memory.
pub fn what_never_takes_memory()
    ensures { NeverIsNotInMemory }
{}

/// Contents and replies name only bricks of the volume that the brick knows: a new brick's do, and
/// so it stays by each request that may be sent to it, when a client has died or all are new, when
/// a value is set from outside, and when the volume has grown.
pub fn only_bricks_of_the_volume_are_named()
    ensures rows { RowsStayWithin }
    ensures replies { RepliesAreWithin }
    ensures newborn { NewbornIsWithin }
    ensures freed { FreedStaysWithin }
    ensures remounted { RemountedStaysWithin }
    ensures poked { PokedStaysWithin }
    ensures grown { GrownStaysWithin }
{}

/// What the parts of a brick contain has codes, so that models may show it.
pub fn contents_have_codes()
    ensures tables { Coded Tables }
    ensures files { Coded Files }
    ensures opens { Coded Opens }
{}
