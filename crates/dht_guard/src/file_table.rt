//! The table of the requests on a file's record.

ghost use Rattle.std.specs.Prelude.{◌≡◌, ◌≢◌, ◌↔◌};
ghost use Rattle.dht_guard.specs.declared.file_table.FileRow.{FileRow};
ghost use Rattle.dht_guard.specs.FileTable.{file_cell_of};
ghost use Rattle.dht_guard.specs.FileTableFacts.{IsForStandby, LeadsTo};

use crate::cells::{Cell, Matrix};
use crate::records::State;

/// The cell of a record that is in the state `$own`, from its words in the table.
macro_rules! cell {
    ($own:ident refuse) => {
        Cell::Refuse
    };
    ($own:ident keep) => {
        Cell::Keep
    };
    ($own:ident change) => {
        Cell::To(State::$own)
    };
    ($own:ident to $next:ident) => {
        Cell::To(State::$next)
    };
    ($own:ident test) => {
        Cell::Test(State::$own)
    };
    ($own:ident test to $next:ident) => {
        Cell::Test(State::$next)
    };
}

/// A row of the table: the words of each cell, in the order of the states.
macro_rules! row {
    ($($absent:ident)+, $($live:ident)+, $($moving:ident)+, $($standby:ident)+, $($forward:ident)+) => {
        [
            cell!(Absent $($absent)+),
            cell!(Live $($live)+),
            cell!(Moving $($moving)+),
            cell!(Standby $($standby)+),
            cell!(Forward $($forward)+),
        ]
    };
}

/// The requests on a file's record. As numbers, from 0, they are the rows of [`FILE_TABLE`].
#[derive(Clone, Copy, PartialEq, Eq)]
pub enum FileRow {
    /// Reads bytes of the file.
    Read,
    /// Writes bytes without the lock on the file's bytes.
    Write,
    /// Writes bytes under the lock on the file's bytes.
    LockedWrite,
    /// Sets the file's length without the lock on its bytes.
    Truncate,
    /// Sets the file's length under the lock on its bytes.
    LockedTruncate,
    /// Asks for the file's length and links.
    Stat,
    /// Says that the file is being copied to another brick.
    Mark,
    /// Says that the file is no longer being copied.
    Unmark,
    /// Makes an empty copy, or empties the copy that is here.
    MakeStandby,
    /// Changes the copy as a writer changes its source. The copy is dirty from then on.
    StandbyWrite,
    /// Writes bytes that were read at the source into the copy.
    CopyWrite,
    /// Says that the source has had the writer's change too. The copy is no longer dirty.
    ClearDirty,
    /// Gives the copy up, and leaves a pointer to the source in its place.
    DropStandby,
    /// Commits the copy on the other brick, and leaves a pointer to it in the file's place.
    Demote,
    /// Makes the committed copy the file.
    Promote,
    /// Takes away the record of a file that has no links.
    Drop,
}

/// What each request on a file's record may do in each state: a row for each [`FileRow`], with a
/// cell for each [`State`], both in the order in which their enum has them.
pub const FILE_TABLE: Matrix<16, 5> = Matrix {
    rows: [
        // Absent, Live, Moving, Standby, Forward
        row!(refuse, keep, keep, refuse, refuse), // read
        row!(refuse, change, refuse, refuse, refuse), // write
        row!(refuse, change, change, refuse, refuse), // locked write
        row!(refuse, change, refuse, refuse, refuse), // truncate
        row!(refuse, change, change, refuse, refuse), // locked truncate
        row!(refuse, keep, keep, refuse, refuse), // stat
        row!(refuse, test to Moving, refuse, refuse, refuse), // mark
        row!(refuse, refuse, to Live, refuse, refuse), // unmark
        row!(test to Standby, refuse, refuse, test, test to Standby), // make standby
        row!(refuse, refuse, refuse, test, refuse), // standby write
        row!(refuse, refuse, refuse, test, refuse), // copy write
        row!(refuse, refuse, refuse, change, refuse), // clear dirty
        row!(refuse, refuse, refuse, to Forward, refuse), // drop standby
        row!(refuse, refuse, test to Forward, refuse, refuse), // demote
        row!(refuse, refuse, refuse, test to Live, refuse), // promote
        row!(refuse, test to Absent, refuse, refuse, refuse), // drop
    ],
};

/// What a request may do to the record of a file that is in this state.
pub fn file_cell(row: FileRow, state: State) -> Cell
    ensures { result ≡ file_cell_of row state }
{
    FILE_TABLE.cell(row as usize, state as usize)
}

/// What holds of the table as a whole. While a file is being copied, a change without the lock on
/// its bytes is refused, and a demote alone leaves a pointer in the file's place. A standby refuses
/// each request but those that make it, fill it, commit it or give it up.
pub fn file_table_facts()
    ensures free_write_refuses_moving { file_cell_of FileRow.Write State.Moving ≡ Cell.Refuse }
    ensures free_truncate_refuses_moving { file_cell_of FileRow.Truncate State.Moving
        ≡ Cell.Refuse }
    ensures only_demote_leads_from_moving_to_forward { (row : FileRow)
        → LeadsTo (file_cell_of row State.Moving) State.Forward ↔ (row ≡ FileRow.Demote) }
    ensures standby_refuses_all_but_six { (row : FileRow)
        → (file_cell_of row State.Standby ≢ Cell.Refuse) ↔ IsForStandby row }
{}
