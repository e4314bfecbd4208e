//! The table of the requests on a file's record.

use dht_guard::{Cell, FileRow, Matrix, State, file_cell, file_table_facts};
use std::alloc::{AllocError, Global};
use std::test::Fail;

/// The table, drawn: `-` refuses, `=` keeps, `>` leads to a state, and `?` does so by a test.
const DRAWING: &str = "
                    Absent    Live      Moving    Standby   Forward
    Read            -         =         =         -         -
    Write           -         >Live     -         -         -
    LockedWrite     -         >Live     >Moving   -         -
    Truncate        -         >Live     -         -         -
    LockedTruncate  -         >Live     >Moving   -         -
    Stat            -         =         =         -         -
    Mark            -         ?Moving   -         -         -
    Unmark          -         -         >Live     -         -
    MakeStandby     ?Standby  -         -         ?Standby  ?Standby
    StandbyWrite    -         -         -         ?Standby  -
    CopyWrite       -         -         -         ?Standby  -
    ClearDirty      -         -         -         >Standby  -
    DropStandby     -         -         -         >Forward  -
    Demote          -         -         ?Forward  -         -
    Promote         -         -         -         ?Live     -
    Drop            -         ?Absent   -         -         -
";

const STATES: [(&str, State); 5] = [
    ("Absent", State::Absent),
    ("Live", State::Live),
    ("Moving", State::Moving),
    ("Standby", State::Standby),
    ("Forward", State::Forward),
];

const ROWS: [(&str, FileRow); 16] = [
    ("Read", FileRow::Read),
    ("Write", FileRow::Write),
    ("LockedWrite", FileRow::LockedWrite),
    ("Truncate", FileRow::Truncate),
    ("LockedTruncate", FileRow::LockedTruncate),
    ("Stat", FileRow::Stat),
    ("Mark", FileRow::Mark),
    ("Unmark", FileRow::Unmark),
    ("MakeStandby", FileRow::MakeStandby),
    ("StandbyWrite", FileRow::StandbyWrite),
    ("CopyWrite", FileRow::CopyWrite),
    ("ClearDirty", FileRow::ClearDirty),
    ("DropStandby", FileRow::DropStandby),
    ("Demote", FileRow::Demote),
    ("Promote", FileRow::Promote),
    ("Drop", FileRow::Drop),
];

/// The name of a state.
fn state_told(state: State) -> &'static str {
    for (name, other) in STATES {
        if other == state {
            return name;
        }
    }
    "no state"
}

/// A cell as it is drawn.
fn cell_told(alloc: Global, cell: Cell) -> Result<String, AllocError> {
    match cell {
        Cell::Refuse => format!(in alloc; "-"),
        Cell::Keep => format!(in alloc; "="),
        Cell::To(state) => format!(in alloc; ">{}", state_told(state)),
        Cell::Test(state) => format!(in alloc; "?{}", state_told(state)),
    }
}

#[test]
fn the_table_is_as_drawn(rt: HostRuntime) -> Result<(), Fail> {
    let mut words = DRAWING.split_whitespace();
    for (name, _) in STATES {
        assert_eq!(rt; words.next(), Some(name));
    }
    for (name, row) in ROWS {
        assert_eq!(rt; words.next(), Some(name));
        for (column, state) in STATES {
            let cell = cell_told(rt.alloc(), file_cell(row, state))?;
            assert_eq!(rt; words.next(), Some(cell.as_str()), "{name} in {column}");
        }
    }
    assert_eq!(rt; words.next(), None);
    file_table_facts();
    Ok(())
}

#[test]
fn a_matrix_is_read_by_row_and_then_by_state(rt: HostRuntime) -> Result<(), Fail> {
    let moving = Cell::To(State::Moving);
    let absent = Cell::Test(State::Absent);
    let matrix = Matrix {
        rows: [
            [Cell::Refuse, Cell::Keep, moving],
            [absent, moving, Cell::Keep],
        ],
    };
    let mut told = String::new(rt.alloc());
    for row in 0..2usize {
        for state in 0..3usize {
            told.push_str(cell_told(rt.alloc(), matrix.cell(row, state))?.as_str())?;
        }
    }
    assert_eq!(rt; told.as_str(), "-=>Moving?Absent>Moving=");
    Ok(())
}
