//! What each request may do to the record of a file on one brick, by the state that the record is
//! in. The rules stand in one table, which is proved to be the one in `specs/FileTable.antt`.
#![tactic(auto)]

mod cells;
mod file_table;
mod records;

pub use cells::{Cell, Matrix};
pub use file_table::{FILE_TABLE, FileRow, file_cell, file_table_facts};
pub use records::State;
