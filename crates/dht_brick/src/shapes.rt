//! The outline of a file's record.

use dht_guard::State;
use dht_types::identifiers::BrickNo;

/// The outline of a file's record. Each number that the record does not have is 0.
#[derive(Clone, Copy)]
pub struct Shape {
    /// Its state.
    pub state: State,
    /// How often the file was moved, by the record.
    pub hop: u64,
    /// The brick that it names: where the file goes to or went to, or the source of a copy.
    pub brick: BrickNo,
    /// How many bytes it has.
    pub length: u64,
}
