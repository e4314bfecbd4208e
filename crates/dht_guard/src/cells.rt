//! What a request may do to a record, and a matrix of such cells.

ghost use Rattle.std.specs.Prelude.{◌≡◌, ◌<◌};
ghost use Rattle.dht_guard.specs.Cells.{cell_at};

use crate::records::State;

/// What a request may do to a record that is in one state.
#[derive(Clone, Copy, PartialEq, Eq)]
pub enum Cell {
    /// The request is refused, and the record stays as it is.
    Refuse,
    /// The request is answered, and the record stays as it is.
    Keep,
    /// The request changes the record, which is in this state afterwards. It may be the same state.
    To(State),
    /// As `To`, where the request's own further condition holds. Elsewhere the request is refused.
    Test(State),
}

/// A cell for each of `R` requests in each of `S` states.
#[derive(Clone, Copy)]
pub struct Matrix<const R: usize, const S: usize> {
    /// A row for each request, with a cell for each state.
    pub rows: [[Cell; S]; R],
}

impl<const R: usize, const S: usize> Matrix<R, S> {
    /// The cell of the request numbered `row` in the state numbered `state`, both from 0.
    pub fn cell(&self, row: usize, state: usize) -> Cell
        requires row_in_range { row < R }
        requires state_in_range { state < S }
        ensures { result ≡ cell_at self.now.rows row state }
    {
        self.rows[row][state]
    }
}
