//! The events of a schedule, one for each of its lines.

use super::calls::Call;
use super::identifiers::Gfid;
use super::volumes::Weights;

/// A directory, as a line of a schedule names it.
#[derive(Clone, Copy)]
pub enum Directory {
    /// The root: `@`.
    Root,
    /// The file or directory that the call of this number answered: `@` and the number.
    OfCall(u64),
    /// The directory of this gfid, in its own text.
    Gfid(Gfid),
}

/// What a line of a schedule says. A number of a client or of a brick is what the line says,
/// whether or not there is such a client or brick.
#[derive(Drop)]
pub enum Event {
    /// The volume: its bricks' weights, in the bricks' order. It stands first and alone.
    Volume(Weights),
    /// More bricks, or other weights of those that are there: the weights of all, in the bricks'
    /// order. All clients begin anew.
    Remount(Weights),
    /// This client calls.
    Call(u64, Call<Directory>),
    /// The next request of this client's call is carried out.
    Step(u64),
    /// This brick goes down.
    Down(u64),
    /// This brick comes back.
    Up(u64),
    /// This client dies.
    Die(u64),
}
