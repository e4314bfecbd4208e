//! The states of a file's record.

/// What one brick has of a file.
#[derive(Clone, Copy, PartialEq, Eq)]
pub enum State {
    /// The brick has no record of the file.
    Absent,
    /// The file's bytes are here, and they count.
    Live,
    /// The file's bytes are here and count, and they are being copied to another brick.
    Moving,
    /// A copy that is being made, or one that waits to be committed. Its bytes do not count yet.
    Standby,
    /// A pointer to the brick where the file went. No bytes are here.
    Forward,
}
