//! How much a brick contains.

/// How much a brick contains.
#[derive(Clone, Copy, PartialEq, Eq)]
pub struct Census {
    /// The number of directory records.
    pub dirs: u64,
    /// The number of slots.
    pub slots: u64,
    /// The number of file records.
    pub files: u64,
    /// The number of chunks of 65,536 bytes that its files' records have, each file's rounded up.
    pub chunks: u128,
}
