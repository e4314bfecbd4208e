//! How a run of the program ends.

ghost use Rattle.std.specs.Prelude.{◌≡◌};
ghost use Rattle.dht_run.specs.Status.{status_of};

/// How a run of the program ends.
#[derive(Clone, Copy, Debug, PartialEq, Eq)]
pub enum Ending {
    /// All was carried out.
    Done,
    /// The words are no command.
    Usage,
    /// An invalid line was reached.
    Malformed,
    /// The source failed.
    SourceFailed,
    /// The sink failed.
    SinkFailed,
    /// Memory ran out.
    OutOfMemory,
    /// The run has had all its steps.
    Limit,
}

impl Ending {
    /// The status with which the program ends.
    pub fn status(self) -> u8
        ensures { result ≡ status_of self }
    {
        match self {
            Ending::Done => 0,
            Ending::Usage => 2,
            Ending::Malformed => 3,
            Ending::SourceFailed => 4,
            Ending::SinkFailed => 5,
            Ending::OutOfMemory => 6,
            Ending::Limit => 7,
        }
    }
}
