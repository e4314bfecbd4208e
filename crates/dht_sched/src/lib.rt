//! The lines of schedules, read, and the lines of transcripts, printed. `specs/` has the one text
//! of each event and of each line.
#![tactic(auto)]

mod calls;
mod commands;
mod dump;
mod fault;
mod fields;
mod kinds;
mod names;
mod schedule;
mod transcript;
mod words;

pub use commands::{print_hash, print_range};
pub use dump::print_dump_line;
pub use fault::LineFault;
pub use schedule::{LINE_LIMIT, is_volume, one_line, read_line, read_weight};
pub use transcript::{lines_follow, print_limit, print_line, print_malformed, print_usage};
