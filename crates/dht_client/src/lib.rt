//! A client of the volume: the program of each call, and the client that runs one at a time.
//!
//! - `program`: the program of a call, whichever it is.
//! - `calling`: the client, and the layouts that it remembers.
//!
//! Proved: a client that knows the layout of a name's directory looks at the name's holder first; a
//! lookup answers at once what one look shows; a heal that was alone leaves its directory, and each
//! above it, whole; a client answers the first error of a brick, and sends a request that has no
//! answer again; each call sends so many requests at most; and the layout that a call learned is in
//! the cache from the call's end on, unless memory for it was refused.
#![tactic(auto)]

mod calling;
mod program;

pub use calling::Client;
