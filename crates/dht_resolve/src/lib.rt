//! Where a name is: what a client remembers of directories, and the lookup.
//!
//! - `cache`: the layouts of up to 256 directories, in the order in which they were first put.
//! - `lookup`: the survey of a layout, a look at the name's holder and at the brick to which a linkto
//!   there leads, and else the search of all bricks under the locks.
//!
//! Proved: a directory that is put has its layout, and every other has what it had, but for the
//! oldest of 256, which makes room for a new one; a put keeps the place of a directory that is
//! there; only a new one can be refused, and that changes nothing. Each request of a lookup is
//! permitted where it is sent, and its answer is what the tree says at the line that it gives,
//! whatever layout the cache had. A file or a directory that one look shows before any lock is
//! answered at once, so that a first lookup sends one request more than there are bricks where the
//! name's holder shows the file, and two more where a linkto there leads to it. A lookup learns the
//! layout that its survey or its section read, answers the first error of a brick, and sends a
//! request that has no answer again. Not said here: that a layout in the cache is still the
//! directory's; it only chooses whom to ask.
#![tactic(auto)]

pub mod cache;
pub mod lookup;
