//! The attributes by which a directory's names are spread over bricks: the range of hashes that a
//! brick holds of a directory, the layout that these ranges make, and the name of a brick in a
//! linkto file.
#![tactic(auto)]

pub mod faults;
pub mod layout;
pub mod linkto;
pub mod plan;
pub mod range;
