//! What no contract says of the section, of a create and of an unlink: that their requests come in
//! the order that is wanted, driven by hand.
#![tactic(auto)]

#[cfg(test)]
mod creates;
#[cfg(test)]
mod sections;
#[cfg(test)]
mod unlinks;
