//! Tests of `book` and `book_writer`: derivations that are concluded rule by rule, and their files.
//!
//! They stand in a crate of their own, since a crate with tests is proved twice.
#![tactic(auto)]

#[cfg(test)]
mod concluded;
#[cfg(test)]
mod written;
