//! Tests of `rows` and `interned`: rows as they are made, read, measured and released.
//!
//! They stand in a crate of their own, since a crate with tests is proved twice.
#![tactic(auto)]

#[cfg(test)]
mod interned_rows;
#[cfg(test)]
mod stored;
