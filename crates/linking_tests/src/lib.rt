//! Tests of `linking`: modules and the names that they may use of others.
//!
//! They stand in a crate of their own, since a crate with tests is proved twice.
#![tactic(auto)]

#[cfg(test)]
mod scopes_of_modules;
