//! Tests of `codes`, `scopes` and `name_resolution`: codes by their forms, names in scope, and
//! names and formulas of a text.
//!
//! They stand in a crate of their own, since a crate with tests is proved twice.
#![tactic(auto)]

#[cfg(test)]
mod forms;
#[cfg(test)]
mod names;
#[cfg(test)]
mod scope;
#[cfg(test)]
mod words;
