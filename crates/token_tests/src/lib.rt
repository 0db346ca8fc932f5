//! Tests of `layout_lexer`: texts with their tokens, or with the fault.
//!
//! They stand in a crate of their own, since a crate with tests is proved twice.
#![tactic(auto)]

#[cfg(test)]
mod tokens;
