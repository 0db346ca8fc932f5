//! Tests of `rules`: what rules want, ask and give, over rows that are known beforehand.
//!
//! They stand in a crate of their own, since a crate with tests is proved twice.
#![tactic(auto)]

#[cfg(test)]
mod known_rows;
#[cfg(test)]
mod said;
