//! Tests of `judgement_rows`: texts with the judgements and the terms that they spell.
//!
//! They stand in a crate of their own, since a crate with tests is proved twice.
#![tactic(auto)]

#[cfg(test)]
mod depths;
#[cfg(test)]
mod judged;
#[cfg(test)]
mod shown;
