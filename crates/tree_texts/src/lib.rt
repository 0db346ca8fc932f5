//! The text of trees in which nothing is left to compute.
#![tactic(auto)]

mod tasks;
mod texts;
mod words;

pub use texts::show;
