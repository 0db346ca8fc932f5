//! The words of the command line.
//!
//! ```text
//! command_of(alloc, &words)?  // of `normal Nat two --turns 100`:
//!                         // Some(Command::Normal { module: "Nat", name: "two", turns: 100 })
//! ```
#![tactic(auto)]

mod commands;
mod grammar;
mod names;
mod numbers;

pub use commands::{Command, command_of};

#[cfg(test)]
mod tests;
