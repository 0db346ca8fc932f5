//! Tests of evaluation where it is told, by hand, that two types that are equal differ.
#![tactic(auto)]

#[cfg(test)]
mod misled;
