//! Values by number, of which the newest of a number counts: what is in scope under definitions
//! that go by number.
//!
//! ```text
//! scope.push(Numbered { number: 3, value: a })?;
//! let mark = scope.mark();
//! scope.push(Numbered { number: 3, value: b })?;    // hides a
//! scope.find(3);                                    // Some(b)
//! scope.cut(mark);
//! scope.find(3);                                    // Some(a)
//! ```
#![tactic(auto)]

mod numbered;

pub use numbered::{ByNumber, Numbered};

#[cfg(test)]
mod tests;
