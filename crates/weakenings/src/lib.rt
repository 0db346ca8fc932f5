//! What trees and substitutions are once they are weakened, where they need no further row: a
//! variable that a substitution passes is a variable, a tree under the identity, or under a shift
//! that is undone, is the tree, and shifts that come one after another are one shift.
//!
//! ```text
//! let mut rows = RowStore::new(alloc);
//! let (one, var) = (rows.shift(1)?, rows.var(2)?);
//! passed(&rows, TermId(var), SubId(one))              // Some(3)
//! shift_of_both(&rows, SubId(one), SubId(one))        // Some(2)
//! ```
#![tactic(auto)]

mod weakened;

pub use weakened::{passed, shift_of_both, undone};

#[cfg(test)]
mod tests;
