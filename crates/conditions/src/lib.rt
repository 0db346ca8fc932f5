//! The side conditions of rules: formulas and faces over the names of a context, faces that hold
//! there, and formulas of one value.
//!
//! The definitions stand in `specs/Sides`. Nothing here runs: a side test names what is asked, and
//! the laws are contracts.
//!
//! ```text
//! // over `[].I`, of whose name i nothing is told
//! laws_of_sides();
//! // `max i (neg i)` is not of one value with `i1`, and `(i = 0) or (i = 1)` does not hold
//! SideTest::Holds(ctx, face)           // asks of rows whether the face holds in the context
//! ```
#![tactic(auto)]

mod laws;
mod side_test;

pub use laws::laws_of_sides;
pub use side_test::SideTest;
