//! Written by tools/write_recipes.py.

use recipes::Row::{Conclude, Field, Premise};
use recipes::{Row, table};
use theory::EqualityRule::TmEqRefl;
use theory::RuleName::Equality;

/// A term equals itself.
/// Its parts are G t A.
pub static WAY_HOME: &[Row] = table! {
    // 0: G >> t : A
    Premise(0),
    Field(0, 0),
    Field(0, 1),
    Field(0, 2),
    // 4: G >> t = t : A
    Conclude(Equality(TmEqRefl), [1, 2, 3, 0, 0, 0, 0, 0, 0, 0], [0, 0, 0, 0, 0, 0, 0]),
};

/// The rows of what it gives: equal.
pub static WAY_HOME_GIVES: &[u16] = &[4];
