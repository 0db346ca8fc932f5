//! Written by tools/write_recipes.py.

use recipes::Row::{Conclude, Field, Premise};
use recipes::{Row, table};
use theory::EqualityRule::TmEqTrans;
use theory::RuleName::Equality;

/// One equation after another.
/// Its parts are H t u v A.
pub static EQUAL_AFTER: &[Row] = table! {
    // 0: H >> t = u : A
    Premise(0),
    // 1: H >> u = v : A
    Premise(1),
    Field(0, 0),
    Field(0, 1),
    Field(0, 2),
    Field(1, 2),
    Field(0, 3),
    // 7: H >> t = v : A
    Conclude(Equality(TmEqTrans), [2, 3, 4, 5, 6, 0, 0, 0, 0, 0], [0, 1, 0, 0, 0, 0, 0]),
};

/// The rows of what it gives: equal.
pub static EQUAL_AFTER_GIVES: &[u16] = &[7];
