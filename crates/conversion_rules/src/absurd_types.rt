//! Written by tools/write_recipes.py.

use recipes::Row::{Conclude, Field, Premise};
use recipes::{Row, table};
use theory::EqualityRule::TyEqAbsurd;
use theory::RuleName::Equality;

/// Types in a context whose faces are true nowhere.
/// Its parts are H A B.
pub static ABSURD_TYPES: &[Row] = table! {
    // 0: H >> A
    Premise(0),
    // 1: H >> B
    Premise(1),
    Field(0, 0),
    Field(0, 1),
    Field(1, 1),
    // 5: H >> A = B
    Conclude(Equality(TyEqAbsurd), [2, 3, 4, 0, 0, 0, 0, 0, 0, 0], [0, 1, 0, 0, 0, 0, 0]),
};

/// The rows of what it gives: equal.
pub static ABSURD_TYPES_GIVES: &[u16] = &[5];
