//! Written by tools/write_recipes.py.

use recipes::Row::{Conclude, Field, Premise};
use recipes::{Row, table};
use theory::EqualityRule::TmEqAbsurd;
use theory::RuleName::Equality;

/// Terms in a context whose faces are true nowhere.
/// Its parts are H a b A.
pub static ABSURD_TERMS: &[Row] = table! {
    // 0: H >> a : A
    Premise(0),
    // 1: H >> b : A
    Premise(1),
    Field(0, 0),
    Field(0, 1),
    Field(1, 1),
    Field(0, 2),
    // 6: H >> a = b : A
    Conclude(Equality(TmEqAbsurd), [2, 3, 4, 5, 0, 0, 0, 0, 0, 0], [0, 1, 0, 0, 0, 0, 0]),
};

/// The rows of what it gives: equal.
pub static ABSURD_TERMS_GIVES: &[u16] = &[6];
