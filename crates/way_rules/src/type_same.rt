//! Written by tools/write_recipes.py.

use recipes::Row::{Conclude, Field, Premise};
use recipes::{Row, table};
use theory::EqualityRule::TyEqRefl;
use theory::RuleName::Equality;

/// A type equals itself.
/// Its parts are H A.
pub static TYPE_SAME: &[Row] = table! {
    // 0: H >> A
    Premise(0),
    Field(0, 0),
    Field(0, 1),
    // 3: H >> A = A
    Conclude(Equality(TyEqRefl), [1, 2, 0, 0, 0, 0, 0, 0, 0, 0], [0, 0, 0, 0, 0, 0, 0]),
};

/// The rows of what it gives: equal.
pub static TYPE_SAME_GIVES: &[u16] = &[3];
