//! Written by tools/write_recipes.py.

use recipes::Row::{Conclude, Field, Premise};
use recipes::{Row, table};
use theory::EqualityRule::{TmEqConv, TyEqSym};
use theory::RuleName::Equality;

/// An equation at the type of its right side, which equals the one that it stands at.
/// Its parts are H t u B A.
pub static EQUAL_AT_OWN: &[Row] = table! {
    // 0: H >> t = u : A
    Premise(0),
    // 1: H >> B = A
    Premise(1),
    Field(0, 0),
    Field(1, 1),
    Field(0, 3),
    // 5: H >> A = B
    Conclude(Equality(TyEqSym), [2, 3, 4, 0, 0, 0, 0, 0, 0, 0], [1, 0, 0, 0, 0, 0, 0]),
    Field(0, 1),
    Field(0, 2),
    // 8: H >> t = u : B
    Conclude(Equality(TmEqConv), [2, 6, 7, 4, 3, 0, 0, 0, 0, 0], [0, 5, 0, 0, 0, 0, 0]),
};

/// The rows of what it gives: equal.
pub static EQUAL_AT_OWN_GIVES: &[u16] = &[8];
