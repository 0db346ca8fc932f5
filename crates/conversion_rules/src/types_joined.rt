//! Written by tools/write_recipes.py.

use recipes::Row::{Conclude, Field, Premise};
use recipes::{Row, table};
use theory::EqualityRule::{TyEqSym, TyEqTrans};
use theory::RuleName::Equality;

/// What equals equal types is equal.
/// Its parts are H L S R T.
pub static TYPES_JOINED: &[Row] = table! {
    // 0: H >> L = S
    Premise(0),
    // 1: H >> S = T
    Premise(1),
    // 2: H >> R = T
    Premise(2),
    Field(0, 0),
    Field(2, 1),
    Field(1, 2),
    // 6: H >> T = R
    Conclude(Equality(TyEqSym), [3, 4, 5, 0, 0, 0, 0, 0, 0, 0], [2, 0, 0, 0, 0, 0, 0]),
    Field(0, 2),
    // 8: H >> S = R
    Conclude(Equality(TyEqTrans), [3, 7, 5, 4, 0, 0, 0, 0, 0, 0], [1, 6, 0, 0, 0, 0, 0]),
    Field(0, 1),
    // 10: H >> L = R
    Conclude(Equality(TyEqTrans), [3, 9, 7, 4, 0, 0, 0, 0, 0, 0], [0, 8, 0, 0, 0, 0, 0]),
};

/// The rows of what it gives: equal.
pub static TYPES_JOINED_GIVES: &[u16] = &[10];
