//! Written by tools/write_recipes.py.

use recipes::Row::{Conclude, Field, Premise};
use recipes::{Row, table};
use theory::EqualityRule::TyEqTrans;
use theory::RuleName::Equality;

/// Two equations of types, one after the other.
/// Its parts are G A B C.
pub static EQUATIONS_JOINED: &[Row] = table! {
    // 0: G >> A = B
    Premise(0),
    // 1: G >> B = C
    Premise(1),
    Field(0, 0),
    Field(0, 1),
    Field(0, 2),
    Field(1, 2),
    // 6: G >> A = C
    Conclude(Equality(TyEqTrans), [2, 3, 4, 5, 0, 0, 0, 0, 0, 0], [0, 1, 0, 0, 0, 0, 0]),
};

/// The rows of what it gives: equation.
pub static EQUATIONS_JOINED_GIVES: &[u16] = &[6];
