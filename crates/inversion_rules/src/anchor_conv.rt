//! Written by tools/write_recipes.py.

use recipes::Row::{Conclude, Field, Premise};
use recipes::{Row, table};
use theory::EqualityRule::{TmConv, TyEqRefl, TyEqTrans};
use theory::RuleName::Equality;

/// A typing that is converted to a type that is at hand.
/// Its parts are G a A B.
pub static ANCHOR_CONV: &[Row] = table! {
    // 0: G >> a : A
    Premise(0),
    // 1: G >> A = B
    Premise(1),
    // 2: G >> B
    Premise(2),
    Field(0, 0),
    Field(1, 2),
    // 5: G >> B = B
    Conclude(Equality(TyEqRefl), [3, 4, 0, 0, 0, 0, 0, 0, 0, 0], [2, 0, 0, 0, 0, 0, 0]),
    Field(0, 2),
    // 7: G >> A = B
    Conclude(Equality(TyEqTrans), [3, 6, 4, 4, 0, 0, 0, 0, 0, 0], [1, 5, 0, 0, 0, 0, 0]),
    Field(0, 1),
    // 9: G >> a : B
    Conclude(Equality(TmConv), [3, 8, 6, 4, 0, 0, 0, 0, 0, 0], [0, 7, 0, 0, 0, 0, 0]),
};

/// The rows of what it gives: typing.
pub static ANCHOR_CONV_GIVES: &[u16] = &[9];
