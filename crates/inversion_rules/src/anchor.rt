//! Written by tools/write_recipes.py.

use recipes::Row::{Conclude, Field, Premise};
use recipes::{Row, table};
use theory::EqualityRule::{TmConv, TyEqRefl};
use theory::RuleName::Equality;

/// A typing whose type is at hand.
/// Its parts are G a A.
pub static ANCHOR: &[Row] = table! {
    // 0: G >> a : A
    Premise(0),
    // 1: G >> A
    Premise(1),
    Field(0, 0),
    Field(0, 2),
    // 4: G >> A = A
    Conclude(Equality(TyEqRefl), [2, 3, 0, 0, 0, 0, 0, 0, 0, 0], [1, 0, 0, 0, 0, 0, 0]),
    Field(0, 1),
    // 6: G >> a : A
    Conclude(Equality(TmConv), [2, 5, 3, 3, 0, 0, 0, 0, 0, 0], [0, 4, 0, 0, 0, 0, 0]),
};

/// The rows of what it gives: typing.
pub static ANCHOR_GIVES: &[u16] = &[6];
