//! Written by tools/write_recipes.py.

use recipes::Row::{Conclude, Field, Premise};
use recipes::{Row, table};
use theory::EqualityRule::TmEqConv;
use theory::RuleName::Equality;

/// An equation at another type that its own equals.
/// Its parts are H u v C A.
pub static EQUAL_FITTED: &[Row] = table! {
    // 0: H >> u = v : C
    Premise(0),
    // 1: H >> C = A
    Premise(1),
    Field(0, 0),
    Field(0, 1),
    Field(0, 2),
    Field(0, 3),
    Field(1, 2),
    // 7: H >> u = v : A
    Conclude(Equality(TmEqConv), [2, 3, 4, 5, 6, 0, 0, 0, 0, 0], [0, 1, 0, 0, 0, 0, 0]),
};

/// The rows of what it gives: equal.
pub static EQUAL_FITTED_GIVES: &[u16] = &[7];
