//! Written by tools/write_recipes.py.

use recipes::Row::{Conclude, Field, Premise};
use recipes::{Row, table};
use theory::EqualityRule::{TmEqConv, TmEqTrans};
use theory::RuleName::Equality;

/// One equation after another, whose type equals that of the first.
/// Its parts are H t u v A B.
pub static EQUAL_AFTER_FITS: &[Row] = table! {
    // 0: H >> t = u : A
    Premise(0),
    // 1: H >> u = v : B
    Premise(1),
    // 2: H >> B = A
    Premise(2),
    Field(0, 0),
    Field(0, 2),
    Field(1, 2),
    Field(1, 3),
    Field(0, 3),
    // 8: H >> u = v : A
    Conclude(Equality(TmEqConv), [3, 4, 5, 6, 7, 0, 0, 0, 0, 0], [1, 2, 0, 0, 0, 0, 0]),
    Field(0, 1),
    // 10: H >> t = v : A
    Conclude(Equality(TmEqTrans), [3, 9, 4, 5, 7, 0, 0, 0, 0, 0], [0, 8, 0, 0, 0, 0, 0]),
};

/// The rows of what it gives: equal.
pub static EQUAL_AFTER_FITS_GIVES: &[u16] = &[10];
