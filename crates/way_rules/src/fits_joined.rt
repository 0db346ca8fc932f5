//! Written by tools/write_recipes.py.

use recipes::Row::{Conclude, Field, Premise};
use recipes::{Row, table};
use theory::EqualityRule::TyEqTrans;
use theory::RuleName::Equality;

/// One equation of types after another.
/// Its parts are H C B A.
pub static FITS_JOINED: &[Row] = table! {
    // 0: H >> C = B
    Premise(0),
    // 1: H >> B = A
    Premise(1),
    Field(0, 0),
    Field(0, 1),
    Field(0, 2),
    Field(1, 2),
    // 6: H >> C = A
    Conclude(Equality(TyEqTrans), [2, 3, 4, 5, 0, 0, 0, 0, 0, 0], [0, 1, 0, 0, 0, 0, 0]),
};

/// The rows of what it gives: fits.
pub static FITS_JOINED_GIVES: &[u16] = &[6];
