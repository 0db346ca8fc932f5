//! Written by tools/write_recipes.py.

use recipes::Row::{Conclude, Field, Premise};
use recipes::{Row, table};
use theory::EqualityRule::{TmEqConv, TmEqSym, TmEqTrans};
use theory::RuleName::Equality;

/// What equals terms that are equal at another type is equal.
/// Its parts are H l u r v A C.
pub static JOINED_FITS: &[Row] = table! {
    // 0: H >> l = u : A
    Premise(0),
    // 1: H >> u = v : C
    Premise(1),
    // 2: H >> r = v : A
    Premise(2),
    // 3: H >> C = A
    Premise(3),
    Field(0, 0),
    Field(0, 2),
    Field(1, 2),
    Field(1, 3),
    Field(0, 3),
    // 9: H >> u = v : A
    Conclude(Equality(TmEqConv), [4, 5, 6, 7, 8, 0, 0, 0, 0, 0], [1, 3, 0, 0, 0, 0, 0]),
    Field(2, 1),
    // 11: H >> v = r : A
    Conclude(Equality(TmEqSym), [4, 10, 6, 8, 0, 0, 0, 0, 0, 0], [2, 0, 0, 0, 0, 0, 0]),
    // 12: H >> u = r : A
    Conclude(Equality(TmEqTrans), [4, 5, 6, 10, 8, 0, 0, 0, 0, 0], [9, 11, 0, 0, 0, 0, 0]),
    Field(0, 1),
    // 14: H >> l = r : A
    Conclude(Equality(TmEqTrans), [4, 13, 5, 10, 8, 0, 0, 0, 0, 0], [0, 12, 0, 0, 0, 0, 0]),
};

/// The rows of what it gives: equal.
pub static JOINED_FITS_GIVES: &[u16] = &[14];
