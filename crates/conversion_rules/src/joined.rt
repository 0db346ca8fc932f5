//! Written by tools/write_recipes.py.

use recipes::Row::{Conclude, Field, Premise};
use recipes::{Row, table};
use theory::EqualityRule::{TmEqSym, TmEqTrans};
use theory::RuleName::Equality;

/// What equals equal terms is equal.
/// Its parts are H l u r v A.
pub static JOINED: &[Row] = table! {
    // 0: H >> l = u : A
    Premise(0),
    // 1: H >> u = v : A
    Premise(1),
    // 2: H >> r = v : A
    Premise(2),
    Field(0, 0),
    Field(2, 1),
    Field(1, 2),
    Field(0, 3),
    // 7: H >> v = r : A
    Conclude(Equality(TmEqSym), [3, 4, 5, 6, 0, 0, 0, 0, 0, 0], [2, 0, 0, 0, 0, 0, 0]),
    Field(0, 2),
    // 9: H >> u = r : A
    Conclude(Equality(TmEqTrans), [3, 8, 5, 4, 6, 0, 0, 0, 0, 0], [1, 7, 0, 0, 0, 0, 0]),
    Field(0, 1),
    // 11: H >> l = r : A
    Conclude(Equality(TmEqTrans), [3, 10, 8, 4, 6, 0, 0, 0, 0, 0], [0, 9, 0, 0, 0, 0, 0]),
};

/// The rows of what it gives: equal.
pub static JOINED_GIVES: &[u16] = &[11];
