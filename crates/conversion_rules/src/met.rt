//! Written by tools/write_recipes.py.

use recipes::Row::{Conclude, Field, Premise};
use recipes::{Row, table};
use theory::EqualityRule::{TmEqSym, TmEqTrans};
use theory::RuleName::Equality;

/// What equals one term is equal.
/// Its parts are H l u r A.
pub static MET: &[Row] = table! {
    // 0: H >> l = u : A
    Premise(0),
    // 1: H >> r = u : A
    Premise(1),
    Field(0, 0),
    Field(1, 1),
    Field(0, 2),
    Field(0, 3),
    // 6: H >> u = r : A
    Conclude(Equality(TmEqSym), [2, 3, 4, 5, 0, 0, 0, 0, 0, 0], [1, 0, 0, 0, 0, 0, 0]),
    Field(0, 1),
    // 8: H >> l = r : A
    Conclude(Equality(TmEqTrans), [2, 7, 4, 3, 5, 0, 0, 0, 0, 0], [0, 6, 0, 0, 0, 0, 0]),
};

/// The rows of what it gives: equal.
pub static MET_GIVES: &[u16] = &[8];
