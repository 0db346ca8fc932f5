//! Written by tools/write_recipes.py.

use recipes::Row::{Conclude, Field, Premise};
use recipes::{Row, table};
use theory::EqualityRule::{TmConv, TyEqSym};
use theory::RuleName::Equality;

/// A term at another type, which equals its own.
/// Its parts are H t A C.
pub static TERM_AT_LEFT: &[Row] = table! {
    // 0: H >> t : A
    Premise(0),
    // 1: H >> C = A
    Premise(1),
    Field(0, 0),
    Field(1, 1),
    Field(0, 2),
    // 5: H >> A = C
    Conclude(Equality(TyEqSym), [2, 3, 4, 0, 0, 0, 0, 0, 0, 0], [1, 0, 0, 0, 0, 0, 0]),
    Field(0, 1),
    // 7: H >> t : C
    Conclude(Equality(TmConv), [2, 6, 4, 3, 0, 0, 0, 0, 0, 0], [0, 5, 0, 0, 0, 0, 0]),
};

/// The rows of what it gives: term.
pub static TERM_AT_LEFT_GIVES: &[u16] = &[7];
