//! Written by tools/write_recipes.py.

use recipes::Row::{Conclude, Field, Premise};
use recipes::{Row, table};
use theory::EqualityRule::TmConv;
use theory::RuleName::Equality;

/// A term at another type that its own equals.
/// Its parts are H t B A.
pub static TERM_FITTED: &[Row] = table! {
    // 0: H >> t : B
    Premise(0),
    // 1: H >> B = A
    Premise(1),
    Field(0, 0),
    Field(0, 1),
    Field(0, 2),
    Field(1, 2),
    // 6: H >> t : A
    Conclude(Equality(TmConv), [2, 3, 4, 5, 0, 0, 0, 0, 0, 0], [0, 1, 0, 0, 0, 0, 0]),
};

/// The rows of what it gives: term.
pub static TERM_FITTED_GIVES: &[u16] = &[6];
