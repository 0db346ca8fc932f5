//! Written by tools/write_recipes.py.

use recipes::Row::{Conclude, Field, Premise};
use recipes::{Row, table};
use theory::PiRule::Lam;
use theory::RuleName::Pi;

/// A function of a variable.
/// Its parts are H A b B.
pub static FUNCTION: &[Row] = table! {
    // 0: H >> A
    Premise(0),
    // 1: H.A >> b : B
    Premise(1),
    Field(0, 0),
    Field(0, 1),
    Field(1, 1),
    Field(1, 2),
    // 6: H >> lam A b : pi A B
    Conclude(Pi(Lam), [2, 3, 4, 5, 0, 0, 0, 0, 0, 0], [0, 1, 0, 0, 0, 0, 0]),
};

/// The rows of what it gives: term.
pub static FUNCTION_GIVES: &[u16] = &[6];
