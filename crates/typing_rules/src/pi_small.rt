//! Written by tools/write_recipes.py.

use recipes::Row::{Conclude, Field, Premise};
use recipes::{Row, table};
use theory::PiRule::PiU;
use theory::RuleName::Pi;

/// A type of functions in the universe.
/// Its parts are H A B.
pub static PI_SMALL: &[Row] = table! {
    // 0: H >> A : U
    Premise(0),
    // 1: H.A >> B : U
    Premise(1),
    Field(0, 0),
    Field(0, 1),
    Field(1, 1),
    // 5: H >> pi A B : U
    Conclude(Pi(PiU), [2, 3, 4, 0, 0, 0, 0, 0, 0, 0], [0, 1, 0, 0, 0, 0, 0]),
};

/// The rows of what it gives: term.
pub static PI_SMALL_GIVES: &[u16] = &[5];
