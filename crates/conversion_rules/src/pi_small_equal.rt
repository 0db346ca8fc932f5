//! Written by tools/write_recipes.py.

use recipes::Row::{Conclude, Field, Premise};
use recipes::{Row, table};
use theory::PiRule::PiUCong;
use theory::RuleName::Pi;

/// Types of functions in the universe of equal parts.
/// Its parts are H A C B D.
pub static PI_SMALL_EQUAL: &[Row] = table! {
    // 0: H >> A = C : U
    Premise(0),
    // 1: H.A >> B = D : U
    Premise(1),
    Field(0, 0),
    Field(0, 1),
    Field(0, 2),
    Field(1, 1),
    Field(1, 2),
    // 7: H >> pi A B = pi C D : U
    Conclude(Pi(PiUCong), [2, 3, 4, 5, 6, 0, 0, 0, 0, 0], [0, 1, 0, 0, 0, 0, 0]),
};

/// The rows of what it gives: equal.
pub static PI_SMALL_EQUAL_GIVES: &[u16] = &[7];
