//! Written by tools/write_recipes.py.

use recipes::Row::{Conclude, Field, Premise};
use recipes::{Row, table};
use theory::PiRule::PiTyCong;
use theory::RuleName::Pi;

/// Types of functions of equal parts.
/// Its parts are H A C B D.
pub static PI_EQUAL: &[Row] = table! {
    // 0: H >> A = C
    Premise(0),
    // 1: H.A >> B = D
    Premise(1),
    Field(0, 0),
    Field(0, 1),
    Field(0, 2),
    Field(1, 1),
    Field(1, 2),
    // 7: H >> pi A B = pi C D
    Conclude(Pi(PiTyCong), [2, 3, 4, 5, 6, 0, 0, 0, 0, 0], [0, 1, 0, 0, 0, 0, 0]),
};

/// The rows of what it gives: equal.
pub static PI_EQUAL_GIVES: &[u16] = &[7];
