//! Written by tools/write_recipes.py.

use recipes::Row::{Conclude, Field, Premise};
use recipes::{Row, table};
use theory::PiRule::PiTy;
use theory::RuleName::Pi;

/// A type of functions.
/// Its parts are H A B.
pub static PI_TYPE: &[Row] = table! {
    // 0: H >> A
    Premise(0),
    // 1: H.A >> B
    Premise(1),
    Field(0, 0),
    Field(0, 1),
    Field(1, 1),
    // 5: H >> pi A B
    Conclude(Pi(PiTy), [2, 3, 4, 0, 0, 0, 0, 0, 0, 0], [0, 1, 0, 0, 0, 0, 0]),
};

/// The rows of what it gives: type.
pub static PI_TYPE_GIVES: &[u16] = &[5];
