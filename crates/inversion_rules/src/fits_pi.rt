//! Written by tools/write_recipes.py.

use recipes::Row::{Conclude, Field, Premise};
use recipes::{Row, table};
use theory::PiRule::PiTy;
use theory::RuleName::Pi;

/// A type of functions that equals a type, from its parts.
/// Its parts are G A B T.
pub static FITS_PI: &[Row] = table! {
    // 0: G >> pi A B = T
    Premise(0),
    // 1: G >> A
    Premise(1),
    // 2: G.A >> B
    Premise(2),
    Field(0, 0),
    Field(1, 1),
    Field(2, 1),
    // 6: G >> pi A B
    Conclude(Pi(PiTy), [3, 4, 5, 0, 0, 0, 0, 0, 0, 0], [1, 2, 0, 0, 0, 0, 0]),
};

/// The rows of what it gives: type.
pub static FITS_PI_GIVES: &[u16] = &[6];
