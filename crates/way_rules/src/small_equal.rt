//! Written by tools/write_recipes.py.

use recipes::Row::{Conclude, Field, Premise};
use recipes::{Row, table};
use theory::RuleName::Universe;
use theory::UniverseRule::TyEqU;

/// Types of the universe that are equal there.
/// Its parts are H T N.
pub static SMALL_EQUAL: &[Row] = table! {
    // 0: H >> T = N : U
    Premise(0),
    Field(0, 0),
    Field(0, 1),
    Field(0, 2),
    // 4: H >> T = N
    Conclude(Universe(TyEqU), [1, 2, 3, 0, 0, 0, 0, 0, 0, 0], [0, 0, 0, 0, 0, 0, 0]),
};

/// The rows of what it gives: equal.
pub static SMALL_EQUAL_GIVES: &[u16] = &[4];
