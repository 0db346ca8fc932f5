//! Written by tools/write_recipes.py.

use recipes::Row::{Conclude, Field, Premise};
use recipes::{Row, table};
use theory::RuleName::Universe;
use theory::UniverseRule::TyU;

/// What is in the universe is a type.
/// Its parts are H A.
pub static SMALL_TYPE: &[Row] = table! {
    // 0: H >> A : U
    Premise(0),
    Field(0, 0),
    Field(0, 1),
    // 3: H >> A
    Conclude(Universe(TyU), [1, 2, 0, 0, 0, 0, 0, 0, 0, 0], [0, 0, 0, 0, 0, 0, 0]),
};

/// The rows of what it gives: type.
pub static SMALL_TYPE_GIVES: &[u16] = &[3];
