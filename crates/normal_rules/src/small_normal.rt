//! Written by tools/write_recipes.py.

use recipes::Row::{Conclude, Field, Premise};
use recipes::{Row, table};
use theory::RuleName::Universe;
use theory::UniverseRule::{TyEqU, TyU};

/// A type of the universe whose term is in normal form.
/// Its parts are H T N.
pub static SMALL_NORMAL: &[Row] = table! {
    // 0: H >> T = N : U
    Premise(0),
    // 1: H >> N : U
    Premise(1),
    Field(0, 0),
    Field(0, 1),
    Field(0, 2),
    // 5: H >> T = N
    Conclude(Universe(TyEqU), [2, 3, 4, 0, 0, 0, 0, 0, 0, 0], [0, 0, 0, 0, 0, 0, 0]),
    // 6: H >> N
    Conclude(Universe(TyU), [2, 4, 0, 0, 0, 0, 0, 0, 0, 0], [1, 0, 0, 0, 0, 0, 0]),
};

/// The rows of what it gives: equal, term.
pub static SMALL_NORMAL_GIVES: &[u16] = &[5, 6];
