//! Written by tools/write_recipes.py.

use recipes::Row::{Conclude, Field, Premise};
use recipes::{Row, table};
use theory::RuleName::Universe;
use theory::UniverseRule::TyUniv;

/// The universe is a type.
/// Its parts are H.
pub static UNIVERSE_TYPE: &[Row] = table! {
    // 0: ctx H
    Premise(0),
    Field(0, 0),
    // 2: H >> U
    Conclude(Universe(TyUniv), [1, 0, 0, 0, 0, 0, 0, 0, 0, 0], [0, 0, 0, 0, 0, 0, 0]),
};

/// The rows of what it gives: type.
pub static UNIVERSE_TYPE_GIVES: &[u16] = &[2];
