//! Written by tools/write_recipes.py.

use recipes::Row::{Conclude, Field, Part, Premise, WithFace};
use recipes::{Row, table};
use theory::RuleName::Universe;
use theory::UniverseRule::TyU;

/// The parts of a glued type that is in the universe, as types.
/// Its parts are G A p T w.
pub static OPEN_GLUE_TYPE_U: &[Row] = table! {
    // 0: G >> A : U
    Premise(0),
    // 1: G.{p} >> T : U
    Premise(1),
    // 2: G.{p} >> w : equiv T A
    Premise(2),
    Field(0, 0),
    Field(0, 1),
    // 5: G >> A
    Conclude(Universe(TyU), [3, 4, 0, 0, 0, 0, 0, 0, 0, 0], [0, 0, 0, 0, 0, 0, 0]),
    Part(2),
    WithFace(3, 6),
    Field(1, 1),
    // 9: G.{p} >> T
    Conclude(Universe(TyU), [7, 8, 0, 0, 0, 0, 0, 0, 0, 0], [1, 0, 0, 0, 0, 0, 0]),
};

/// The rows of what it gives: base, side, equiv.
pub static OPEN_GLUE_TYPE_U_GIVES: &[u16] = &[5, 9, 2];
