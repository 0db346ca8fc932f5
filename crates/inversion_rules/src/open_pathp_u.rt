//! Written by tools/write_recipes.py.

use recipes::Row::{Conclude, Field, Premise, WithName};
use recipes::{Row, table};
use theory::RuleName::Universe;
use theory::UniverseRule::TyU;

/// The parts of a type of paths that is in the universe, as types.
/// Its parts are G A u v.
pub static OPEN_PATHP_U: &[Row] = table! {
    // 0: G.I >> A : U
    Premise(0),
    // 1: G >> u : A{0}
    Premise(1),
    // 2: G >> v : A{1}
    Premise(2),
    Field(1, 0),
    WithName(3),
    Field(0, 1),
    // 6: G.I >> A
    Conclude(Universe(TyU), [4, 5, 0, 0, 0, 0, 0, 0, 0, 0], [0, 0, 0, 0, 0, 0, 0]),
};

/// The rows of what it gives: line, left_end, right_end.
pub static OPEN_PATHP_U_GIVES: &[u16] = &[6, 1, 2];
