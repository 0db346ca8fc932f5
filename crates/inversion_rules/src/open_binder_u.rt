//! Written by tools/write_recipes.py.

use recipes::Row::{Conclude, Field, Premise, WithVar};
use recipes::{Row, table};
use theory::RuleName::Universe;
use theory::UniverseRule::TyU;

/// The parts of a type of functions or pairs that is in the universe, as types.
/// Its parts are G A B.
pub static OPEN_BINDER_U: &[Row] = table! {
    // 0: G >> A : U
    Premise(0),
    // 1: G.A >> B : U
    Premise(1),
    Field(0, 0),
    Field(0, 1),
    // 4: G >> A
    Conclude(Universe(TyU), [2, 3, 0, 0, 0, 0, 0, 0, 0, 0], [0, 0, 0, 0, 0, 0, 0]),
    WithVar(2, 3),
    Field(1, 1),
    // 7: G.A >> B
    Conclude(Universe(TyU), [5, 6, 0, 0, 0, 0, 0, 0, 0, 0], [1, 0, 0, 0, 0, 0, 0]),
};

/// The rows of what it gives: domain, codomain.
pub static OPEN_BINDER_U_GIVES: &[u16] = &[4, 7];
