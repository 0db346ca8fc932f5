//! Written by tools/write_recipes.py.

use recipes::Row::{Conclude, Field, Premise};
use recipes::{Row, table};
use theory::ContextRule::SubComp;
use theory::RuleName::Contexts;

/// One substitution after another.
/// Its parts are K e H d G.
pub static COMPOSED: &[Row] = table! {
    // 0: e : K to H
    Premise(0),
    // 1: d : H to G
    Premise(1),
    Field(0, 0),
    Field(0, 1),
    Field(0, 2),
    Field(1, 1),
    Field(1, 2),
    // 7: d then e : K to G
    Conclude(Contexts(SubComp), [2, 3, 4, 5, 6, 0, 0, 0, 0, 0], [0, 1, 0, 0, 0, 0, 0]),
};

/// The rows of what it gives: composed.
pub static COMPOSED_GIVES: &[u16] = &[7];
