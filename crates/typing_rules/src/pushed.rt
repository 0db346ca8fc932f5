//! Written by tools/write_recipes.py.

use recipes::Row::{Conclude, Field, Premise};
use recipes::{Row, table};
use theory::ContextRule::SubVar;
use theory::RuleName::Contexts;

/// A substitution with one more term.
/// Its parts are H d G A a.
pub static PUSHED: &[Row] = table! {
    // 0: d : H to G
    Premise(0),
    // 1: G >> A
    Premise(1),
    // 2: H >> a : A[d]
    Premise(2),
    Field(0, 0),
    Field(0, 1),
    Field(0, 2),
    Field(1, 1),
    Field(2, 1),
    // 8: push d a : H to G.A
    Conclude(Contexts(SubVar), [3, 4, 5, 6, 7, 0, 0, 0, 0, 0], [0, 1, 2, 0, 0, 0, 0]),
};

/// The rows of what it gives: pushed.
pub static PUSHED_GIVES: &[u16] = &[8];
