//! Written by tools/write_recipes.py.

use recipes::Row::{Conclude, Field, Premise, WithVar};
use recipes::{Row, table};
use theory::ContextRule::{CtxVar, SubId};
use theory::RuleName::Contexts;

/// A context with a variable of a type.
/// Its parts are G A.
pub static ENTERED_HOME: &[Row] = table! {
    // 0: G >> A
    Premise(0),
    Field(0, 0),
    Field(0, 1),
    // 3: ctx G.A
    Conclude(Contexts(CtxVar), [1, 2, 0, 0, 0, 0, 0, 0, 0, 0], [0, 0, 0, 0, 0, 0, 0]),
    WithVar(1, 2),
    // 5: id : G.A to G.A
    Conclude(Contexts(SubId), [4, 0, 0, 0, 0, 0, 0, 0, 0, 0], [3, 0, 0, 0, 0, 0, 0]),
};

/// The rows of what it gives: within, lifted.
pub static ENTERED_HOME_GIVES: &[u16] = &[3, 5];
