//! Written by tools/write_recipes.py.

use recipes::Row::{Conclude, Field, Premise};
use recipes::{Row, table};
use theory::ContextRule::CtxVar;
use theory::RuleName::Contexts;

/// A context with one more variable.
/// Its parts are H A.
pub static WITH_ENTRY: &[Row] = table! {
    // 0: H >> A
    Premise(0),
    Field(0, 0),
    Field(0, 1),
    // 3: ctx H.A
    Conclude(Contexts(CtxVar), [1, 2, 0, 0, 0, 0, 0, 0, 0, 0], [0, 0, 0, 0, 0, 0, 0]),
};

/// The rows of what it gives: context.
pub static WITH_ENTRY_GIVES: &[u16] = &[3];
