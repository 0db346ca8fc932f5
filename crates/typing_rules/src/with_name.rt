//! Written by tools/write_recipes.py.

use recipes::Row::{Conclude, Field, Premise};
use recipes::{Row, table};
use theory::ContextRule::CtxName;
use theory::RuleName::Contexts;

/// A context with one more name.
/// Its parts are H.
pub static WITH_NAME: &[Row] = table! {
    // 0: ctx H
    Premise(0),
    Field(0, 0),
    // 2: ctx H.I
    Conclude(Contexts(CtxName), [1, 0, 0, 0, 0, 0, 0, 0, 0, 0], [0, 0, 0, 0, 0, 0, 0]),
};

/// The rows of what it gives: context.
pub static WITH_NAME_GIVES: &[u16] = &[2];
