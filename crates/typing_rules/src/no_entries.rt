//! Written by tools/write_recipes.py.

use recipes::Row::Conclude;
use recipes::{Row, table};
use theory::ContextRule::CtxNil;
use theory::RuleName::Contexts;

/// The empty context.
pub static NO_ENTRIES: &[Row] = table! {
    // 0: ctx []
    Conclude(Contexts(CtxNil), [0, 0, 0, 0, 0, 0, 0, 0, 0, 0], [0, 0, 0, 0, 0, 0, 0]),
};

/// The rows of what it gives: context.
pub static NO_ENTRIES_GIVES: &[u16] = &[0];
