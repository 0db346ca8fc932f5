//! Written by tools/write_recipes.py.

use recipes::Row::{Conclude, Field, Premise};
use recipes::{Row, table};
use theory::ContextRule::SubId;
use theory::RuleName::Contexts;

/// The substitution that does nothing.
/// Its parts are H.
pub static NOTHING_DONE: &[Row] = table! {
    // 0: ctx H
    Premise(0),
    Field(0, 0),
    // 2: id : H to H
    Conclude(Contexts(SubId), [1, 0, 0, 0, 0, 0, 0, 0, 0, 0], [0, 0, 0, 0, 0, 0, 0]),
};

/// The rows of what it gives: here.
pub static NOTHING_DONE_GIVES: &[u16] = &[2];
