//! Written by tools/write_recipes.py.

use recipes::Row::{Conclude, Field, Premise, Shift};
use recipes::{Row, table};
use theory::ContextRule::{SubId, SubWkName};
use theory::RuleName::Contexts;

/// The weakening by a name.
/// Its parts are H.
pub static UP_NAME: &[Row] = table! {
    // 0: ctx H
    Premise(0),
    Field(0, 0),
    // 2: id : H to H
    Conclude(Contexts(SubId), [1, 0, 0, 0, 0, 0, 0, 0, 0, 0], [0, 0, 0, 0, 0, 0, 0]),
    Shift(0),
    // 4: up : H.I to H
    Conclude(Contexts(SubWkName), [1, 3, 1, 0, 0, 0, 0, 0, 0, 0], [2, 0, 0, 0, 0, 0, 0]),
};

/// The rows of what it gives: up.
pub static UP_NAME_GIVES: &[u16] = &[4];
