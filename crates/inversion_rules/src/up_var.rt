//! Written by tools/write_recipes.py.

use recipes::Row::{Conclude, Field, Premise, Shift};
use recipes::{Row, table};
use theory::ContextRule::{SubId, SubWk};
use theory::RuleName::Contexts;

/// The weakening by a variable.
/// Its parts are H A.
pub static UP_VAR: &[Row] = table! {
    // 0: ctx H
    Premise(0),
    // 1: H >> A
    Premise(1),
    Field(0, 0),
    // 3: id : H to H
    Conclude(Contexts(SubId), [2, 0, 0, 0, 0, 0, 0, 0, 0, 0], [0, 0, 0, 0, 0, 0, 0]),
    Shift(0),
    Field(1, 1),
    // 6: up : H.A to H
    Conclude(Contexts(SubWk), [2, 4, 2, 5, 0, 0, 0, 0, 0, 0], [3, 1, 0, 0, 0, 0, 0]),
};

/// The rows of what it gives: up.
pub static UP_VAR_GIVES: &[u16] = &[6];
