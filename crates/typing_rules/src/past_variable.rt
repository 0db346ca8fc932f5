//! Written by tools/write_recipes.py.

use recipes::Row::{Conclude, Field, Premise};
use recipes::{Row, table};
use theory::ContextRule::SubWk;
use theory::RuleName::Contexts;

/// A substitution from past one more variable.
/// Its parts are H d G A.
pub static PAST_VARIABLE: &[Row] = table! {
    // 0: d : H to G
    Premise(0),
    // 1: H >> A
    Premise(1),
    Field(0, 0),
    Field(0, 1),
    Field(0, 2),
    Field(1, 1),
    // 6: d then up : H.A to G
    Conclude(Contexts(SubWk), [2, 3, 4, 5, 0, 0, 0, 0, 0, 0], [0, 1, 0, 0, 0, 0, 0]),
};

/// The rows of what it gives: weakened.
pub static PAST_VARIABLE_GIVES: &[u16] = &[6];
