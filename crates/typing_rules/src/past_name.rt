//! Written by tools/write_recipes.py.

use recipes::Row::{Conclude, Field, Premise};
use recipes::{Row, table};
use theory::ContextRule::SubWkName;
use theory::RuleName::Contexts;

/// A substitution from past one more name.
/// Its parts are H d G.
pub static PAST_NAME: &[Row] = table! {
    // 0: d : H to G
    Premise(0),
    Field(0, 0),
    Field(0, 1),
    Field(0, 2),
    // 4: d then up : H.I to G
    Conclude(Contexts(SubWkName), [1, 2, 3, 0, 0, 0, 0, 0, 0, 0], [0, 0, 0, 0, 0, 0, 0]),
};

/// The rows of what it gives: weakened.
pub static PAST_NAME_GIVES: &[u16] = &[4];
