//! Written by tools/write_recipes.py.

use recipes::Row::{Conclude, Field, Premise, Shift, Then, Var, WithName};
use recipes::{Row, table};
use theory::ContextRule::{SubForm, SubWkName};
use theory::RuleName::Contexts;

/// A substitution under a name.
/// Its parts are H d G.
pub static UNDER_NAME: &[Row] = table! {
    // 0: d : H to G
    Premise(0),
    Field(0, 0),
    Field(0, 1),
    Field(0, 2),
    // 4: d then up : H.I to G
    Conclude(Contexts(SubWkName), [1, 2, 3, 0, 0, 0, 0, 0, 0, 0], [0, 0, 0, 0, 0, 0, 0]),
    WithName(1),
    Shift(1),
    Then(2, 6),
    Var(0),
    // 9: over : H.I to G.I
    Conclude(Contexts(SubForm), [5, 7, 3, 8, 0, 0, 0, 0, 0, 0], [4, 0, 0, 0, 0, 0, 0]),
};

/// The rows of what it gives: lifted.
pub static UNDER_NAME_GIVES: &[u16] = &[9];
