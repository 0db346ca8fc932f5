//! Written by tools/write_recipes.py.

use recipes::Row::{Conclude, Part, Premise};
use recipes::{Row, table};
use theory::ContextRule::SubComp;
use theory::RuleName::Contexts;

/// A substitution is done twice.
/// Its parts are G d.
pub static TWICE: &[Row] = table! {
    // 0: d : G to G
    Premise(0),
    Part(0),
    Part(1),
    // 3: d then d : G to G
    Conclude(Contexts(SubComp), [1, 2, 1, 2, 1, 0, 0, 0, 0, 0], [0, 0, 0, 0, 0, 0, 0]),
};

/// The rows of what it gives: substitution.
pub static TWICE_GIVES: &[u16] = &[3];
