//! Written by tools/write_recipes.py.

use recipes::Row::{Conclude, Field, Part, Premise};
use recipes::{Row, table};
use theory::ContextRule::SubWkFace;
use theory::RuleName::Contexts;

/// A substitution from past one more face.
/// Its parts are p H d G.
pub static PAST_FACE: &[Row] = table! {
    // 0: d : H to G
    Premise(0),
    Field(0, 0),
    Field(0, 1),
    Field(0, 2),
    Part(0),
    // 5: d : H.{p} to G
    Conclude(Contexts(SubWkFace), [1, 2, 3, 4, 0, 0, 0, 0, 0, 0], [0, 0, 0, 0, 0, 0, 0]),
};

/// The rows of what it gives: past.
pub static PAST_FACE_GIVES: &[u16] = &[5];
