//! Written by tools/write_recipes.py.

use recipes::Row::{Conclude, Field, Part, Premise};
use recipes::{Row, table};
use theory::ContextRule::CtxFace;
use theory::RuleName::Contexts;

/// A context with one more face.
/// Its parts are p H.
pub static WITH_FACE: &[Row] = table! {
    // 0: ctx H
    Premise(0),
    Field(0, 0),
    Part(0),
    // 3: ctx H.{p}
    Conclude(Contexts(CtxFace), [1, 2, 0, 0, 0, 0, 0, 0, 0, 0], [0, 0, 0, 0, 0, 0, 0]),
};

/// The rows of what it gives: context.
pub static WITH_FACE_GIVES: &[u16] = &[3];
