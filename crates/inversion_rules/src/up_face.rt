//! Written by tools/write_recipes.py.

use recipes::Row::{Conclude, Field, Part, Premise, Shift};
use recipes::{Row, table};
use theory::ContextRule::{SubId, SubWkFace};
use theory::RuleName::Contexts;

/// The weakening by a face.
/// Its parts are H p.
pub static UP_FACE: &[Row] = table! {
    // 0: ctx H
    Premise(0),
    Field(0, 0),
    // 2: id : H to H
    Conclude(Contexts(SubId), [1, 0, 0, 0, 0, 0, 0, 0, 0, 0], [0, 0, 0, 0, 0, 0, 0]),
    Shift(0),
    Part(1),
    // 5: id : H.{p} to H
    Conclude(Contexts(SubWkFace), [1, 3, 1, 4, 0, 0, 0, 0, 0, 0], [2, 0, 0, 0, 0, 0, 0]),
};

/// The rows of what it gives: up.
pub static UP_FACE_GIVES: &[u16] = &[5];
