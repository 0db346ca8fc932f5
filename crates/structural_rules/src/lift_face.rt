//! Written by tools/write_recipes.py.

use recipes::Row::{Conclude, Instance, Part, Premise, WithFace};
use recipes::{Row, table};
use theory::ContextRule::{SubFace, SubWkFace};
use theory::RuleName::Contexts;

/// A substitution under a face.
/// Its parts are H d G p.
pub static LIFT_FACE: &[Row] = table! {
    // 0: d : H to G
    Premise(0),
    Part(0),
    Part(1),
    Part(2),
    Part(3),
    Instance(4, 2),
    // 6: d : H.{p[d]} to G
    Conclude(Contexts(SubWkFace), [1, 2, 3, 5, 0, 0, 0, 0, 0, 0], [0, 0, 0, 0, 0, 0, 0]),
    WithFace(1, 5),
    // 8: d : H.{p[d]} to G.{p}
    Conclude(Contexts(SubFace), [7, 2, 3, 4, 0, 0, 0, 0, 0, 0], [6, 0, 0, 0, 0, 0, 0]),
};

/// The rows of what it gives: lifted.
pub static LIFT_FACE_GIVES: &[u16] = &[8];
