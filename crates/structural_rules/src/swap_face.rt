//! Written by tools/write_recipes.py.

use recipes::Row::{Conclude, Instance, Part, Premise, Push, Shift, Var, WithFace, WithName};
use recipes::{Row, table};
use theory::ContextRule::{SubFace, SubForm, SubId, SubWkFace, SubWkName};
use theory::RuleName::Contexts;

/// A face and a name change places, both ways.
/// Its parts are G p.
pub static SWAP_FACE: &[Row] = table! {
    // 0: ctx G
    Premise(0),
    Part(0),
    // 2: id : G to G
    Conclude(Contexts(SubId), [1, 0, 0, 0, 0, 0, 0, 0, 0, 0], [0, 0, 0, 0, 0, 0, 0]),
    Shift(0),
    Part(1),
    // 5: id : G.{p} to G
    Conclude(Contexts(SubWkFace), [1, 3, 1, 4, 0, 0, 0, 0, 0, 0], [2, 0, 0, 0, 0, 0, 0]),
    WithFace(1, 4),
    // 7: up : G.{p}.I to G
    Conclude(Contexts(SubWkName), [6, 3, 1, 0, 0, 0, 0, 0, 0, 0], [5, 0, 0, 0, 0, 0, 0]),
    WithName(6),
    Shift(1),
    Var(0),
    // 11: push up (var 0) : G.{p}.I to G.I
    Conclude(Contexts(SubForm), [8, 9, 1, 10, 0, 0, 0, 0, 0, 0], [7, 0, 0, 0, 0, 0, 0]),
    Push(9, 10),
    WithName(1),
    Instance(4, 9),
    // 15: push up (var 0) : G.{p}.I to G.I.{p+}
    Conclude(Contexts(SubFace), [8, 12, 13, 14, 0, 0, 0, 0, 0, 0], [11, 0, 0, 0, 0, 0, 0]),
    // 16: up : G.I to G
    Conclude(Contexts(SubWkName), [1, 3, 1, 0, 0, 0, 0, 0, 0, 0], [2, 0, 0, 0, 0, 0, 0]),
    // 17: up : G.I.{p+} to G
    Conclude(Contexts(SubWkFace), [13, 9, 1, 14, 0, 0, 0, 0, 0, 0], [16, 0, 0, 0, 0, 0, 0]),
    WithFace(13, 14),
    // 19: up : G.I.{p+} to G.{p}
    Conclude(Contexts(SubFace), [18, 9, 1, 4, 0, 0, 0, 0, 0, 0], [17, 0, 0, 0, 0, 0, 0]),
    // 20: push up (var 0) : G.I.{p+} to G.{p}.I
    Conclude(Contexts(SubForm), [18, 9, 6, 10, 0, 0, 0, 0, 0, 0], [19, 0, 0, 0, 0, 0, 0]),
};

/// The rows of what it gives: to, from.
pub static SWAP_FACE_GIVES: &[u16] = &[15, 20];
