//! Written by tools/write_recipes.py.

use recipes::Row::{Conclude, Make, Part, Premise, Shift, WithFace};
use recipes::{Row, table};
use theory::ContextRule::{SubFace, SubId, SubWkFace};
use theory::Op;
use theory::RuleName::Contexts;

/// Two faces are one, their meet, both ways.
/// Its parts are G p q.
pub static MERGE_FACES: &[Row] = table! {
    // 0: ctx G
    Premise(0),
    Part(0),
    // 2: id : G to G
    Conclude(Contexts(SubId), [1, 0, 0, 0, 0, 0, 0, 0, 0, 0], [0, 0, 0, 0, 0, 0, 0]),
    Shift(0),
    Part(1),
    // 5: id : G.{p} to G
    Conclude(Contexts(SubWkFace), [1, 3, 1, 4, 0, 0, 0, 0, 0, 0], [2, 0, 0, 0, 0, 0, 0]),
    WithFace(1, 4),
    Part(2),
    // 8: id : G.{p}.{q} to G
    Conclude(Contexts(SubWkFace), [6, 3, 1, 7, 0, 0, 0, 0, 0, 0], [5, 0, 0, 0, 0, 0, 0]),
    WithFace(6, 7),
    Make(Op::Meet, [4, 7, 0, 0]),
    // 11: id : G.{p}.{q} to G.{meet p q}
    Conclude(Contexts(SubFace), [9, 3, 1, 10, 0, 0, 0, 0, 0, 0], [8, 0, 0, 0, 0, 0, 0]),
    // 12: id : G.{meet p q} to G
    Conclude(Contexts(SubWkFace), [1, 3, 1, 10, 0, 0, 0, 0, 0, 0], [2, 0, 0, 0, 0, 0, 0]),
    WithFace(1, 10),
    // 14: id : G.{meet p q} to G.{p}
    Conclude(Contexts(SubFace), [13, 3, 1, 4, 0, 0, 0, 0, 0, 0], [12, 0, 0, 0, 0, 0, 0]),
    // 15: id : G.{meet p q} to G.{p}.{q}
    Conclude(Contexts(SubFace), [13, 3, 6, 7, 0, 0, 0, 0, 0, 0], [14, 0, 0, 0, 0, 0, 0]),
};

/// The rows of what it gives: to, from.
pub static MERGE_FACES_GIVES: &[u16] = &[11, 15];
