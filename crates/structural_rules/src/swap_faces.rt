//! Written by tools/write_recipes.py.

use recipes::Row::{Conclude, Part, Premise, Shift, WithFace};
use recipes::{Row, table};
use theory::ContextRule::{SubFace, SubId, SubWkFace};
use theory::RuleName::Contexts;

/// Two faces change places.
/// Its parts are G p q.
pub static SWAP_FACES: &[Row] = table! {
    // 0: ctx G
    Premise(0),
    Part(0),
    // 2: id : G to G
    Conclude(Contexts(SubId), [1, 0, 0, 0, 0, 0, 0, 0, 0, 0], [0, 0, 0, 0, 0, 0, 0]),
    Shift(0),
    Part(1),
    // 5: id : G.{p} to G
    Conclude(Contexts(SubWkFace), [1, 3, 1, 4, 0, 0, 0, 0, 0, 0], [2, 0, 0, 0, 0, 0, 0]),
    WithFace(1, 4),
    Part(2),
    // 8: id : G.{p}.{q} to G
    Conclude(Contexts(SubWkFace), [6, 3, 1, 7, 0, 0, 0, 0, 0, 0], [5, 0, 0, 0, 0, 0, 0]),
    WithFace(6, 7),
    // 10: id : G.{p}.{q} to G.{q}
    Conclude(Contexts(SubFace), [9, 3, 1, 7, 0, 0, 0, 0, 0, 0], [8, 0, 0, 0, 0, 0, 0]),
    WithFace(1, 7),
    // 12: id : G.{p}.{q} to G.{q}.{p}
    Conclude(Contexts(SubFace), [9, 3, 11, 4, 0, 0, 0, 0, 0, 0], [10, 0, 0, 0, 0, 0, 0]),
};

/// The rows of what it gives: to.
pub static SWAP_FACES_GIVES: &[u16] = &[12];
