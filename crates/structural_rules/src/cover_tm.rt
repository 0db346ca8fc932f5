//! Written by tools/write_recipes.py.

use recipes::Row::{Conclude, Make, Part, Premise, Shift, WithFace};
use recipes::{Row, table};
use theory::ContextRule::{SubFace, SubId, SubWkFace};
use theory::EqualityRule::TmEqCover;
use theory::InstanceRule::TmEqSub;
use theory::Op;
use theory::RuleName::{Contexts, Equality, Instances};

/// Terms that are equal on two faces are equal on their join.
/// Its parts are G p q a b A.
pub static COVER_TM: &[Row] = table! {
    // 0: ctx G
    Premise(0),
    // 1: G.{join p q} >> a : A
    Premise(1),
    // 2: G.{join p q} >> b : A
    Premise(2),
    // 3: G.{p} >> a = b : A
    Premise(3),
    // 4: G.{q} >> a = b : A
    Premise(4),
    Part(0),
    // 6: id : G to G
    Conclude(Contexts(SubId), [5, 0, 0, 0, 0, 0, 0, 0, 0, 0], [0, 0, 0, 0, 0, 0, 0]),
    Shift(0),
    Part(1),
    Part(2),
    Make(Op::Join, [8, 9, 0, 0]),
    // 11: id : G.{join p q} to G
    Conclude(Contexts(SubWkFace), [5, 7, 5, 10, 0, 0, 0, 0, 0, 0], [6, 0, 0, 0, 0, 0, 0]),
    WithFace(5, 10),
    // 13: id : G.{join p q}.{p} to G
    Conclude(Contexts(SubWkFace), [12, 7, 5, 8, 0, 0, 0, 0, 0, 0], [11, 0, 0, 0, 0, 0, 0]),
    WithFace(12, 8),
    // 15: id : G.{join p q}.{p} to G.{p}
    Conclude(Contexts(SubFace), [14, 7, 5, 8, 0, 0, 0, 0, 0, 0], [13, 0, 0, 0, 0, 0, 0]),
    WithFace(5, 8),
    Part(3),
    Part(4),
    Part(5),
    // 20: G.{join p q}.{p} >> a = b : A
    Conclude(Instances(TmEqSub), [14, 7, 16, 17, 18, 19, 0, 0, 0, 0], [15, 3, 0, 0, 0, 0, 0]),
    // 21: id : G.{join p q}.{q} to G
    Conclude(Contexts(SubWkFace), [12, 7, 5, 9, 0, 0, 0, 0, 0, 0], [11, 0, 0, 0, 0, 0, 0]),
    WithFace(12, 9),
    // 23: id : G.{join p q}.{q} to G.{q}
    Conclude(Contexts(SubFace), [22, 7, 5, 9, 0, 0, 0, 0, 0, 0], [21, 0, 0, 0, 0, 0, 0]),
    WithFace(5, 9),
    // 25: G.{join p q}.{q} >> a = b : A
    Conclude(Instances(TmEqSub), [22, 7, 24, 17, 18, 19, 0, 0, 0, 0], [23, 4, 0, 0, 0, 0, 0]),
    // 26: G.{join p q} >> a = b : A
    Conclude(Equality(TmEqCover), [12, 8, 9, 17, 18, 19, 0, 0, 0, 0], [1, 2, 20, 25, 0, 0, 0]),
};

/// The rows of what it gives: equal.
pub static COVER_TM_GIVES: &[u16] = &[26];
