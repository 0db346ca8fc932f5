//! Written by tools/write_recipes.py.

use recipes::Row::{Conclude, Make, Part, Premise, Shift, WithFace};
use recipes::{Row, table};
use theory::ContextRule::{SubFace, SubId, SubWkFace};
use theory::EqualityRule::TyEqCover;
use theory::InstanceRule::TyEqSub;
use theory::Op;
use theory::RuleName::{Contexts, Equality, Instances};

/// Types that are equal on two faces are equal on their join.
/// Its parts are G p q a b.
pub static COVER_TY: &[Row] = table! {
    // 0: ctx G
    Premise(0),
    // 1: G.{join p q} >> a
    Premise(1),
    // 2: G.{join p q} >> b
    Premise(2),
    // 3: G.{p} >> a = b
    Premise(3),
    // 4: G.{q} >> a = b
    Premise(4),
    Part(0),
    // 6: id : G to G
    Conclude(Contexts(SubId), [5, 0, 0, 0, 0, 0, 0, 0, 0, 0], [0, 0, 0, 0, 0, 0, 0]),
    Shift(0),
    Part(1),
    Part(2),
    Make(Op::Join, [8, 9, 0, 0]),
    // 11: id : G.{join p q} to G
    Conclude(Contexts(SubWkFace), [5, 7, 5, 10, 0, 0, 0, 0, 0, 0], [6, 0, 0, 0, 0, 0, 0]),
    WithFace(5, 10),
    // 13: id : G.{join p q}.{p} to G
    Conclude(Contexts(SubWkFace), [12, 7, 5, 8, 0, 0, 0, 0, 0, 0], [11, 0, 0, 0, 0, 0, 0]),
    WithFace(12, 8),
    // 15: id : G.{join p q}.{p} to G.{p}
    Conclude(Contexts(SubFace), [14, 7, 5, 8, 0, 0, 0, 0, 0, 0], [13, 0, 0, 0, 0, 0, 0]),
    WithFace(5, 8),
    Part(3),
    Part(4),
    // 19: G.{join p q}.{p} >> a = b
    Conclude(Instances(TyEqSub), [14, 7, 16, 17, 18, 0, 0, 0, 0, 0], [15, 3, 0, 0, 0, 0, 0]),
    // 20: id : G.{join p q}.{q} to G
    Conclude(Contexts(SubWkFace), [12, 7, 5, 9, 0, 0, 0, 0, 0, 0], [11, 0, 0, 0, 0, 0, 0]),
    WithFace(12, 9),
    // 22: id : G.{join p q}.{q} to G.{q}
    Conclude(Contexts(SubFace), [21, 7, 5, 9, 0, 0, 0, 0, 0, 0], [20, 0, 0, 0, 0, 0, 0]),
    WithFace(5, 9),
    // 24: G.{join p q}.{q} >> a = b
    Conclude(Instances(TyEqSub), [21, 7, 23, 17, 18, 0, 0, 0, 0, 0], [22, 4, 0, 0, 0, 0, 0]),
    // 25: G.{join p q} >> a = b
    Conclude(Equality(TyEqCover), [12, 8, 9, 17, 18, 0, 0, 0, 0, 0], [1, 2, 19, 24, 0, 0, 0]),
};

/// The rows of what it gives: equal.
pub static COVER_TY_GIVES: &[u16] = &[25];
