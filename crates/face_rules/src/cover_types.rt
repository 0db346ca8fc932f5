//! Written by tools/write_recipes.py.

use recipes::Row::{Conclude, Field, Make, Part, Premise, Shift, WithFace};
use recipes::{Row, table};
use theory::ContextRule::{SubFace, SubId, SubWkFace};
use theory::EqualityRule::TyEqCover;
use theory::InstanceRule::TyEqSub;
use theory::Op;
use theory::RuleName::{Contexts, Equality, Instances};

/// Types that are equal on two faces are equal on their join.
/// Its parts are p q H A B.
pub static COVER_TYPES: &[Row] = table! {
    // 0: ctx H
    Premise(0),
    // 1: J >> A
    Premise(1),
    // 2: J >> B
    Premise(2),
    // 3: H.{p} >> A = B
    Premise(3),
    // 4: H.{q} >> A = B
    Premise(4),
    Field(0, 0),
    // 6: id : H to H
    Conclude(Contexts(SubId), [5, 0, 0, 0, 0, 0, 0, 0, 0, 0], [0, 0, 0, 0, 0, 0, 0]),
    Shift(0),
    Part(0),
    Part(1),
    Make(Op::Join, [8, 9, 0, 0]),
    // 11: id : J to H
    Conclude(Contexts(SubWkFace), [5, 7, 5, 10, 0, 0, 0, 0, 0, 0], [6, 0, 0, 0, 0, 0, 0]),
    WithFace(5, 10),
    // 13: id : Jp to H
    Conclude(Contexts(SubWkFace), [12, 7, 5, 8, 0, 0, 0, 0, 0, 0], [11, 0, 0, 0, 0, 0, 0]),
    WithFace(12, 8),
    // 15: id : Jp to H.{p}
    Conclude(Contexts(SubFace), [14, 7, 5, 8, 0, 0, 0, 0, 0, 0], [13, 0, 0, 0, 0, 0, 0]),
    WithFace(5, 8),
    Field(1, 1),
    Field(2, 1),
    // 19: Jp >> A = B
    Conclude(Instances(TyEqSub), [14, 7, 16, 17, 18, 0, 0, 0, 0, 0], [15, 3, 0, 0, 0, 0, 0]),
    // 20: id : Jq to H
    Conclude(Contexts(SubWkFace), [12, 7, 5, 9, 0, 0, 0, 0, 0, 0], [11, 0, 0, 0, 0, 0, 0]),
    WithFace(12, 9),
    // 22: id : Jq to H.{q}
    Conclude(Contexts(SubFace), [21, 7, 5, 9, 0, 0, 0, 0, 0, 0], [20, 0, 0, 0, 0, 0, 0]),
    WithFace(5, 9),
    // 24: Jq >> A = B
    Conclude(Instances(TyEqSub), [21, 7, 23, 17, 18, 0, 0, 0, 0, 0], [22, 4, 0, 0, 0, 0, 0]),
    // 25: J >> A = B
    Conclude(Equality(TyEqCover), [12, 8, 9, 17, 18, 0, 0, 0, 0, 0], [1, 2, 19, 24, 0, 0, 0]),
};

/// The rows of what it gives: equal.
pub static COVER_TYPES_GIVES: &[u16] = &[25];
