//! Written by tools/write_recipes.py.

use recipes::Row::{Conclude, Field, Make, Part, Premise, Shift, WithFace};
use recipes::{Row, table};
use theory::ContextRule::{SubFace, SubId, SubWkFace};
use theory::EqualityRule::TmEqCover;
use theory::InstanceRule::TmEqSub;
use theory::Op;
use theory::RuleName::{Contexts, Equality, Instances};

/// Terms that are equal on two faces are equal on their join.
/// Its parts are p q H a b A.
pub static COVER_TERMS: &[Row] = table! {
    // 0: ctx H
    Premise(0),
    // 1: J >> a : A
    Premise(1),
    // 2: J >> b : A
    Premise(2),
    // 3: H.{p} >> a = b : A
    Premise(3),
    // 4: H.{q} >> a = b : A
    Premise(4),
    Field(0, 0),
    // 6: id : H to H
    Conclude(Contexts(SubId), [5, 0, 0, 0, 0, 0, 0, 0, 0, 0], [0, 0, 0, 0, 0, 0, 0]),
    Shift(0),
    Part(0),
    Part(1),
    Make(Op::Join, [8, 9, 0, 0]),
    // 11: id : J to H
    Conclude(Contexts(SubWkFace), [5, 7, 5, 10, 0, 0, 0, 0, 0, 0], [6, 0, 0, 0, 0, 0, 0]),
    WithFace(5, 10),
    // 13: id : Jp to H
    Conclude(Contexts(SubWkFace), [12, 7, 5, 8, 0, 0, 0, 0, 0, 0], [11, 0, 0, 0, 0, 0, 0]),
    WithFace(12, 8),
    // 15: id : Jp to H.{p}
    Conclude(Contexts(SubFace), [14, 7, 5, 8, 0, 0, 0, 0, 0, 0], [13, 0, 0, 0, 0, 0, 0]),
    WithFace(5, 8),
    Field(1, 1),
    Field(2, 1),
    Field(1, 2),
    // 20: Jp >> a = b : A
    Conclude(Instances(TmEqSub), [14, 7, 16, 17, 18, 19, 0, 0, 0, 0], [15, 3, 0, 0, 0, 0, 0]),
    // 21: id : Jq to H
    Conclude(Contexts(SubWkFace), [12, 7, 5, 9, 0, 0, 0, 0, 0, 0], [11, 0, 0, 0, 0, 0, 0]),
    WithFace(12, 9),
    // 23: id : Jq to H.{q}
    Conclude(Contexts(SubFace), [22, 7, 5, 9, 0, 0, 0, 0, 0, 0], [21, 0, 0, 0, 0, 0, 0]),
    WithFace(5, 9),
    // 25: Jq >> a = b : A
    Conclude(Instances(TmEqSub), [22, 7, 24, 17, 18, 19, 0, 0, 0, 0], [23, 4, 0, 0, 0, 0, 0]),
    // 26: J >> a = b : A
    Conclude(Equality(TmEqCover), [12, 8, 9, 17, 18, 19, 0, 0, 0, 0], [1, 2, 20, 25, 0, 0, 0]),
};

/// The rows of what it gives: equal.
pub static COVER_TERMS_GIVES: &[u16] = &[26];
