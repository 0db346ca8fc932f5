//! Written by tools/write_recipes.py.

use recipes::Row::{
    Conclude, Field, Instance, Make, Part, Premise, Push, Shift, Var, WithFace, WithName,
};
use recipes::{Row, table};
use theory::ContextRule::{SubFace, SubForm, SubId, SubWkFace, SubWkName};
use theory::EqualityRule::TmEqCover;
use theory::InstanceRule::TmEqSub;
use theory::Op;
use theory::RuleName::{Contexts, Equality, Instances};

/// Terms over a name that are equal on two faces are equal on their join.
/// Its parts are p q H a b A.
pub static COVER_LINES: &[Row] = table! {
    // 0: ctx H
    Premise(0),
    // 1: J >> a : A
    Premise(1),
    // 2: J >> b : A
    Premise(2),
    // 3: H.{p}.I >> a = b : A
    Premise(3),
    // 4: H.{q}.I >> a = b : A
    Premise(4),
    Field(0, 0),
    // 6: id : H to H
    Conclude(Contexts(SubId), [5, 0, 0, 0, 0, 0, 0, 0, 0, 0], [0, 0, 0, 0, 0, 0, 0]),
    Shift(0),
    Part(0),
    Part(1),
    Make(Op::Join, [8, 9, 0, 0]),
    // 11: id : H.{join p q} to H
    Conclude(Contexts(SubWkFace), [5, 7, 5, 10, 0, 0, 0, 0, 0, 0], [6, 0, 0, 0, 0, 0, 0]),
    WithFace(5, 10),
    // 13: up : J to H
    Conclude(Contexts(SubWkName), [12, 7, 5, 0, 0, 0, 0, 0, 0, 0], [11, 0, 0, 0, 0, 0, 0]),
    WithName(12),
    Shift(1),
    Instance(8, 15),
    // 17: up : Jp to H
    Conclude(Contexts(SubWkFace), [14, 15, 5, 16, 0, 0, 0, 0, 0, 0], [13, 0, 0, 0, 0, 0, 0]),
    WithFace(14, 16),
    // 19: up : Jp to H.{p}
    Conclude(Contexts(SubFace), [18, 15, 5, 8, 0, 0, 0, 0, 0, 0], [17, 0, 0, 0, 0, 0, 0]),
    WithFace(5, 8),
    Var(0),
    // 22: over : Jp to H.{p}.I
    Conclude(Contexts(SubForm), [18, 15, 20, 21, 0, 0, 0, 0, 0, 0], [19, 0, 0, 0, 0, 0, 0]),
    Push(15, 21),
    WithName(20),
    Field(1, 1),
    Field(2, 1),
    Field(1, 2),
    // 28: Jp >> a = b : A
    Conclude(Instances(TmEqSub), [18, 23, 24, 25, 26, 27, 0, 0, 0, 0], [22, 3, 0, 0, 0, 0, 0]),
    Instance(9, 15),
    // 30: up : Jq to H
    Conclude(Contexts(SubWkFace), [14, 15, 5, 29, 0, 0, 0, 0, 0, 0], [13, 0, 0, 0, 0, 0, 0]),
    WithFace(14, 29),
    // 32: up : Jq to H.{q}
    Conclude(Contexts(SubFace), [31, 15, 5, 9, 0, 0, 0, 0, 0, 0], [30, 0, 0, 0, 0, 0, 0]),
    WithFace(5, 9),
    // 34: over : Jq to H.{q}.I
    Conclude(Contexts(SubForm), [31, 15, 33, 21, 0, 0, 0, 0, 0, 0], [32, 0, 0, 0, 0, 0, 0]),
    WithName(33),
    // 36: Jq >> a = b : A
    Conclude(Instances(TmEqSub), [31, 23, 35, 25, 26, 27, 0, 0, 0, 0], [34, 4, 0, 0, 0, 0, 0]),
    // 37: J >> a = b : A
    Conclude(Equality(TmEqCover), [14, 16, 29, 25, 26, 27, 0, 0, 0, 0], [1, 2, 28, 36, 0, 0, 0]),
};

/// The rows of what it gives: equal.
pub static COVER_LINES_GIVES: &[u16] = &[37];
