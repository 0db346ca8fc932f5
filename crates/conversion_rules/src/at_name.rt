//! Written by tools/write_recipes.py.

use recipes::Row::{
    Conclude, Field, Instance, Make, Part, Premise, Push, Shift, Then, Var, WithName,
};
use recipes::{Row, table};
use theory::ContextRule::{SubId, SubWkName};
use theory::InstanceRule::TmSub;
use theory::Op;
use theory::PathRule::PApp;
use theory::RuleName::{Contexts, Instances, Paths};

/// A path, at a name.
/// Its parts are A u v H d G c.
pub static AT_NAME: &[Row] = table! {
    // 0: ctx H
    Premise(0),
    // 1: d : H to G
    Premise(1),
    // 2: H >> c : pathp A[over] u[d] v[d]
    Premise(2),
    Field(0, 0),
    // 4: id : H to H
    Conclude(Contexts(SubId), [3, 0, 0, 0, 0, 0, 0, 0, 0, 0], [0, 0, 0, 0, 0, 0, 0]),
    Shift(0),
    // 6: up : H.I to H
    Conclude(Contexts(SubWkName), [3, 5, 3, 0, 0, 0, 0, 0, 0, 0], [4, 0, 0, 0, 0, 0, 0]),
    WithName(3),
    Shift(1),
    Field(2, 1),
    Part(0),
    Field(1, 1),
    Then(11, 8),
    Var(0),
    Push(12, 13),
    Instance(10, 14),
    Part(1),
    Instance(16, 11),
    Part(2),
    Instance(18, 11),
    Make(Op::PathP, [15, 17, 19, 0]),
    // 21: H.I >> c+ : pathp A[over2] u[d then up] v[d then up]
    Conclude(Instances(TmSub), [7, 8, 3, 9, 20, 0, 0, 0, 0, 0], [6, 2, 0, 0, 0, 0, 0]),
    Instance(9, 8),
    Shift(2),
    Then(11, 23),
    Push(24, 13),
    Instance(10, 25),
    Instance(16, 12),
    Instance(18, 12),
    // 29: H.I >> papp c+ (var 0) : A[over]
    Conclude(Paths(PApp), [7, 22, 13, 26, 27, 28, 0, 0, 0, 0], [21, 0, 0, 0, 0, 0, 0]),
};

/// The rows of what it gives: term.
pub static AT_NAME_GIVES: &[u16] = &[29];
