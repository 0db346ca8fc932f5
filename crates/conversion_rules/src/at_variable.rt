//! Written by tools/write_recipes.py.

use recipes::Row::{
    Conclude, Field, Instance, Make, Part, Premise, Push, Shift, Then, Var, WithVar,
};
use recipes::{Row, table};
use theory::ContextRule::{SubId, SubWk};
use theory::InstanceRule::{TmSub, TmVar, TySub};
use theory::Op;
use theory::PiRule::App;
use theory::RuleName::{Contexts, Instances, Pi};

/// A function, applied to a variable.
/// Its parts are B H d G A f.
pub static AT_VARIABLE: &[Row] = table! {
    // 0: ctx H
    Premise(0),
    // 1: d : H to G
    Premise(1),
    // 2: G >> A
    Premise(2),
    // 3: H >> f : pi A[d] B[over]
    Premise(3),
    Field(0, 0),
    Field(1, 1),
    Field(1, 2),
    Field(2, 1),
    // 8: H >> A[d]
    Conclude(Instances(TySub), [4, 5, 6, 7, 0, 0, 0, 0, 0, 0], [1, 2, 0, 0, 0, 0, 0]),
    // 9: id : H to H
    Conclude(Contexts(SubId), [4, 0, 0, 0, 0, 0, 0, 0, 0, 0], [0, 0, 0, 0, 0, 0, 0]),
    Shift(0),
    Instance(7, 5),
    // 12: up : H.A[d] to H
    Conclude(Contexts(SubWk), [4, 10, 4, 11, 0, 0, 0, 0, 0, 0], [9, 8, 0, 0, 0, 0, 0]),
    WithVar(4, 11),
    Shift(1),
    Field(3, 1),
    Part(0),
    Then(5, 14),
    Var(0),
    Push(17, 18),
    Instance(16, 19),
    Make(Op::Pi, [11, 20, 0, 0]),
    // 22: H.A[d] >> f+ : pi A[d then up] B[push (d then shift 2) (var 0)]
    Conclude(Instances(TmSub), [13, 14, 4, 15, 21, 0, 0, 0, 0, 0], [12, 3, 0, 0, 0, 0, 0]),
    // 23: H.A[d] >> var 0 : A[d then up]
    Conclude(Instances(TmVar), [4, 11, 0, 0, 0, 0, 0, 0, 0, 0], [8, 0, 0, 0, 0, 0, 0]),
    Instance(15, 14),
    Instance(7, 17),
    Shift(2),
    Then(5, 26),
    Push(27, 18),
    Instance(16, 28),
    // 30: H.A[d] >> app f+ (var 0) : B[over]
    Conclude(Pi(App), [13, 24, 18, 25, 29, 0, 0, 0, 0, 0], [22, 23, 0, 0, 0, 0, 0]),
};

/// The rows of what it gives: term.
pub static AT_VARIABLE_GIVES: &[u16] = &[30];
