//! Written by tools/write_recipes.py.

use recipes::Row::{
    Conclude, Field, Instance, Make, Part, Premise, Push, Shift, Then, Var, WithName,
};
use recipes::{Row, table};
use theory::ContextRule::{SubForm, SubId, SubWkName};
use theory::EqualityRule::{TmEqConv, TmEqTrans, TyEqSym};
use theory::InstanceRule::{TmInt, TmSub, TyInt, TySub};
use theory::Op;
use theory::PathRule::{PApp, PAppCong};
use theory::RuleName::{Contexts, Equality, Instances, Paths};

/// A path that equals another, at a formula that is the same as another.
/// Its parts are r s H d G A u v c n.
pub static PAPP_NORMAL: &[Row] = table! {
    // 0: ctx H
    Premise(0),
    // 1: d : H to G
    Premise(1),
    // 2: G.I >> A
    Premise(2),
    // 3: G >> u : A{i0}
    Premise(3),
    // 4: G >> v : A{i1}
    Premise(4),
    // 5: H >> c = n : pathp A[over] u[d] v[d]
    Premise(5),
    // 6: H >> n : pathp A[over] u[d] v[d]
    Premise(6),
    Field(0, 0),
    Field(5, 1),
    Field(5, 2),
    Part(0),
    Field(2, 1),
    Field(1, 1),
    Shift(1),
    Then(12, 13),
    Var(0),
    Push(14, 15),
    Instance(11, 16),
    Field(3, 1),
    Instance(18, 12),
    Field(4, 1),
    Instance(20, 12),
    // 22: H >> papp c r = papp n r : A[push d r]
    Conclude(Paths(PAppCong), [7, 8, 9, 10, 17, 19, 21, 0, 0, 0], [5, 0, 0, 0, 0, 0, 0]),
    // 23: id : H to H
    Conclude(Contexts(SubId), [7, 0, 0, 0, 0, 0, 0, 0, 0, 0], [0, 0, 0, 0, 0, 0, 0]),
    Shift(0),
    // 25: up : H.I to H
    Conclude(Contexts(SubWkName), [7, 24, 7, 0, 0, 0, 0, 0, 0, 0], [23, 0, 0, 0, 0, 0, 0]),
    WithName(7),
    Make(Op::PathP, [17, 19, 21, 0]),
    // 28: H.I >> n+ : pathp A[over2] u[d then up] v[d then up]
    Conclude(Instances(TmSub), [26, 13, 7, 9, 27, 0, 0, 0, 0, 0], [25, 6, 0, 0, 0, 0, 0]),
    Instance(9, 13),
    Shift(2),
    Then(12, 30),
    Push(31, 15),
    Instance(11, 32),
    Instance(18, 14),
    Instance(20, 14),
    // 36: H.I >> papp n+ (var 0) : A[over]
    Conclude(Paths(PApp), [26, 29, 15, 33, 34, 35, 0, 0, 0, 0], [28, 0, 0, 0, 0, 0, 0]),
    // 37: push id r : H to H.I
    Conclude(Contexts(SubForm), [7, 24, 7, 10, 0, 0, 0, 0, 0, 0], [23, 0, 0, 0, 0, 0, 0]),
    Part(1),
    // 39: push id s : H to H.I
    Conclude(Contexts(SubForm), [7, 24, 7, 38, 0, 0, 0, 0, 0, 0], [23, 0, 0, 0, 0, 0, 0]),
    Push(24, 10),
    Push(24, 38),
    Make(Op::PApp, [29, 15, 0, 0]),
    // 43: H >> papp n r = papp n s : A[push d r]
    Conclude(Instances(TmInt), [7, 40, 41, 26, 42, 17, 0, 0, 0, 0], [37, 39, 36, 0, 0, 0, 0]),
    Field(1, 2),
    // 45: d then up : H.I to G
    Conclude(Contexts(SubWkName), [7, 12, 44, 0, 0, 0, 0, 0, 0, 0], [1, 0, 0, 0, 0, 0, 0]),
    // 46: over : H.I to G.I
    Conclude(Contexts(SubForm), [26, 14, 44, 15, 0, 0, 0, 0, 0, 0], [45, 0, 0, 0, 0, 0, 0]),
    WithName(44),
    // 48: H.I >> A[over]
    Conclude(Instances(TySub), [26, 16, 47, 11, 0, 0, 0, 0, 0, 0], [46, 2, 0, 0, 0, 0, 0]),
    // 49: H >> A[push d s] = A[push d r]
    Conclude(Instances(TyInt), [7, 41, 40, 26, 17, 0, 0, 0, 0, 0], [39, 37, 48, 0, 0, 0, 0]),
    Push(12, 38),
    Instance(11, 50),
    Push(12, 10),
    Instance(11, 52),
    // 54: H >> A[push d r] = A[push d s]
    Conclude(Equality(TyEqSym), [7, 51, 53, 0, 0, 0, 0, 0, 0, 0], [49, 0, 0, 0, 0, 0, 0]),
    Make(Op::PApp, [8, 10, 0, 0]),
    Make(Op::PApp, [9, 10, 0, 0]),
    Make(Op::PApp, [9, 38, 0, 0]),
    // 58: H >> papp c r = papp n s : A[push d r]
    Conclude(Equality(TmEqTrans), [7, 55, 56, 57, 53, 0, 0, 0, 0, 0], [22, 43, 0, 0, 0, 0, 0]),
    // 59: H >> papp c r = papp n s : A[push d s]
    Conclude(Equality(TmEqConv), [7, 55, 57, 53, 51, 0, 0, 0, 0, 0], [58, 54, 0, 0, 0, 0, 0]),
    // 60: H >> papp n s : A[push d s]
    Conclude(Paths(PApp), [7, 9, 38, 17, 19, 21, 0, 0, 0, 0], [6, 0, 0, 0, 0, 0, 0]),
};

/// The rows of what it gives: equal, turn, term.
pub static PAPP_NORMAL_GIVES: &[u16] = &[59, 49, 60];
