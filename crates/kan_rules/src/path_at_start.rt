//! Written by tools/write_recipes.py.

use recipes::Row::{
    Conclude, Field, Instance, Make, Part, Premise, Push, Shift, Then, Var, WithName,
};
use recipes::{Row, table};
use theory::ContextRule::{SubForm, SubId, SubWkName};
use theory::EqualityRule::{TmEqConv, TmEqTrans, TyEqSym};
use theory::InstanceRule::{TmInt, TmSub, TyInt, TySub};
use theory::Op;
use theory::PathRule::{PApp, PAppCong, PathLeft};
use theory::RuleName::{Contexts, Equality, Instances, Paths};

/// A path that equals another, at a formula that is 0: its end.
/// Its parts are r H d G A u v c n.
pub static PATH_AT_START: &[Row] = table! {
    // 0: ctx H
    Premise(0),
    // 1: d : H to G
    Premise(1),
    // 2: G.I >> A
    Premise(2),
    // 3: G >> u : A{i0}
    Premise(3),
    // 4: G >> v : A{i1}
    Premise(4),
    // 5: H >> c = n : pathp A[over] u[d] v[d]
    Premise(5),
    // 6: H >> n : pathp A[over] u[d] v[d]
    Premise(6),
    Field(0, 0),
    Field(5, 1),
    Field(5, 2),
    Part(0),
    Field(2, 1),
    Field(1, 1),
    Shift(1),
    Then(12, 13),
    Var(0),
    Push(14, 15),
    Instance(11, 16),
    Field(3, 1),
    Instance(18, 12),
    Field(4, 1),
    Instance(20, 12),
    // 22: H >> papp c r = papp n r : A[push d r]
    Conclude(Paths(PAppCong), [7, 8, 9, 10, 17, 19, 21, 0, 0, 0], [5, 0, 0, 0, 0, 0, 0]),
    // 23: id : H to H
    Conclude(Contexts(SubId), [7, 0, 0, 0, 0, 0, 0, 0, 0, 0], [0, 0, 0, 0, 0, 0, 0]),
    Shift(0),
    // 25: up : H.I to H
    Conclude(Contexts(SubWkName), [7, 24, 7, 0, 0, 0, 0, 0, 0, 0], [23, 0, 0, 0, 0, 0, 0]),
    WithName(7),
    Make(Op::PathP, [17, 19, 21, 0]),
    // 28: H.I >> n+ : pathp A[over2] u[d then up] v[d then up]
    Conclude(Instances(TmSub), [26, 13, 7, 9, 27, 0, 0, 0, 0, 0], [25, 6, 0, 0, 0, 0, 0]),
    Instance(9, 13),
    Shift(2),
    Then(12, 30),
    Push(31, 15),
    Instance(11, 32),
    Instance(18, 14),
    Instance(20, 14),
    // 36: H.I >> papp n+ (var 0) : A[over]
    Conclude(Paths(PApp), [26, 29, 15, 33, 34, 35, 0, 0, 0, 0], [28, 0, 0, 0, 0, 0, 0]),
    // 37: push id r : H to H.I
    Conclude(Contexts(SubForm), [7, 24, 7, 10, 0, 0, 0, 0, 0, 0], [23, 0, 0, 0, 0, 0, 0]),
    Make(Op::I0, [0, 0, 0, 0]),
    // 39: push id i0 : H to H.I
    Conclude(Contexts(SubForm), [7, 24, 7, 38, 0, 0, 0, 0, 0, 0], [23, 0, 0, 0, 0, 0, 0]),
    Push(24, 10),
    Push(24, 38),
    Make(Op::PApp, [29, 15, 0, 0]),
    // 43: H >> papp n r = papp n i0 : A[push d r]
    Conclude(Instances(TmInt), [7, 40, 41, 26, 42, 17, 0, 0, 0, 0], [37, 39, 36, 0, 0, 0, 0]),
    // 44: H >> papp n i0 = u[d] : A[push d i0]
    Conclude(Paths(PathLeft), [7, 9, 17, 19, 21, 0, 0, 0, 0, 0], [6, 0, 0, 0, 0, 0, 0]),
    Field(1, 2),
    // 46: d then up : H.I to G
    Conclude(Contexts(SubWkName), [7, 12, 45, 0, 0, 0, 0, 0, 0, 0], [1, 0, 0, 0, 0, 0, 0]),
    // 47: over : H.I to G.I
    Conclude(Contexts(SubForm), [26, 14, 45, 15, 0, 0, 0, 0, 0, 0], [46, 0, 0, 0, 0, 0, 0]),
    WithName(45),
    // 49: H.I >> A[over]
    Conclude(Instances(TySub), [26, 16, 48, 11, 0, 0, 0, 0, 0, 0], [47, 2, 0, 0, 0, 0, 0]),
    // 50: H >> A[push d i0] = A[push d r]
    Conclude(Instances(TyInt), [7, 41, 40, 26, 17, 0, 0, 0, 0, 0], [39, 37, 49, 0, 0, 0, 0]),
    Push(12, 38),
    Instance(11, 51),
    Push(12, 10),
    Instance(11, 53),
    // 55: H >> A[push d r] = A[push d i0]
    Conclude(Equality(TyEqSym), [7, 52, 54, 0, 0, 0, 0, 0, 0, 0], [50, 0, 0, 0, 0, 0, 0]),
    Make(Op::PApp, [8, 10, 0, 0]),
    Make(Op::PApp, [9, 10, 0, 0]),
    Make(Op::PApp, [9, 38, 0, 0]),
    // 59: H >> papp c r = papp n i0 : A[push d r]
    Conclude(Equality(TmEqTrans), [7, 56, 57, 58, 54, 0, 0, 0, 0, 0], [22, 43, 0, 0, 0, 0, 0]),
    // 60: H >> papp c r = papp n i0 : A[push d i0]
    Conclude(Equality(TmEqConv), [7, 56, 58, 54, 52, 0, 0, 0, 0, 0], [59, 55, 0, 0, 0, 0, 0]),
    // 61: H >> papp c r = u[d] : A[push d i0]
    Conclude(Equality(TmEqTrans), [7, 56, 58, 19, 52, 0, 0, 0, 0, 0], [60, 44, 0, 0, 0, 0, 0]),
};

/// The rows of what it gives: equal, turn.
pub static PATH_AT_START_GIVES: &[u16] = &[61, 50];
