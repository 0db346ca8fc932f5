//! Written by tools/write_recipes.py.

use recipes::Row::{
    Conclude, Field, Instance, Make, Part, Premise, Push, Shift, Then, Var, WithName,
};
use recipes::{Row, table};
use theory::ContextRule::{SubForm, SubId, SubWkName};
use theory::EqualityRule::{TmEqConv, TmEqTrans};
use theory::InstanceRule::{TmInt, TmSub, TyInt, TySub};
use theory::Op;
use theory::PathRule::{PApp, PAppCong};
use theory::RuleName::{Contexts, Equality, Instances, Paths};

/// Paths that are equal, at formulas that are the same.
/// Its parts are r s u v H d G A c k.
pub static PAPP_MOVED: &[Row] = table! {
    // 0: ctx H
    Premise(0),
    // 1: d : H to G
    Premise(1),
    // 2: G.I >> A
    Premise(2),
    // 3: H >> c : pathp A[over] u[d] v[d]
    Premise(3),
    // 4: H >> c = k : pathp A[over] u[d] v[d]
    Premise(4),
    Field(0, 0),
    // 6: id : H to H
    Conclude(Contexts(SubId), [5, 0, 0, 0, 0, 0, 0, 0, 0, 0], [0, 0, 0, 0, 0, 0, 0]),
    Shift(0),
    // 8: up : H.I to H
    Conclude(Contexts(SubWkName), [5, 7, 5, 0, 0, 0, 0, 0, 0, 0], [6, 0, 0, 0, 0, 0, 0]),
    WithName(5),
    Shift(1),
    Field(3, 1),
    Field(2, 1),
    Field(1, 1),
    Then(13, 10),
    Var(0),
    Push(14, 15),
    Instance(12, 16),
    Part(2),
    Instance(18, 13),
    Part(3),
    Instance(20, 13),
    Make(Op::PathP, [17, 19, 21, 0]),
    // 23: H.I >> c+ : pathp A[over2] u[d then up] v[d then up]
    Conclude(Instances(TmSub), [9, 10, 5, 11, 22, 0, 0, 0, 0, 0], [8, 3, 0, 0, 0, 0, 0]),
    Instance(11, 10),
    Shift(2),
    Then(13, 25),
    Push(26, 15),
    Instance(12, 27),
    Instance(18, 14),
    Instance(20, 14),
    // 31: H.I >> papp c+ (var 0) : A[over]
    Conclude(Paths(PApp), [9, 24, 15, 28, 29, 30, 0, 0, 0, 0], [23, 0, 0, 0, 0, 0, 0]),
    Part(0),
    // 33: push id r : H to H.I
    Conclude(Contexts(SubForm), [5, 7, 5, 32, 0, 0, 0, 0, 0, 0], [6, 0, 0, 0, 0, 0, 0]),
    Part(1),
    // 35: push id s : H to H.I
    Conclude(Contexts(SubForm), [5, 7, 5, 34, 0, 0, 0, 0, 0, 0], [6, 0, 0, 0, 0, 0, 0]),
    Push(7, 32),
    Push(7, 34),
    Make(Op::PApp, [24, 15, 0, 0]),
    // 39: H >> papp c r = papp c s : A[push d r]
    Conclude(Instances(TmInt), [5, 36, 37, 9, 38, 17, 0, 0, 0, 0], [33, 35, 31, 0, 0, 0, 0]),
    Field(1, 2),
    // 41: d then up : H.I to G
    Conclude(Contexts(SubWkName), [5, 13, 40, 0, 0, 0, 0, 0, 0, 0], [1, 0, 0, 0, 0, 0, 0]),
    // 42: over : H.I to G.I
    Conclude(Contexts(SubForm), [9, 14, 40, 15, 0, 0, 0, 0, 0, 0], [41, 0, 0, 0, 0, 0, 0]),
    WithName(40),
    // 44: H.I >> A[over]
    Conclude(Instances(TySub), [9, 16, 43, 12, 0, 0, 0, 0, 0, 0], [42, 2, 0, 0, 0, 0, 0]),
    // 45: H >> A[push d s] = A[push d r]
    Conclude(Instances(TyInt), [5, 37, 36, 9, 17, 0, 0, 0, 0, 0], [35, 33, 44, 0, 0, 0, 0]),
    Field(4, 2),
    // 47: H >> papp c s = papp k s : A[push d s]
    Conclude(Paths(PAppCong), [5, 11, 46, 34, 17, 19, 21, 0, 0, 0], [4, 0, 0, 0, 0, 0, 0]),
    Make(Op::PApp, [11, 34, 0, 0]),
    Make(Op::PApp, [46, 34, 0, 0]),
    Push(13, 34),
    Instance(12, 50),
    Push(13, 32),
    Instance(12, 52),
    // 54: H >> papp c s = papp k s : A[push d r]
    Conclude(Equality(TmEqConv), [5, 48, 49, 51, 53, 0, 0, 0, 0, 0], [47, 45, 0, 0, 0, 0, 0]),
    Make(Op::PApp, [11, 32, 0, 0]),
    // 56: H >> papp c r = papp k s : A[push d r]
    Conclude(Equality(TmEqTrans), [5, 55, 48, 49, 53, 0, 0, 0, 0, 0], [39, 54, 0, 0, 0, 0, 0]),
};

/// The rows of what it gives: equal.
pub static PAPP_MOVED_GIVES: &[u16] = &[56];
