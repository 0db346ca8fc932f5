//! Written by tools/write_recipes.py.

use recipes::Row::{
    Conclude, Field, Instance, Make, Part, Premise, Push, Shift, Var, WithFace, WithName,
};
use recipes::{Row, table};
use theory::CompRule::{Comp, CompCong};
use theory::ContextRule::{CtxFace, SubFace, SubForm, SubId, SubWkFace, SubWkName};
use theory::EqualityRule::{TmConv, TmEqConv, TmEqSym, TmEqTrans, TyEqSym};
use theory::InstanceRule::{TmEqSub, TyEqSub};
use theory::Op;
use theory::RuleName::{Composition, Contexts, Equality, Instances};

/// A composition whose parts are in normal form, at a face that is the same as its own.
/// Its parts are p q H A B b c a k.
pub static COMP_NORMAL: &[Row] = table! {
    // 0: ctx H
    Premise(0),
    // 1: H.I >> A
    Premise(1),
    // 2: H.I >> A = B
    Premise(2),
    // 3: H.I >> B
    Premise(3),
    // 4: P.I >> b : A
    Premise(4),
    // 5: Q.I >> b = c : A
    Premise(5),
    // 6: Q.I >> c : A
    Premise(6),
    // 7: H >> a : A{i0}
    Premise(7),
    // 8: H >> a = k : A{i0}
    Premise(8),
    // 9: H >> k : A{i0}
    Premise(9),
    // 10: P >> a = b{i0} : A{i0}
    Premise(10),
    Field(0, 0),
    // 12: id : H to H
    Conclude(Contexts(SubId), [11, 0, 0, 0, 0, 0, 0, 0, 0, 0], [0, 0, 0, 0, 0, 0, 0]),
    Shift(0),
    Part(0),
    // 15: id : P to H
    Conclude(Contexts(SubWkFace), [11, 13, 11, 14, 0, 0, 0, 0, 0, 0], [12, 0, 0, 0, 0, 0, 0]),
    WithFace(11, 14),
    Part(1),
    // 18: id : P to Q
    Conclude(Contexts(SubFace), [16, 13, 11, 17, 0, 0, 0, 0, 0, 0], [15, 0, 0, 0, 0, 0, 0]),
    WithFace(11, 17),
    // 20: up : P.I to Q
    Conclude(Contexts(SubWkName), [16, 13, 19, 0, 0, 0, 0, 0, 0, 0], [18, 0, 0, 0, 0, 0, 0]),
    WithName(16),
    Shift(1),
    Var(0),
    // 24: over : P.I to Q.I
    Conclude(Contexts(SubForm), [21, 22, 19, 23, 0, 0, 0, 0, 0, 0], [20, 0, 0, 0, 0, 0, 0]),
    Push(22, 23),
    WithName(19),
    Field(4, 1),
    Field(5, 2),
    Field(1, 1),
    // 30: P.I >> b = c : A
    Conclude(Instances(TmEqSub), [21, 25, 26, 27, 28, 29, 0, 0, 0, 0], [24, 5, 0, 0, 0, 0, 0]),
    Field(2, 2),
    Field(7, 1),
    Field(8, 2),
    // 34: H >> comp A p b a = comp B q c k : A{i1}
    Conclude(Composition(CompCong), [11, 29, 31, 14, 17, 27, 28, 32, 33, 0],
        [2, 4, 7, 10, 30, 8, 0]),
    Make(Op::I0, [0, 0, 0, 0]),
    // 36: push id i0 : H to H.I
    Conclude(Contexts(SubForm), [11, 13, 11, 35, 0, 0, 0, 0, 0, 0], [12, 0, 0, 0, 0, 0, 0]),
    Push(13, 35),
    WithName(11),
    // 39: H >> A{i0} = B{i0}
    Conclude(Instances(TyEqSub), [11, 37, 38, 29, 31, 0, 0, 0, 0, 0], [36, 2, 0, 0, 0, 0, 0]),
    Instance(29, 37),
    Instance(31, 37),
    // 42: H >> k : B{i0}
    Conclude(Equality(TmConv), [11, 33, 40, 41, 0, 0, 0, 0, 0, 0], [9, 39, 0, 0, 0, 0, 0]),
    // 43: id : Q to H
    Conclude(Contexts(SubWkFace), [11, 13, 11, 17, 0, 0, 0, 0, 0, 0], [12, 0, 0, 0, 0, 0, 0]),
    // 44: id : Q to P
    Conclude(Contexts(SubFace), [19, 13, 11, 14, 0, 0, 0, 0, 0, 0], [43, 0, 0, 0, 0, 0, 0]),
    // 45: up : Q.I to H
    Conclude(Contexts(SubWkName), [19, 13, 11, 0, 0, 0, 0, 0, 0, 0], [43, 0, 0, 0, 0, 0, 0]),
    // 46: over : Q.I to H.I
    Conclude(Contexts(SubForm), [26, 22, 11, 23, 0, 0, 0, 0, 0, 0], [45, 0, 0, 0, 0, 0, 0]),
    // 47: Q.I >> A = B
    Conclude(Instances(TyEqSub), [26, 25, 38, 29, 31, 0, 0, 0, 0, 0], [46, 2, 0, 0, 0, 0, 0]),
    // 48: Q.I >> c : B
    Conclude(Equality(TmConv), [26, 28, 29, 31, 0, 0, 0, 0, 0, 0], [6, 47, 0, 0, 0, 0, 0]),
    Instance(27, 37),
    // 50: Q >> a = b{i0} : A{i0}
    Conclude(Instances(TmEqSub), [19, 13, 16, 32, 49, 40, 0, 0, 0, 0], [44, 10, 0, 0, 0, 0, 0]),
    // 51: ctx Q
    Conclude(Contexts(CtxFace), [11, 17, 0, 0, 0, 0, 0, 0, 0, 0], [0, 0, 0, 0, 0, 0, 0]),
    // 52: id : Q to Q
    Conclude(Contexts(SubId), [19, 0, 0, 0, 0, 0, 0, 0, 0, 0], [51, 0, 0, 0, 0, 0, 0]),
    // 53: push id i0 : Q to Q.I
    Conclude(Contexts(SubForm), [19, 13, 19, 35, 0, 0, 0, 0, 0, 0], [52, 0, 0, 0, 0, 0, 0]),
    // 54: Q >> b{i0} = c{i0} : A{i0}
    Conclude(Instances(TmEqSub), [19, 37, 26, 27, 28, 29, 0, 0, 0, 0], [53, 5, 0, 0, 0, 0, 0]),
    Instance(28, 37),
    // 56: Q >> a = c{i0} : A{i0}
    Conclude(Equality(TmEqTrans), [19, 32, 49, 55, 40, 0, 0, 0, 0, 0], [50, 54, 0, 0, 0, 0, 0]),
    // 57: Q >> a = k : A{i0}
    Conclude(Instances(TmEqSub), [19, 13, 11, 32, 33, 40, 0, 0, 0, 0], [43, 8, 0, 0, 0, 0, 0]),
    // 58: Q >> k = a : A{i0}
    Conclude(Equality(TmEqSym), [19, 32, 33, 40, 0, 0, 0, 0, 0, 0], [57, 0, 0, 0, 0, 0, 0]),
    // 59: Q >> k = c{i0} : A{i0}
    Conclude(Equality(TmEqTrans), [19, 33, 32, 55, 40, 0, 0, 0, 0, 0], [58, 56, 0, 0, 0, 0, 0]),
    // 60: Q >> A{i0} = B{i0}
    Conclude(Instances(TyEqSub), [19, 13, 11, 40, 41, 0, 0, 0, 0, 0], [43, 39, 0, 0, 0, 0, 0]),
    // 61: Q >> k = c{i0} : B{i0}
    Conclude(Equality(TmEqConv), [19, 33, 55, 40, 41, 0, 0, 0, 0, 0], [59, 60, 0, 0, 0, 0, 0]),
    // 62: H >> comp B q c k : B{i1}
    Conclude(Composition(Comp), [11, 31, 17, 28, 33, 0, 0, 0, 0, 0], [3, 48, 42, 61, 0, 0, 0]),
    Make(Op::I1, [0, 0, 0, 0]),
    // 64: push id i1 : H to H.I
    Conclude(Contexts(SubForm), [11, 13, 11, 63, 0, 0, 0, 0, 0, 0], [12, 0, 0, 0, 0, 0, 0]),
    Push(13, 63),
    // 66: H >> A{i1} = B{i1}
    Conclude(Instances(TyEqSub), [11, 65, 38, 29, 31, 0, 0, 0, 0, 0], [64, 2, 0, 0, 0, 0, 0]),
    Instance(29, 65),
    Instance(31, 65),
    // 69: H >> B{i1} = A{i1}
    Conclude(Equality(TyEqSym), [11, 67, 68, 0, 0, 0, 0, 0, 0, 0], [66, 0, 0, 0, 0, 0, 0]),
    Make(Op::Comp, [29, 14, 27, 32]),
    Make(Op::Comp, [31, 17, 28, 33]),
    // 72: H >> comp A p b a = comp B q c k : B{i1}
    Conclude(Equality(TmEqConv), [11, 70, 71, 67, 68, 0, 0, 0, 0, 0], [34, 66, 0, 0, 0, 0, 0]),
};

/// The rows of what it gives: equal, turn, term.
pub static COMP_NORMAL_GIVES: &[u16] = &[72, 69, 62];
