//! Written by tools/write_recipes.py.

use recipes::Row::{
    Conclude, Field, Instance, Make, Part, Premise, Push, Shift, Then, Var, WithFace, WithName,
};
use recipes::{Row, table};
use theory::CompRule::CompCong;
use theory::ContextRule::{SubFace, SubForm, SubId, SubWkFace, SubWkName};
use theory::EqualityRule::{TmConv, TmEqConv, TmEqRefl, TyEqSym};
use theory::InstanceRule::{TmEqSub, TmSub, TyEqSub};
use theory::Op;
use theory::RuleName::{Composition, Contexts, Equality, Instances};

/// A composition under a substitution, along a line that equals its own.
/// Its parts are p H d G A b a L.
pub static COMP_LINE: &[Row] = table! {
    // 0: ctx H
    Premise(0),
    // 1: d : H to G
    Premise(1),
    // 2: G.I >> A
    Premise(2),
    // 3: G.{p}.I >> b : A
    Premise(3),
    // 4: G >> a : A{i0}
    Premise(4),
    // 5: G.{p} >> a = b{i0} : A{i0}
    Premise(5),
    // 6: H.I >> A[over] = L
    Premise(6),
    Field(0, 0),
    Field(1, 1),
    Field(1, 2),
    Part(0),
    Instance(10, 8),
    // 12: d : Hq to G
    Conclude(Contexts(SubWkFace), [7, 8, 9, 11, 0, 0, 0, 0, 0, 0], [1, 0, 0, 0, 0, 0, 0]),
    WithFace(7, 11),
    // 14: d : Hq to G.{p}
    Conclude(Contexts(SubFace), [13, 8, 9, 10, 0, 0, 0, 0, 0, 0], [12, 0, 0, 0, 0, 0, 0]),
    WithFace(9, 10),
    // 16: d then up : HqI to G.{p}
    Conclude(Contexts(SubWkName), [13, 8, 15, 0, 0, 0, 0, 0, 0, 0], [14, 0, 0, 0, 0, 0, 0]),
    WithName(13),
    Shift(1),
    Then(8, 18),
    Var(0),
    // 21: over : HqI to G.{p}.I
    Conclude(Contexts(SubForm), [17, 19, 15, 20, 0, 0, 0, 0, 0, 0], [16, 0, 0, 0, 0, 0, 0]),
    Push(19, 20),
    WithName(15),
    Field(3, 1),
    Field(2, 1),
    // 26: HqI >> b[over] : A[over]
    Conclude(Instances(TmSub), [17, 22, 23, 24, 25, 0, 0, 0, 0, 0], [21, 3, 0, 0, 0, 0, 0]),
    // 27: id : H to H
    Conclude(Contexts(SubId), [7, 0, 0, 0, 0, 0, 0, 0, 0, 0], [0, 0, 0, 0, 0, 0, 0]),
    Shift(0),
    // 29: id : Hq to H
    Conclude(Contexts(SubWkFace), [7, 28, 7, 11, 0, 0, 0, 0, 0, 0], [27, 0, 0, 0, 0, 0, 0]),
    // 30: up : HqI to H
    Conclude(Contexts(SubWkName), [13, 28, 7, 0, 0, 0, 0, 0, 0, 0], [29, 0, 0, 0, 0, 0, 0]),
    // 31: push up (var 0) : HqI to H.I
    Conclude(Contexts(SubForm), [17, 18, 7, 20, 0, 0, 0, 0, 0, 0], [30, 0, 0, 0, 0, 0, 0]),
    Push(18, 20),
    WithName(7),
    Instance(25, 22),
    Field(6, 2),
    // 36: HqI >> A[over] = L
    Conclude(Instances(TyEqSub), [17, 32, 33, 34, 35, 0, 0, 0, 0, 0], [31, 6, 0, 0, 0, 0, 0]),
    Instance(24, 22),
    // 38: HqI >> b[over] : L
    Conclude(Equality(TmConv), [17, 37, 34, 35, 0, 0, 0, 0, 0, 0], [26, 36, 0, 0, 0, 0, 0]),
    Make(Op::I0, [0, 0, 0, 0]),
    // 40: push id i0 : H to H.I
    Conclude(Contexts(SubForm), [7, 28, 7, 39, 0, 0, 0, 0, 0, 0], [27, 0, 0, 0, 0, 0, 0]),
    Push(28, 39),
    // 42: H >> A[push d i0] = L{i0}
    Conclude(Instances(TyEqSub), [7, 41, 33, 34, 35, 0, 0, 0, 0, 0], [40, 6, 0, 0, 0, 0, 0]),
    Field(4, 1),
    Instance(25, 41),
    // 45: H >> a[d] : A[push d i0]
    Conclude(Instances(TmSub), [7, 8, 9, 43, 44, 0, 0, 0, 0, 0], [1, 4, 0, 0, 0, 0, 0]),
    Instance(43, 8),
    Push(8, 39),
    Instance(25, 47),
    Instance(35, 41),
    // 50: H >> a[d] : L{i0}
    Conclude(Equality(TmConv), [7, 46, 48, 49, 0, 0, 0, 0, 0, 0], [45, 42, 0, 0, 0, 0, 0]),
    // 51: push id i0 : Hq to H.I
    Conclude(Contexts(SubForm), [13, 28, 7, 39, 0, 0, 0, 0, 0, 0], [29, 0, 0, 0, 0, 0, 0]),
    // 52: Hq >> A[push d i0] = L{i0}
    Conclude(Instances(TyEqSub), [13, 41, 33, 34, 35, 0, 0, 0, 0, 0], [51, 6, 0, 0, 0, 0, 0]),
    Instance(24, 41),
    // 54: Hq >> a[d] = b[push d i0] : A[push d i0]
    Conclude(Instances(TmEqSub), [13, 8, 15, 43, 53, 44, 0, 0, 0, 0], [14, 5, 0, 0, 0, 0, 0]),
    Instance(24, 47),
    // 56: Hq >> a[d] = b[push d i0] : L{i0}
    Conclude(Equality(TmEqConv), [13, 46, 55, 48, 49, 0, 0, 0, 0, 0], [54, 52, 0, 0, 0, 0, 0]),
    // 57: HqI >> b[over] = b[over] : A[over]
    Conclude(Equality(TmEqRefl), [17, 37, 34, 0, 0, 0, 0, 0, 0, 0], [26, 0, 0, 0, 0, 0, 0]),
    // 58: H >> a[d] = a[d] : A[push d i0]
    Conclude(Equality(TmEqRefl), [7, 46, 48, 0, 0, 0, 0, 0, 0, 0], [45, 0, 0, 0, 0, 0, 0]),
    // 59: H >> comp A[over] q b[over] a[d] = comp L q b[over] a[d] : A[push d i1]
    Conclude(Composition(CompCong), [7, 34, 35, 11, 11, 37, 37, 46, 46, 0],
        [6, 26, 45, 54, 57, 58, 0]),
    Make(Op::I1, [0, 0, 0, 0]),
    // 61: push id i1 : H to H.I
    Conclude(Contexts(SubForm), [7, 28, 7, 60, 0, 0, 0, 0, 0, 0], [27, 0, 0, 0, 0, 0, 0]),
    Push(28, 60),
    // 63: H >> A[push d i1] = L{i1}
    Conclude(Instances(TyEqSub), [7, 62, 33, 34, 35, 0, 0, 0, 0, 0], [61, 6, 0, 0, 0, 0, 0]),
    Push(8, 60),
    Instance(25, 64),
    Instance(35, 62),
    // 67: H >> L{i1} = A[push d i1]
    Conclude(Equality(TyEqSym), [7, 65, 66, 0, 0, 0, 0, 0, 0, 0], [63, 0, 0, 0, 0, 0, 0]),
    Make(Op::Comp, [34, 11, 37, 46]),
    Make(Op::Comp, [35, 11, 37, 46]),
    // 70: H >> comp A[over] q b[over] a[d] = comp L q b[over] a[d] : L{i1}
    Conclude(Equality(TmEqConv), [7, 68, 69, 65, 66, 0, 0, 0, 0, 0], [59, 63, 0, 0, 0, 0, 0]),
};

/// The rows of what it gives: equal, turn, side, base, start.
pub static COMP_LINE_GIVES: &[u16] = &[70, 67, 38, 50, 56];
