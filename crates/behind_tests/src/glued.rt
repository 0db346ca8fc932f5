//! Written by tools/write_recipes.py.

use recipes::Row::{Conclude, Instance, Make, Nil, Shift, Var, WithFace, WithName, WithVar};
use recipes::{Row, table};
use theory::ContextRule::{CtxFace, CtxName, CtxNil, CtxVar, SubId, SubWk, SubWkName};
use theory::EqualityRule::{TmEqAbsurd, TmEqRefl, TmEqSym, TmEqTrans, TyEqRefl};
use theory::GlueRule::{
    Glue, GlueBeta, GlueEta, GlueFace, GlueTy, GlueTyCong, GlueTyFace, GlueU, GlueUFace, Unglue,
    UnglueCong, UnglueFace,
};
use theory::InstanceRule::{TmSub, TmVar, TySub};
use theory::NatRule::{NatRec, NatRecSuc, NatRecZero, NatU, Suc, SucCong, Zero};
use theory::Op;
use theory::PathRule::PathTy;
use theory::PiRule::{App, Lam, PiTy, PiTyCong, PiU};
use theory::RuleName::{
    Contexts, Equality, Gluing, Instances, Naturals, Paths, Pi, Sigma, Systems, Universe,
};
use theory::SigmaRule::{Fst, SigTy};
use theory::SystemRule::{EmptyTm, SysTy, SysTyLeft, SysTyRight};
use theory::UniverseRule::TyU;

/// Numbers glued on the face that is true nowhere, a system of types on both constant faces, and a
/// recursion: what the rules of Glue, systems and numbers conclude.
pub static GLUED: &[Row] = table! {
    // 0: ctx []
    Conclude(Contexts(CtxNil), [0, 0, 0, 0, 0, 0, 0, 0, 0, 0], [0, 0, 0, 0, 0, 0, 0]),
    Nil,
    Make(Op::F0, [0, 0, 0, 0]),
    // 3: ctx P
    Conclude(Contexts(CtxFace), [1, 2, 0, 0, 0, 0, 0, 0, 0, 0], [0, 0, 0, 0, 0, 0, 0]),
    WithFace(1, 2),
    // 5: P >> nat : U
    Conclude(Naturals(NatU), [4, 0, 0, 0, 0, 0, 0, 0, 0, 0], [3, 0, 0, 0, 0, 0, 0]),
    Make(Op::Nat, [0, 0, 0, 0]),
    // 7: P >> nat
    Conclude(Universe(TyU), [4, 6, 0, 0, 0, 0, 0, 0, 0, 0], [5, 0, 0, 0, 0, 0, 0]),
    // 8: ctx P.nat
    Conclude(Contexts(CtxVar), [4, 6, 0, 0, 0, 0, 0, 0, 0, 0], [7, 0, 0, 0, 0, 0, 0]),
    WithVar(4, 6),
    // 10: P.nat >> nat : U
    Conclude(Naturals(NatU), [9, 0, 0, 0, 0, 0, 0, 0, 0, 0], [8, 0, 0, 0, 0, 0, 0]),
    // 11: P.nat >> nat
    Conclude(Universe(TyU), [9, 6, 0, 0, 0, 0, 0, 0, 0, 0], [10, 0, 0, 0, 0, 0, 0]),
    // 12: P >> function
    Conclude(Pi(PiTy), [4, 6, 6, 0, 0, 0, 0, 0, 0, 0], [7, 11, 0, 0, 0, 0, 0]),
    Make(Op::Pi, [6, 6, 0, 0]),
    // 14: ctx F
    Conclude(Contexts(CtxVar), [4, 13, 0, 0, 0, 0, 0, 0, 0, 0], [12, 0, 0, 0, 0, 0, 0]),
    WithVar(4, 13),
    // 16: F >> nat : U
    Conclude(Naturals(NatU), [15, 0, 0, 0, 0, 0, 0, 0, 0, 0], [14, 0, 0, 0, 0, 0, 0]),
    // 17: F >> nat
    Conclude(Universe(TyU), [15, 6, 0, 0, 0, 0, 0, 0, 0, 0], [16, 0, 0, 0, 0, 0, 0]),
    // 18: ctx Y
    Conclude(Contexts(CtxVar), [15, 6, 0, 0, 0, 0, 0, 0, 0, 0], [17, 0, 0, 0, 0, 0, 0]),
    WithVar(15, 6),
    // 20: Y >> nat : U
    Conclude(Naturals(NatU), [19, 0, 0, 0, 0, 0, 0, 0, 0, 0], [18, 0, 0, 0, 0, 0, 0]),
    // 21: Y >> nat
    Conclude(Universe(TyU), [19, 6, 0, 0, 0, 0, 0, 0, 0, 0], [20, 0, 0, 0, 0, 0, 0]),
    // 22: ctx S
    Conclude(Contexts(CtxVar), [19, 6, 0, 0, 0, 0, 0, 0, 0, 0], [21, 0, 0, 0, 0, 0, 0]),
    WithVar(19, 6),
    // 24: ctx S.I
    Conclude(Contexts(CtxName), [23, 0, 0, 0, 0, 0, 0, 0, 0, 0], [22, 0, 0, 0, 0, 0, 0]),
    WithName(23),
    // 26: S.I >> nat : U
    Conclude(Naturals(NatU), [25, 0, 0, 0, 0, 0, 0, 0, 0, 0], [24, 0, 0, 0, 0, 0, 0]),
    // 27: S.I >> nat
    Conclude(Universe(TyU), [25, 6, 0, 0, 0, 0, 0, 0, 0, 0], [26, 0, 0, 0, 0, 0, 0]),
    // 28: id : F to F
    Conclude(Contexts(SubId), [15, 0, 0, 0, 0, 0, 0, 0, 0, 0], [14, 0, 0, 0, 0, 0, 0]),
    Shift(0),
    // 30: up : Y to F
    Conclude(Contexts(SubWk), [15, 29, 15, 6, 0, 0, 0, 0, 0, 0], [28, 17, 0, 0, 0, 0, 0]),
    // 31: id : Y to Y
    Conclude(Contexts(SubId), [19, 0, 0, 0, 0, 0, 0, 0, 0, 0], [18, 0, 0, 0, 0, 0, 0]),
    // 32: up : S to Y
    Conclude(Contexts(SubWk), [19, 29, 19, 6, 0, 0, 0, 0, 0, 0], [31, 21, 0, 0, 0, 0, 0]),
    // 33: F >> var 0 : function
    Conclude(Instances(TmVar), [4, 13, 0, 0, 0, 0, 0, 0, 0, 0], [12, 0, 0, 0, 0, 0, 0]),
    Shift(1),
    Var(0),
    // 36: Y >> var 1 : function
    Conclude(Instances(TmSub), [19, 34, 15, 35, 13, 0, 0, 0, 0, 0], [30, 33, 0, 0, 0, 0, 0]),
    Var(1),
    // 38: S >> var 2 : function
    Conclude(Instances(TmSub), [23, 34, 19, 37, 13, 0, 0, 0, 0, 0], [32, 36, 0, 0, 0, 0, 0]),
    // 39: Y >> var 0 : nat
    Conclude(Instances(TmVar), [15, 6, 0, 0, 0, 0, 0, 0, 0, 0], [17, 0, 0, 0, 0, 0, 0]),
    // 40: S >> var 1 : nat
    Conclude(Instances(TmSub), [23, 34, 19, 35, 6, 0, 0, 0, 0, 0], [32, 39, 0, 0, 0, 0, 0]),
    // 41: S >> var 0 : nat
    Conclude(Instances(TmVar), [19, 6, 0, 0, 0, 0, 0, 0, 0, 0], [21, 0, 0, 0, 0, 0, 0]),
    Var(2),
    // 43: S >> app (var 2) (var 0) : nat
    Conclude(Pi(App), [23, 42, 35, 6, 6, 0, 0, 0, 0, 0], [38, 41, 0, 0, 0, 0, 0]),
    Make(Op::App, [42, 35, 0, 0]),
    // 45: S >> path_y
    Conclude(Paths(PathTy), [23, 6, 37, 44, 0, 0, 0, 0, 0, 0], [27, 40, 43, 0, 0, 0, 0]),
    Make(Op::PathP, [6, 37, 44, 0]),
    // 47: Y >> fiber_y
    Conclude(Sigma(SigTy), [19, 6, 46, 0, 0, 0, 0, 0, 0, 0], [21, 45, 0, 0, 0, 0, 0]),
    Make(Op::Sig, [6, 46, 0, 0]),
    // 49: ctx C
    Conclude(Contexts(CtxVar), [19, 48, 0, 0, 0, 0, 0, 0, 0, 0], [47, 0, 0, 0, 0, 0, 0]),
    // 50: up : C to Y
    Conclude(Contexts(SubWk), [19, 29, 19, 48, 0, 0, 0, 0, 0, 0], [31, 47, 0, 0, 0, 0, 0]),
    WithVar(19, 48),
    // 52: C >> fiber_y+
    Conclude(Instances(TySub), [51, 34, 19, 48, 0, 0, 0, 0, 0, 0], [50, 47, 0, 0, 0, 0, 0]),
    Instance(48, 34),
    // 54: ctx D
    Conclude(Contexts(CtxVar), [51, 53, 0, 0, 0, 0, 0, 0, 0, 0], [52, 0, 0, 0, 0, 0, 0]),
    // 55: id : C to C
    Conclude(Contexts(SubId), [51, 0, 0, 0, 0, 0, 0, 0, 0, 0], [49, 0, 0, 0, 0, 0, 0]),
    // 56: up : D to C
    Conclude(Contexts(SubWk), [51, 29, 51, 53, 0, 0, 0, 0, 0, 0], [55, 52, 0, 0, 0, 0, 0]),
    WithVar(51, 53),
    // 58: D >> fiber_y[shift 2]
    Conclude(Instances(TySub), [57, 34, 51, 53, 0, 0, 0, 0, 0, 0], [56, 52, 0, 0, 0, 0, 0]),
    // 59: id : D to D
    Conclude(Contexts(SubId), [57, 0, 0, 0, 0, 0, 0, 0, 0, 0], [54, 0, 0, 0, 0, 0, 0]),
    // 60: up : D.I to D
    Conclude(Contexts(SubWkName), [57, 29, 57, 0, 0, 0, 0, 0, 0, 0], [59, 0, 0, 0, 0, 0, 0]),
    WithName(57),
    Shift(2),
    Instance(48, 62),
    // 64: D.I >> fiber_y[shift 3]
    Conclude(Instances(TySub), [61, 34, 57, 63, 0, 0, 0, 0, 0, 0], [60, 58, 0, 0, 0, 0, 0]),
    // 65: C >> var 0 : fiber_y+
    Conclude(Instances(TmVar), [19, 48, 0, 0, 0, 0, 0, 0, 0, 0], [47, 0, 0, 0, 0, 0, 0]),
    // 66: D >> var 1 : fiber_y[shift 2]
    Conclude(Instances(TmSub), [57, 34, 51, 35, 53, 0, 0, 0, 0, 0], [56, 65, 0, 0, 0, 0, 0]),
    // 67: D >> var 0 : fiber_y[shift 2]
    Conclude(Instances(TmVar), [51, 53, 0, 0, 0, 0, 0, 0, 0, 0], [52, 0, 0, 0, 0, 0, 0]),
    Shift(3),
    Instance(48, 68),
    // 70: D >> meets
    Conclude(Paths(PathTy), [57, 69, 37, 35, 0, 0, 0, 0, 0, 0], [64, 66, 67, 0, 0, 0, 0]),
    Make(Op::PathP, [69, 37, 35, 0]),
    // 72: C >> contractions_y
    Conclude(Pi(PiTy), [51, 53, 71, 0, 0, 0, 0, 0, 0, 0], [52, 70, 0, 0, 0, 0, 0]),
    Make(Op::Pi, [53, 71, 0, 0]),
    // 74: Y >> contractible_y
    Conclude(Sigma(SigTy), [19, 48, 73, 0, 0, 0, 0, 0, 0, 0], [47, 72, 0, 0, 0, 0, 0]),
    Make(Op::Sig, [48, 73, 0, 0]),
    // 76: F >> all_contractible
    Conclude(Pi(PiTy), [15, 6, 75, 0, 0, 0, 0, 0, 0, 0], [17, 74, 0, 0, 0, 0, 0]),
    Make(Op::Pi, [6, 75, 0, 0]),
    // 78: P >> equivalence
    Conclude(Sigma(SigTy), [4, 13, 77, 0, 0, 0, 0, 0, 0, 0], [12, 76, 0, 0, 0, 0, 0]),
    Make(Op::Sig, [13, 77, 0, 0]),
    // 80: P >> empty : equivalence
    Conclude(Systems(EmptyTm), [4, 79, 0, 0, 0, 0, 0, 0, 0, 0], [78, 0, 0, 0, 0, 0, 0]),
    // 81: [] >> nat : U
    Conclude(Naturals(NatU), [1, 0, 0, 0, 0, 0, 0, 0, 0, 0], [0, 0, 0, 0, 0, 0, 0]),
    // 82: [] >> nat
    Conclude(Universe(TyU), [1, 6, 0, 0, 0, 0, 0, 0, 0, 0], [81, 0, 0, 0, 0, 0, 0]),
    Make(Op::Empty, [0, 0, 0, 0]),
    // 84: [] >> glued
    Conclude(Gluing(GlueTy), [1, 6, 2, 6, 83, 0, 0, 0, 0, 0], [82, 7, 80, 0, 0, 0, 0]),
    // 85: P >> glued = nat
    Conclude(Gluing(GlueTyFace), [1, 6, 2, 6, 83, 0, 0, 0, 0, 0], [82, 7, 80, 0, 0, 0, 0]),
    // 86: [] >> glued : U
    Conclude(Gluing(GlueU), [1, 6, 2, 6, 83, 0, 0, 0, 0, 0], [81, 5, 80, 0, 0, 0, 0]),
    // 87: P >> glued = nat : U
    Conclude(Gluing(GlueUFace), [1, 6, 2, 6, 83, 0, 0, 0, 0, 0], [81, 5, 80, 0, 0, 0, 0]),
    // 88: [] >> zero : nat
    Conclude(Naturals(Zero), [1, 0, 0, 0, 0, 0, 0, 0, 0, 0], [0, 0, 0, 0, 0, 0, 0]),
    // 89: P >> zero : nat
    Conclude(Naturals(Zero), [4, 0, 0, 0, 0, 0, 0, 0, 0, 0], [3, 0, 0, 0, 0, 0, 0]),
    // 90: P >> fst empty : function
    Conclude(Sigma(Fst), [4, 83, 13, 77, 0, 0, 0, 0, 0, 0], [80, 0, 0, 0, 0, 0, 0]),
    Make(Op::Fst, [83, 0, 0, 0]),
    Make(Op::Zero, [0, 0, 0, 0]),
    // 93: P >> app (fst empty) zero : nat
    Conclude(Pi(App), [4, 91, 92, 6, 6, 0, 0, 0, 0, 0], [90, 89, 0, 0, 0, 0, 0]),
    Make(Op::App, [91, 92, 0, 0]),
    // 95: P >> app (fst empty) zero = zero : nat
    Conclude(Equality(TmEqAbsurd), [4, 94, 92, 6, 0, 0, 0, 0, 0, 0], [93, 89, 0, 0, 0, 0, 0]),
    // 96: [] >> g : glued
    Conclude(Gluing(Glue), [1, 6, 2, 6, 83, 92, 92, 0, 0, 0], [82, 7, 80, 89, 88, 95, 0]),
    // 97: P >> g = zero : nat
    Conclude(Gluing(GlueFace), [1, 6, 2, 6, 83, 92, 92, 0, 0, 0], [82, 7, 80, 89, 88, 95, 0]),
    Make(Op::Glue, [2, 92, 92, 0]),
    // 99: [] >> u : nat
    Conclude(Gluing(Unglue), [1, 6, 2, 6, 83, 98, 0, 0, 0, 0], [82, 7, 80, 96, 0, 0, 0]),
    // 100: P >> u = app (fst empty) g : nat
    Conclude(Gluing(UnglueFace), [1, 6, 2, 6, 83, 98, 0, 0, 0, 0], [82, 7, 80, 96, 0, 0, 0]),
    // 101: [] >> u = zero : nat
    Conclude(Gluing(GlueBeta), [1, 6, 2, 6, 83, 92, 92, 0, 0, 0], [82, 7, 80, 89, 88, 95, 0]),
    Make(Op::Unglue, [2, 6, 83, 98]),
    // 103: [] >> u = u : nat
    Conclude(Equality(TmEqRefl), [1, 102, 6, 0, 0, 0, 0, 0, 0, 0], [99, 0, 0, 0, 0, 0, 0]),
    // 104: P >> zero = g : nat
    Conclude(Equality(TmEqSym), [4, 98, 92, 6, 0, 0, 0, 0, 0, 0], [97, 0, 0, 0, 0, 0, 0]),
    // 105: P >> g = g : nat
    Conclude(Equality(TmEqTrans), [4, 98, 92, 98, 6, 0, 0, 0, 0, 0], [97, 104, 0, 0, 0, 0, 0]),
    // 106: [] >> g = g : glued
    Conclude(Gluing(GlueEta), [1, 6, 2, 6, 83, 98, 98, 0, 0, 0], [82, 7, 80, 96, 96, 103, 105]),
    // 107: [] >> nat = nat
    Conclude(Equality(TyEqRefl), [1, 6, 0, 0, 0, 0, 0, 0, 0, 0], [82, 0, 0, 0, 0, 0, 0]),
    // 108: P >> nat = nat
    Conclude(Equality(TyEqRefl), [4, 6, 0, 0, 0, 0, 0, 0, 0, 0], [7, 0, 0, 0, 0, 0, 0]),
    // 109: P >> empty = empty : equivalence
    Conclude(Equality(TmEqRefl), [4, 83, 79, 0, 0, 0, 0, 0, 0, 0], [80, 0, 0, 0, 0, 0, 0]),
    // 110: [] >> glued = glued
    Conclude(Gluing(GlueTyCong), [1, 6, 6, 2, 2, 6, 6, 83, 83, 0], [107, 108, 109, 0, 0, 0, 0]),
    // 111: [] >> u = u : nat
    Conclude(Gluing(UnglueCong), [1, 6, 2, 6, 83, 2, 6, 83, 98, 98], [82, 7, 80, 108, 109, 106, 0]),
    Make(Op::F1, [0, 0, 0, 0]),
    // 113: ctx Q
    Conclude(Contexts(CtxFace), [1, 112, 0, 0, 0, 0, 0, 0, 0, 0], [0, 0, 0, 0, 0, 0, 0]),
    WithFace(1, 112),
    // 115: Q >> nat : U
    Conclude(Naturals(NatU), [114, 0, 0, 0, 0, 0, 0, 0, 0, 0], [113, 0, 0, 0, 0, 0, 0]),
    // 116: Q >> nat
    Conclude(Universe(TyU), [114, 6, 0, 0, 0, 0, 0, 0, 0, 0], [115, 0, 0, 0, 0, 0, 0]),
    // 117: ctx R
    Conclude(Contexts(CtxFace), [4, 112, 0, 0, 0, 0, 0, 0, 0, 0], [3, 0, 0, 0, 0, 0, 0]),
    WithFace(4, 112),
    // 119: R >> nat : U
    Conclude(Naturals(NatU), [118, 0, 0, 0, 0, 0, 0, 0, 0, 0], [117, 0, 0, 0, 0, 0, 0]),
    // 120: R >> nat
    Conclude(Universe(TyU), [118, 6, 0, 0, 0, 0, 0, 0, 0, 0], [119, 0, 0, 0, 0, 0, 0]),
    // 121: R >> nat = nat
    Conclude(Equality(TyEqRefl), [118, 6, 0, 0, 0, 0, 0, 0, 0, 0], [120, 0, 0, 0, 0, 0, 0]),
    // 122: [] >> split
    Conclude(Systems(SysTy), [1, 2, 112, 6, 6, 0, 0, 0, 0, 0], [7, 116, 121, 0, 0, 0, 0]),
    // 123: P >> split = nat
    Conclude(Systems(SysTyLeft), [1, 2, 112, 6, 6, 0, 0, 0, 0, 0], [7, 116, 121, 0, 0, 0, 0]),
    // 124: Q >> split = nat
    Conclude(Systems(SysTyRight), [1, 2, 112, 6, 6, 0, 0, 0, 0, 0], [7, 116, 121, 0, 0, 0, 0]),
    // 125: ctx M
    Conclude(Contexts(CtxVar), [1, 6, 0, 0, 0, 0, 0, 0, 0, 0], [82, 0, 0, 0, 0, 0, 0]),
    WithVar(1, 6),
    // 127: M >> nat : U
    Conclude(Naturals(NatU), [126, 0, 0, 0, 0, 0, 0, 0, 0, 0], [125, 0, 0, 0, 0, 0, 0]),
    // 128: M >> nat
    Conclude(Universe(TyU), [126, 6, 0, 0, 0, 0, 0, 0, 0, 0], [127, 0, 0, 0, 0, 0, 0]),
    // 129: ctx N
    Conclude(Contexts(CtxVar), [126, 6, 0, 0, 0, 0, 0, 0, 0, 0], [128, 0, 0, 0, 0, 0, 0]),
    // 130: M >> var 0 : nat
    Conclude(Instances(TmVar), [1, 6, 0, 0, 0, 0, 0, 0, 0, 0], [82, 0, 0, 0, 0, 0, 0]),
    // 131: N >> var 0 : nat
    Conclude(Instances(TmVar), [126, 6, 0, 0, 0, 0, 0, 0, 0, 0], [128, 0, 0, 0, 0, 0, 0]),
    WithVar(126, 6),
    // 133: N >> suc (var 0) : nat
    Conclude(Naturals(Suc), [132, 35, 0, 0, 0, 0, 0, 0, 0, 0], [131, 0, 0, 0, 0, 0, 0]),
    Make(Op::Suc, [35, 0, 0, 0]),
    // 135: M >> next : pi nat nat
    Conclude(Pi(Lam), [126, 6, 134, 6, 0, 0, 0, 0, 0, 0], [128, 133, 0, 0, 0, 0, 0]),
    Make(Op::Lam, [6, 134, 0, 0]),
    // 137: [] >> step : pi nat (pi nat nat)
    Conclude(Pi(Lam), [1, 6, 136, 13, 0, 0, 0, 0, 0, 0], [82, 135, 0, 0, 0, 0, 0]),
    Make(Op::Lam, [6, 136, 0, 0]),
    // 139: [] >> natrec nat zero step zero : nat
    Conclude(Naturals(NatRec), [1, 6, 92, 138, 92, 0, 0, 0, 0, 0], [128, 88, 137, 88, 0, 0, 0]),
    // 140: [] >> natrec nat zero step zero = zero : nat
    Conclude(Naturals(NatRecZero), [1, 6, 92, 138, 0, 0, 0, 0, 0, 0], [128, 88, 137, 0, 0, 0, 0]),
    // 141: [] >> natrec nat zero step (suc zero) = app (app step zero) (natrec nat zero step zero)
    //   : nat
    Conclude(Naturals(NatRecSuc), [1, 6, 92, 138, 92, 0, 0, 0, 0, 0], [128, 88, 137, 88, 0, 0, 0]),
    // 142: [] >> zero = zero : nat
    Conclude(Equality(TmEqRefl), [1, 92, 6, 0, 0, 0, 0, 0, 0, 0], [88, 0, 0, 0, 0, 0, 0]),
    // 143: [] >> suc zero = suc zero : nat
    Conclude(Naturals(SucCong), [1, 92, 92, 0, 0, 0, 0, 0, 0, 0], [142, 0, 0, 0, 0, 0, 0]),
    // 144: [] >> pi nat nat : U
    Conclude(Pi(PiU), [1, 6, 6, 0, 0, 0, 0, 0, 0, 0], [81, 127, 0, 0, 0, 0, 0]),
    // 145: M >> nat = nat
    Conclude(Equality(TyEqRefl), [126, 6, 0, 0, 0, 0, 0, 0, 0, 0], [128, 0, 0, 0, 0, 0, 0]),
    // 146: [] >> pi nat nat = pi nat nat
    Conclude(Pi(PiTyCong), [1, 6, 6, 6, 6, 0, 0, 0, 0, 0], [107, 145, 0, 0, 0, 0, 0]),
};

/// The rows of what it gives: unglued, recursion.
pub static GLUED_GIVES: &[u16] = &[101, 140];
