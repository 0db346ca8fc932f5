//! Written by tools/write_recipes.py.

use recipes::Row::{
    Conclude, Derive, Instance, Make, Nil, Shift, Var, WithFace, WithName, WithVar,
};
use recipes::{Row, table};
use theory::ContextRule::{CtxName, CtxNil, CtxVar, SubId, SubWk, SubWkFace, SubWkName};
use theory::InstanceRule::{TmSub, TmVar, TySub};
use theory::NatRule::{NatU, Zero};
use theory::Op;
use theory::PathRule::PathTy;
use theory::PiRule::{App, PiTy};
use theory::RuleName::{Contexts, Instances, Naturals, Paths, Pi, Sigma, Universe};
use theory::SigmaRule::{Fst, SigTy};
use theory::UniverseRule::TyU;

/// An element of the fiber of an equivalence that is a variable is extended from a face.
pub static EXT_VARIABLE: &[Row] = table! {
    // 0: ctx []
    Conclude(Contexts(CtxNil), [0, 0, 0, 0, 0, 0, 0, 0, 0, 0], [0, 0, 0, 0, 0, 0, 0]),
    Nil,
    // 2: ctx X
    Conclude(Contexts(CtxName), [1, 0, 0, 0, 0, 0, 0, 0, 0, 0], [0, 0, 0, 0, 0, 0, 0]),
    WithName(1),
    // 4: X >> nat : U
    Conclude(Naturals(NatU), [3, 0, 0, 0, 0, 0, 0, 0, 0, 0], [2, 0, 0, 0, 0, 0, 0]),
    Make(Op::Nat, [0, 0, 0, 0]),
    // 6: X >> nat
    Conclude(Universe(TyU), [3, 5, 0, 0, 0, 0, 0, 0, 0, 0], [4, 0, 0, 0, 0, 0, 0]),
    // 7: ctx X.nat
    Conclude(Contexts(CtxVar), [3, 5, 0, 0, 0, 0, 0, 0, 0, 0], [6, 0, 0, 0, 0, 0, 0]),
    WithVar(3, 5),
    // 9: X.nat >> nat : U
    Conclude(Naturals(NatU), [8, 0, 0, 0, 0, 0, 0, 0, 0, 0], [7, 0, 0, 0, 0, 0, 0]),
    // 10: X.nat >> nat
    Conclude(Universe(TyU), [8, 5, 0, 0, 0, 0, 0, 0, 0, 0], [9, 0, 0, 0, 0, 0, 0]),
    // 11: X >> function
    Conclude(Pi(PiTy), [3, 5, 5, 0, 0, 0, 0, 0, 0, 0], [6, 10, 0, 0, 0, 0, 0]),
    Make(Op::Pi, [5, 5, 0, 0]),
    // 13: ctx F
    Conclude(Contexts(CtxVar), [3, 12, 0, 0, 0, 0, 0, 0, 0, 0], [11, 0, 0, 0, 0, 0, 0]),
    WithVar(3, 12),
    // 15: F >> nat : U
    Conclude(Naturals(NatU), [14, 0, 0, 0, 0, 0, 0, 0, 0, 0], [13, 0, 0, 0, 0, 0, 0]),
    // 16: F >> nat
    Conclude(Universe(TyU), [14, 5, 0, 0, 0, 0, 0, 0, 0, 0], [15, 0, 0, 0, 0, 0, 0]),
    // 17: ctx Y
    Conclude(Contexts(CtxVar), [14, 5, 0, 0, 0, 0, 0, 0, 0, 0], [16, 0, 0, 0, 0, 0, 0]),
    WithVar(14, 5),
    // 19: Y >> nat : U
    Conclude(Naturals(NatU), [18, 0, 0, 0, 0, 0, 0, 0, 0, 0], [17, 0, 0, 0, 0, 0, 0]),
    // 20: Y >> nat
    Conclude(Universe(TyU), [18, 5, 0, 0, 0, 0, 0, 0, 0, 0], [19, 0, 0, 0, 0, 0, 0]),
    // 21: ctx S
    Conclude(Contexts(CtxVar), [18, 5, 0, 0, 0, 0, 0, 0, 0, 0], [20, 0, 0, 0, 0, 0, 0]),
    WithVar(18, 5),
    // 23: ctx S.I
    Conclude(Contexts(CtxName), [22, 0, 0, 0, 0, 0, 0, 0, 0, 0], [21, 0, 0, 0, 0, 0, 0]),
    WithName(22),
    // 25: S.I >> nat : U
    Conclude(Naturals(NatU), [24, 0, 0, 0, 0, 0, 0, 0, 0, 0], [23, 0, 0, 0, 0, 0, 0]),
    // 26: S.I >> nat
    Conclude(Universe(TyU), [24, 5, 0, 0, 0, 0, 0, 0, 0, 0], [25, 0, 0, 0, 0, 0, 0]),
    // 27: id : F to F
    Conclude(Contexts(SubId), [14, 0, 0, 0, 0, 0, 0, 0, 0, 0], [13, 0, 0, 0, 0, 0, 0]),
    Shift(0),
    // 29: up : Y to F
    Conclude(Contexts(SubWk), [14, 28, 14, 5, 0, 0, 0, 0, 0, 0], [27, 16, 0, 0, 0, 0, 0]),
    // 30: id : Y to Y
    Conclude(Contexts(SubId), [18, 0, 0, 0, 0, 0, 0, 0, 0, 0], [17, 0, 0, 0, 0, 0, 0]),
    // 31: up : S to Y
    Conclude(Contexts(SubWk), [18, 28, 18, 5, 0, 0, 0, 0, 0, 0], [30, 20, 0, 0, 0, 0, 0]),
    // 32: F >> var 0 : function
    Conclude(Instances(TmVar), [3, 12, 0, 0, 0, 0, 0, 0, 0, 0], [11, 0, 0, 0, 0, 0, 0]),
    Shift(1),
    Var(0),
    // 35: Y >> var 1 : function
    Conclude(Instances(TmSub), [18, 33, 14, 34, 12, 0, 0, 0, 0, 0], [29, 32, 0, 0, 0, 0, 0]),
    Var(1),
    // 37: S >> var 2 : function
    Conclude(Instances(TmSub), [22, 33, 18, 36, 12, 0, 0, 0, 0, 0], [31, 35, 0, 0, 0, 0, 0]),
    // 38: Y >> var 0 : nat
    Conclude(Instances(TmVar), [14, 5, 0, 0, 0, 0, 0, 0, 0, 0], [16, 0, 0, 0, 0, 0, 0]),
    // 39: S >> var 1 : nat
    Conclude(Instances(TmSub), [22, 33, 18, 34, 5, 0, 0, 0, 0, 0], [31, 38, 0, 0, 0, 0, 0]),
    // 40: S >> var 0 : nat
    Conclude(Instances(TmVar), [18, 5, 0, 0, 0, 0, 0, 0, 0, 0], [20, 0, 0, 0, 0, 0, 0]),
    Var(2),
    // 42: S >> app (var 2) (var 0) : nat
    Conclude(Pi(App), [22, 41, 34, 5, 5, 0, 0, 0, 0, 0], [37, 40, 0, 0, 0, 0, 0]),
    Make(Op::App, [41, 34, 0, 0]),
    // 44: S >> path_y
    Conclude(Paths(PathTy), [22, 5, 36, 43, 0, 0, 0, 0, 0, 0], [26, 39, 42, 0, 0, 0, 0]),
    Make(Op::PathP, [5, 36, 43, 0]),
    // 46: Y >> fiber_y
    Conclude(Sigma(SigTy), [18, 5, 45, 0, 0, 0, 0, 0, 0, 0], [20, 44, 0, 0, 0, 0, 0]),
    Make(Op::Sig, [5, 45, 0, 0]),
    // 48: ctx C
    Conclude(Contexts(CtxVar), [18, 47, 0, 0, 0, 0, 0, 0, 0, 0], [46, 0, 0, 0, 0, 0, 0]),
    // 49: up : C to Y
    Conclude(Contexts(SubWk), [18, 28, 18, 47, 0, 0, 0, 0, 0, 0], [30, 46, 0, 0, 0, 0, 0]),
    WithVar(18, 47),
    // 51: C >> fiber_y+
    Conclude(Instances(TySub), [50, 33, 18, 47, 0, 0, 0, 0, 0, 0], [49, 46, 0, 0, 0, 0, 0]),
    Instance(47, 33),
    // 53: ctx D
    Conclude(Contexts(CtxVar), [50, 52, 0, 0, 0, 0, 0, 0, 0, 0], [51, 0, 0, 0, 0, 0, 0]),
    // 54: id : C to C
    Conclude(Contexts(SubId), [50, 0, 0, 0, 0, 0, 0, 0, 0, 0], [48, 0, 0, 0, 0, 0, 0]),
    // 55: up : D to C
    Conclude(Contexts(SubWk), [50, 28, 50, 52, 0, 0, 0, 0, 0, 0], [54, 51, 0, 0, 0, 0, 0]),
    WithVar(50, 52),
    // 57: D >> fiber_y[shift 2]
    Conclude(Instances(TySub), [56, 33, 50, 52, 0, 0, 0, 0, 0, 0], [55, 51, 0, 0, 0, 0, 0]),
    // 58: id : D to D
    Conclude(Contexts(SubId), [56, 0, 0, 0, 0, 0, 0, 0, 0, 0], [53, 0, 0, 0, 0, 0, 0]),
    // 59: up : D.I to D
    Conclude(Contexts(SubWkName), [56, 28, 56, 0, 0, 0, 0, 0, 0, 0], [58, 0, 0, 0, 0, 0, 0]),
    WithName(56),
    Shift(2),
    Instance(47, 61),
    // 63: D.I >> fiber_y[shift 3]
    Conclude(Instances(TySub), [60, 33, 56, 62, 0, 0, 0, 0, 0, 0], [59, 57, 0, 0, 0, 0, 0]),
    // 64: C >> var 0 : fiber_y+
    Conclude(Instances(TmVar), [18, 47, 0, 0, 0, 0, 0, 0, 0, 0], [46, 0, 0, 0, 0, 0, 0]),
    // 65: D >> var 1 : fiber_y[shift 2]
    Conclude(Instances(TmSub), [56, 33, 50, 34, 52, 0, 0, 0, 0, 0], [55, 64, 0, 0, 0, 0, 0]),
    // 66: D >> var 0 : fiber_y[shift 2]
    Conclude(Instances(TmVar), [50, 52, 0, 0, 0, 0, 0, 0, 0, 0], [51, 0, 0, 0, 0, 0, 0]),
    Shift(3),
    Instance(47, 67),
    // 69: D >> meets
    Conclude(Paths(PathTy), [56, 68, 36, 34, 0, 0, 0, 0, 0, 0], [63, 65, 66, 0, 0, 0, 0]),
    Make(Op::PathP, [68, 36, 34, 0]),
    // 71: C >> contractions_y
    Conclude(Pi(PiTy), [50, 52, 70, 0, 0, 0, 0, 0, 0, 0], [51, 69, 0, 0, 0, 0, 0]),
    Make(Op::Pi, [52, 70, 0, 0]),
    // 73: Y >> contractible_y
    Conclude(Sigma(SigTy), [18, 47, 72, 0, 0, 0, 0, 0, 0, 0], [46, 71, 0, 0, 0, 0, 0]),
    Make(Op::Sig, [47, 72, 0, 0]),
    // 75: F >> all_contractible
    Conclude(Pi(PiTy), [14, 5, 74, 0, 0, 0, 0, 0, 0, 0], [16, 73, 0, 0, 0, 0, 0]),
    Make(Op::Pi, [5, 74, 0, 0]),
    // 77: X >> equivalence
    Conclude(Sigma(SigTy), [3, 12, 76, 0, 0, 0, 0, 0, 0, 0], [11, 75, 0, 0, 0, 0, 0]),
    Make(Op::Sig, [12, 76, 0, 0]),
    // 79: ctx E
    Conclude(Contexts(CtxVar), [3, 78, 0, 0, 0, 0, 0, 0, 0, 0], [77, 0, 0, 0, 0, 0, 0]),
    // 80: E >> var 0 : equivalence
    Conclude(Instances(TmVar), [3, 78, 0, 0, 0, 0, 0, 0, 0, 0], [77, 0, 0, 0, 0, 0, 0]),
    WithVar(3, 78),
    // 82: E >> nat : U
    Conclude(Naturals(NatU), [81, 0, 0, 0, 0, 0, 0, 0, 0, 0], [79, 0, 0, 0, 0, 0, 0]),
    // 83: E >> nat
    Conclude(Universe(TyU), [81, 5, 0, 0, 0, 0, 0, 0, 0, 0], [82, 0, 0, 0, 0, 0, 0]),
    // 84: ctx T
    Conclude(Contexts(CtxVar), [81, 5, 0, 0, 0, 0, 0, 0, 0, 0], [83, 0, 0, 0, 0, 0, 0]),
    WithVar(81, 5),
    // 86: ctx T.I
    Conclude(Contexts(CtxName), [85, 0, 0, 0, 0, 0, 0, 0, 0, 0], [84, 0, 0, 0, 0, 0, 0]),
    WithName(85),
    // 88: T.I >> nat : U
    Conclude(Naturals(NatU), [87, 0, 0, 0, 0, 0, 0, 0, 0, 0], [86, 0, 0, 0, 0, 0, 0]),
    // 89: T.I >> nat
    Conclude(Universe(TyU), [87, 5, 0, 0, 0, 0, 0, 0, 0, 0], [88, 0, 0, 0, 0, 0, 0]),
    // 90: id : E to E
    Conclude(Contexts(SubId), [81, 0, 0, 0, 0, 0, 0, 0, 0, 0], [79, 0, 0, 0, 0, 0, 0]),
    // 91: up : T to E
    Conclude(Contexts(SubWk), [81, 28, 81, 5, 0, 0, 0, 0, 0, 0], [90, 83, 0, 0, 0, 0, 0]),
    // 92: T >> var 1 : equivalence
    Conclude(Instances(TmSub), [85, 33, 81, 34, 78, 0, 0, 0, 0, 0], [91, 80, 0, 0, 0, 0, 0]),
    // 93: T >> fst (var 1) : function
    Conclude(Sigma(Fst), [85, 36, 12, 76, 0, 0, 0, 0, 0, 0], [92, 0, 0, 0, 0, 0, 0]),
    // 94: T >> var 0 : nat
    Conclude(Instances(TmVar), [81, 5, 0, 0, 0, 0, 0, 0, 0, 0], [83, 0, 0, 0, 0, 0, 0]),
    Make(Op::Fst, [36, 0, 0, 0]),
    // 96: T >> image : nat
    Conclude(Pi(App), [85, 95, 34, 5, 5, 0, 0, 0, 0, 0], [93, 94, 0, 0, 0, 0, 0]),
    // 97: T >> zero : nat
    Conclude(Naturals(Zero), [85, 0, 0, 0, 0, 0, 0, 0, 0, 0], [84, 0, 0, 0, 0, 0, 0]),
    Make(Op::Zero, [0, 0, 0, 0]),
    Make(Op::App, [95, 34, 0, 0]),
    // 100: T >> path
    Conclude(Paths(PathTy), [85, 5, 98, 99, 0, 0, 0, 0, 0, 0], [89, 97, 96, 0, 0, 0, 0]),
    Make(Op::PathP, [5, 98, 99, 0]),
    // 102: E >> fiber
    Conclude(Sigma(SigTy), [81, 5, 101, 0, 0, 0, 0, 0, 0, 0], [83, 100, 0, 0, 0, 0, 0]),
    Make(Op::Sig, [5, 101, 0, 0]),
    // 104: ctx Z
    Conclude(Contexts(CtxVar), [81, 103, 0, 0, 0, 0, 0, 0, 0, 0], [102, 0, 0, 0, 0, 0, 0]),
    // 105: up : Z to E
    Conclude(Contexts(SubWk), [81, 28, 81, 103, 0, 0, 0, 0, 0, 0], [90, 102, 0, 0, 0, 0, 0]),
    WithVar(81, 103),
    // 107: Z >> var 1 : equivalence
    Conclude(Instances(TmSub), [106, 33, 81, 34, 78, 0, 0, 0, 0, 0], [105, 80, 0, 0, 0, 0, 0]),
    // 108: Z >> nat : U
    Conclude(Naturals(NatU), [106, 0, 0, 0, 0, 0, 0, 0, 0, 0], [104, 0, 0, 0, 0, 0, 0]),
    // 109: Z >> nat
    Conclude(Universe(TyU), [106, 5, 0, 0, 0, 0, 0, 0, 0, 0], [108, 0, 0, 0, 0, 0, 0]),
    // 110: Z >> zero : nat
    Conclude(Naturals(Zero), [106, 0, 0, 0, 0, 0, 0, 0, 0, 0], [104, 0, 0, 0, 0, 0, 0]),
    // 111: Z >> var 0 : fiber+
    Conclude(Instances(TmVar), [81, 103, 0, 0, 0, 0, 0, 0, 0, 0], [102, 0, 0, 0, 0, 0, 0]),
    // 112: id : Z to Z
    Conclude(Contexts(SubId), [106, 0, 0, 0, 0, 0, 0, 0, 0, 0], [104, 0, 0, 0, 0, 0, 0]),
    Make(Op::Eq0, [41, 0, 0, 0]),
    // 114: id : P to Z
    Conclude(Contexts(SubWkFace), [106, 28, 106, 113, 0, 0, 0, 0, 0, 0], [112, 0, 0, 0, 0, 0, 0]),
    WithFace(106, 113),
    Instance(103, 33),
    // 117: P >> var 0 : fiber+
    Conclude(Instances(TmSub), [115, 28, 106, 34, 116, 0, 0, 0, 0, 0], [114, 111, 0, 0, 0, 0, 0]),
    // 118: ext
    Derive(3, [106, 5, 5, 36, 113, 34, 98, 0, 0, 0],
        [104, 109, 109, 107, 110, 117, 0, 0, 0, 0, 0, 0, 0, 0, 0, 0]),
};

/// The rows of what it gives: typing, face.
pub static EXT_VARIABLE_GIVES: &[u16] = &[118, 119];

/// The rows of the premises of its last row: context, source, target, equivalence, point, element.
pub static EXT_VARIABLE_PREMISES: &[u16] = &[104, 109, 109, 107, 110, 117];
