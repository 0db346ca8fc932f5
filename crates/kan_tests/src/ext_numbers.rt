//! Written by tools/write_recipes.py.

use recipes::Row::{
    Conclude, Derive, Instance, Make, Nil, Push, Shift, Then, Var, WithFace, WithName, WithVar,
};
use recipes::{Row, table};
use theory::ContextRule::{
    CtxName, CtxNil, CtxVar, SubForm, SubId, SubVar, SubWk, SubWkFace, SubWkName,
};
use theory::EqualityRule::{TmConv, TmEqRefl, TmEqSym, TmEqTrans, TyEqRefl};
use theory::InstanceRule::{TmEqSub, TmInt, TmSub, TmVar, TySub};
use theory::NatRule::{NatU, Zero};
use theory::Op;
use theory::PathRule::{
    PApp, PAppCong, PLam, PathBeta, PathEta, PathLeft, PathRight, PathTy, PathTyCong,
};
use theory::PiRule::{App, AppCong, Lam, PiBeta, PiTy};
use theory::RuleName::{Contexts, Equality, Instances, Naturals, Paths, Pi, Sigma, Universe};
use theory::SigmaRule::{Fst, Pair, SigBeta1, SigBeta2, SigEta, SigTy, Snd};
use theory::UniverseRule::TyU;

/// The identity of the numbers is an equivalence: each fiber contracts to a number and its constant
/// path. An element of a fiber is extended from a face.
pub static EXT_NUMBERS: &[Row] = table! {
    // 0: ctx []
    Conclude(Contexts(CtxNil), [0, 0, 0, 0, 0, 0, 0, 0, 0, 0], [0, 0, 0, 0, 0, 0, 0]),
    Nil,
    // 2: ctx X
    Conclude(Contexts(CtxName), [1, 0, 0, 0, 0, 0, 0, 0, 0, 0], [0, 0, 0, 0, 0, 0, 0]),
    WithName(1),
    // 4: X >> nat : U
    Conclude(Naturals(NatU), [3, 0, 0, 0, 0, 0, 0, 0, 0, 0], [2, 0, 0, 0, 0, 0, 0]),
    Make(Op::Nat, [0, 0, 0, 0]),
    // 6: X >> nat
    Conclude(Universe(TyU), [3, 5, 0, 0, 0, 0, 0, 0, 0, 0], [4, 0, 0, 0, 0, 0, 0]),
    // 7: ctx X.nat
    Conclude(Contexts(CtxVar), [3, 5, 0, 0, 0, 0, 0, 0, 0, 0], [6, 0, 0, 0, 0, 0, 0]),
    WithVar(3, 5),
    // 9: X.nat >> nat : U
    Conclude(Naturals(NatU), [8, 0, 0, 0, 0, 0, 0, 0, 0, 0], [7, 0, 0, 0, 0, 0, 0]),
    // 10: X.nat >> nat
    Conclude(Universe(TyU), [8, 5, 0, 0, 0, 0, 0, 0, 0, 0], [9, 0, 0, 0, 0, 0, 0]),
    // 11: X >> function
    Conclude(Pi(PiTy), [3, 5, 5, 0, 0, 0, 0, 0, 0, 0], [6, 10, 0, 0, 0, 0, 0]),
    Make(Op::Pi, [5, 5, 0, 0]),
    // 13: ctx F
    Conclude(Contexts(CtxVar), [3, 12, 0, 0, 0, 0, 0, 0, 0, 0], [11, 0, 0, 0, 0, 0, 0]),
    WithVar(3, 12),
    // 15: F >> nat : U
    Conclude(Naturals(NatU), [14, 0, 0, 0, 0, 0, 0, 0, 0, 0], [13, 0, 0, 0, 0, 0, 0]),
    // 16: F >> nat
    Conclude(Universe(TyU), [14, 5, 0, 0, 0, 0, 0, 0, 0, 0], [15, 0, 0, 0, 0, 0, 0]),
    // 17: ctx Y
    Conclude(Contexts(CtxVar), [14, 5, 0, 0, 0, 0, 0, 0, 0, 0], [16, 0, 0, 0, 0, 0, 0]),
    WithVar(14, 5),
    // 19: Y >> nat : U
    Conclude(Naturals(NatU), [18, 0, 0, 0, 0, 0, 0, 0, 0, 0], [17, 0, 0, 0, 0, 0, 0]),
    // 20: Y >> nat
    Conclude(Universe(TyU), [18, 5, 0, 0, 0, 0, 0, 0, 0, 0], [19, 0, 0, 0, 0, 0, 0]),
    // 21: ctx S
    Conclude(Contexts(CtxVar), [18, 5, 0, 0, 0, 0, 0, 0, 0, 0], [20, 0, 0, 0, 0, 0, 0]),
    WithVar(18, 5),
    // 23: ctx S.I
    Conclude(Contexts(CtxName), [22, 0, 0, 0, 0, 0, 0, 0, 0, 0], [21, 0, 0, 0, 0, 0, 0]),
    WithName(22),
    // 25: S.I >> nat : U
    Conclude(Naturals(NatU), [24, 0, 0, 0, 0, 0, 0, 0, 0, 0], [23, 0, 0, 0, 0, 0, 0]),
    // 26: S.I >> nat
    Conclude(Universe(TyU), [24, 5, 0, 0, 0, 0, 0, 0, 0, 0], [25, 0, 0, 0, 0, 0, 0]),
    // 27: id : F to F
    Conclude(Contexts(SubId), [14, 0, 0, 0, 0, 0, 0, 0, 0, 0], [13, 0, 0, 0, 0, 0, 0]),
    Shift(0),
    // 29: up : Y to F
    Conclude(Contexts(SubWk), [14, 28, 14, 5, 0, 0, 0, 0, 0, 0], [27, 16, 0, 0, 0, 0, 0]),
    // 30: id : Y to Y
    Conclude(Contexts(SubId), [18, 0, 0, 0, 0, 0, 0, 0, 0, 0], [17, 0, 0, 0, 0, 0, 0]),
    // 31: up : S to Y
    Conclude(Contexts(SubWk), [18, 28, 18, 5, 0, 0, 0, 0, 0, 0], [30, 20, 0, 0, 0, 0, 0]),
    // 32: F >> var 0 : function
    Conclude(Instances(TmVar), [3, 12, 0, 0, 0, 0, 0, 0, 0, 0], [11, 0, 0, 0, 0, 0, 0]),
    Shift(1),
    Var(0),
    // 35: Y >> var 1 : function
    Conclude(Instances(TmSub), [18, 33, 14, 34, 12, 0, 0, 0, 0, 0], [29, 32, 0, 0, 0, 0, 0]),
    Var(1),
    // 37: S >> var 2 : function
    Conclude(Instances(TmSub), [22, 33, 18, 36, 12, 0, 0, 0, 0, 0], [31, 35, 0, 0, 0, 0, 0]),
    // 38: Y >> var 0 : nat
    Conclude(Instances(TmVar), [14, 5, 0, 0, 0, 0, 0, 0, 0, 0], [16, 0, 0, 0, 0, 0, 0]),
    // 39: S >> var 1 : nat
    Conclude(Instances(TmSub), [22, 33, 18, 34, 5, 0, 0, 0, 0, 0], [31, 38, 0, 0, 0, 0, 0]),
    // 40: S >> var 0 : nat
    Conclude(Instances(TmVar), [18, 5, 0, 0, 0, 0, 0, 0, 0, 0], [20, 0, 0, 0, 0, 0, 0]),
    Var(2),
    // 42: S >> app (var 2) (var 0) : nat
    Conclude(Pi(App), [22, 41, 34, 5, 5, 0, 0, 0, 0, 0], [37, 40, 0, 0, 0, 0, 0]),
    Make(Op::App, [41, 34, 0, 0]),
    // 44: S >> path_y
    Conclude(Paths(PathTy), [22, 5, 36, 43, 0, 0, 0, 0, 0, 0], [26, 39, 42, 0, 0, 0, 0]),
    Make(Op::PathP, [5, 36, 43, 0]),
    // 46: Y >> fiber_y
    Conclude(Sigma(SigTy), [18, 5, 45, 0, 0, 0, 0, 0, 0, 0], [20, 44, 0, 0, 0, 0, 0]),
    Make(Op::Sig, [5, 45, 0, 0]),
    // 48: ctx C
    Conclude(Contexts(CtxVar), [18, 47, 0, 0, 0, 0, 0, 0, 0, 0], [46, 0, 0, 0, 0, 0, 0]),
    // 49: up : C to Y
    Conclude(Contexts(SubWk), [18, 28, 18, 47, 0, 0, 0, 0, 0, 0], [30, 46, 0, 0, 0, 0, 0]),
    WithVar(18, 47),
    // 51: C >> fiber_y+
    Conclude(Instances(TySub), [50, 33, 18, 47, 0, 0, 0, 0, 0, 0], [49, 46, 0, 0, 0, 0, 0]),
    Instance(47, 33),
    // 53: ctx D
    Conclude(Contexts(CtxVar), [50, 52, 0, 0, 0, 0, 0, 0, 0, 0], [51, 0, 0, 0, 0, 0, 0]),
    // 54: id : C to C
    Conclude(Contexts(SubId), [50, 0, 0, 0, 0, 0, 0, 0, 0, 0], [48, 0, 0, 0, 0, 0, 0]),
    // 55: up : D to C
    Conclude(Contexts(SubWk), [50, 28, 50, 52, 0, 0, 0, 0, 0, 0], [54, 51, 0, 0, 0, 0, 0]),
    WithVar(50, 52),
    // 57: D >> fiber_y[shift 2]
    Conclude(Instances(TySub), [56, 33, 50, 52, 0, 0, 0, 0, 0, 0], [55, 51, 0, 0, 0, 0, 0]),
    // 58: id : D to D
    Conclude(Contexts(SubId), [56, 0, 0, 0, 0, 0, 0, 0, 0, 0], [53, 0, 0, 0, 0, 0, 0]),
    // 59: up : D.I to D
    Conclude(Contexts(SubWkName), [56, 28, 56, 0, 0, 0, 0, 0, 0, 0], [58, 0, 0, 0, 0, 0, 0]),
    WithName(56),
    Shift(2),
    Instance(47, 61),
    // 63: D.I >> fiber_y[shift 3]
    Conclude(Instances(TySub), [60, 33, 56, 62, 0, 0, 0, 0, 0, 0], [59, 57, 0, 0, 0, 0, 0]),
    // 64: C >> var 0 : fiber_y+
    Conclude(Instances(TmVar), [18, 47, 0, 0, 0, 0, 0, 0, 0, 0], [46, 0, 0, 0, 0, 0, 0]),
    // 65: D >> var 1 : fiber_y[shift 2]
    Conclude(Instances(TmSub), [56, 33, 50, 34, 52, 0, 0, 0, 0, 0], [55, 64, 0, 0, 0, 0, 0]),
    // 66: D >> var 0 : fiber_y[shift 2]
    Conclude(Instances(TmVar), [50, 52, 0, 0, 0, 0, 0, 0, 0, 0], [51, 0, 0, 0, 0, 0, 0]),
    Shift(3),
    Instance(47, 67),
    // 69: D >> meets
    Conclude(Paths(PathTy), [56, 68, 36, 34, 0, 0, 0, 0, 0, 0], [63, 65, 66, 0, 0, 0, 0]),
    Make(Op::PathP, [68, 36, 34, 0]),
    // 71: C >> contractions_y
    Conclude(Pi(PiTy), [50, 52, 70, 0, 0, 0, 0, 0, 0, 0], [51, 69, 0, 0, 0, 0, 0]),
    Make(Op::Pi, [52, 70, 0, 0]),
    // 73: Y >> contractible_y
    Conclude(Sigma(SigTy), [18, 47, 72, 0, 0, 0, 0, 0, 0, 0], [46, 71, 0, 0, 0, 0, 0]),
    Make(Op::Sig, [47, 72, 0, 0]),
    // 75: F >> all_contractible
    Conclude(Pi(PiTy), [14, 5, 74, 0, 0, 0, 0, 0, 0, 0], [16, 73, 0, 0, 0, 0, 0]),
    // 76: V >> var 0 : nat
    Conclude(Instances(TmVar), [3, 5, 0, 0, 0, 0, 0, 0, 0, 0], [6, 0, 0, 0, 0, 0, 0]),
    // 77: id : X to X
    Conclude(Contexts(SubId), [3, 0, 0, 0, 0, 0, 0, 0, 0, 0], [2, 0, 0, 0, 0, 0, 0]),
    // 78: up : V to X
    Conclude(Contexts(SubWk), [3, 28, 3, 5, 0, 0, 0, 0, 0, 0], [77, 6, 0, 0, 0, 0, 0]),
    // 79: N >> var 0 : nat
    Conclude(Instances(TmVar), [8, 5, 0, 0, 0, 0, 0, 0, 0, 0], [10, 0, 0, 0, 0, 0, 0]),
    // 80: V >> same : function
    Conclude(Pi(Lam), [8, 5, 34, 5, 0, 0, 0, 0, 0, 0], [10, 79, 0, 0, 0, 0, 0]),
    Make(Op::Lam, [5, 34, 0, 0]),
    // 82: push up same : V to F
    Conclude(Contexts(SubVar), [8, 33, 3, 12, 81, 0, 0, 0, 0, 0], [78, 11, 80, 0, 0, 0, 0]),
    Push(33, 81),
    // 84: to_y : V to Y
    Conclude(Contexts(SubVar), [8, 83, 14, 5, 34, 0, 0, 0, 0, 0], [82, 16, 76, 0, 0, 0, 0]),
    Push(83, 34),
    // 86: V >> fib
    Conclude(Instances(TySub), [8, 85, 18, 47, 0, 0, 0, 0, 0, 0], [84, 46, 0, 0, 0, 0, 0]),
    Make(Op::App, [81, 34, 0, 0]),
    Make(Op::PathP, [5, 36, 87, 0]),
    Make(Op::Sig, [5, 88, 0, 0]),
    // 90: ctx W
    Conclude(Contexts(CtxVar), [8, 89, 0, 0, 0, 0, 0, 0, 0, 0], [86, 0, 0, 0, 0, 0, 0]),
    // 91: to_y then up : W to Y
    Conclude(Contexts(SubWk), [8, 85, 18, 89, 0, 0, 0, 0, 0, 0], [84, 86, 0, 0, 0, 0, 0]),
    // 92: W >> var 0 : fib+
    Conclude(Instances(TmVar), [8, 89, 0, 0, 0, 0, 0, 0, 0, 0], [86, 0, 0, 0, 0, 0, 0]),
    WithVar(8, 89),
    Then(85, 33),
    // 95: push (to_y then up) (var 0) : W to C
    Conclude(Contexts(SubVar), [93, 94, 18, 47, 34, 0, 0, 0, 0, 0], [91, 46, 92, 0, 0, 0, 0]),
    Push(94, 34),
    // 97: W >> contractions
    Conclude(Instances(TySub), [93, 96, 50, 72, 0, 0, 0, 0, 0, 0], [95, 71, 0, 0, 0, 0, 0]),
    // 98: to_y then up : N to Y
    Conclude(Contexts(SubWk), [8, 85, 18, 5, 0, 0, 0, 0, 0, 0], [84, 10, 0, 0, 0, 0, 0]),
    WithVar(8, 5),
    // 100: push (to_y then up) (var 0) : N to S
    Conclude(Contexts(SubVar), [99, 94, 18, 5, 34, 0, 0, 0, 0, 0], [98, 20, 79, 0, 0, 0, 0]),
    // 101: N >> p_v
    Conclude(Instances(TySub), [99, 96, 22, 45, 0, 0, 0, 0, 0, 0], [100, 44, 0, 0, 0, 0, 0]),
    // 102: id : V to V
    Conclude(Contexts(SubId), [8, 0, 0, 0, 0, 0, 0, 0, 0, 0], [7, 0, 0, 0, 0, 0, 0]),
    // 103: up : V.I to V
    Conclude(Contexts(SubWkName), [8, 28, 8, 0, 0, 0, 0, 0, 0, 0], [102, 0, 0, 0, 0, 0, 0]),
    WithName(8),
    // 105: V.I >> var 1 : nat
    Conclude(Instances(TmSub), [104, 33, 8, 34, 5, 0, 0, 0, 0, 0], [103, 76, 0, 0, 0, 0, 0]),
    // 106: V >> var 0 = var 0 : nat
    Conclude(Equality(TmEqRefl), [8, 34, 5, 0, 0, 0, 0, 0, 0, 0], [76, 0, 0, 0, 0, 0, 0]),
    // 107: V >> app same (var 0) = var 0 : nat
    Conclude(Pi(PiBeta), [8, 5, 34, 34, 5, 0, 0, 0, 0, 0], [79, 76, 0, 0, 0, 0, 0]),
    // 108: V >> var 0 = app same (var 0) : nat
    Conclude(Equality(TmEqSym), [8, 87, 34, 5, 0, 0, 0, 0, 0, 0], [107, 0, 0, 0, 0, 0, 0]),
    // 109: V >> plam (var 1) : pathp nat (var 0) (app same (var 0))
    Conclude(Paths(PLam), [8, 5, 36, 34, 87, 0, 0, 0, 0, 0], [105, 106, 108, 0, 0, 0, 0]),
    Make(Op::PLam, [36, 0, 0, 0]),
    // 111: V >> centre : fib
    Conclude(Sigma(Pair), [8, 34, 110, 5, 88, 0, 0, 0, 0, 0], [101, 76, 109, 0, 0, 0, 0]),
    Make(Op::PathP, [5, 41, 87, 0]),
    // 113: W >> fst (var 0) : nat
    Conclude(Sigma(Fst), [93, 34, 5, 112, 0, 0, 0, 0, 0, 0], [92, 0, 0, 0, 0, 0, 0]),
    // 114: W >> snd (var 0) : line_w
    Conclude(Sigma(Snd), [93, 34, 5, 112, 0, 0, 0, 0, 0, 0], [92, 0, 0, 0, 0, 0, 0]),
    // 115: ctx K
    Conclude(Contexts(CtxName), [93, 0, 0, 0, 0, 0, 0, 0, 0, 0], [90, 0, 0, 0, 0, 0, 0]),
    // 116: id : W to W
    Conclude(Contexts(SubId), [93, 0, 0, 0, 0, 0, 0, 0, 0, 0], [90, 0, 0, 0, 0, 0, 0]),
    // 117: up : K to W
    Conclude(Contexts(SubWkName), [93, 28, 93, 0, 0, 0, 0, 0, 0, 0], [116, 0, 0, 0, 0, 0, 0]),
    WithName(93),
    Make(Op::Snd, [34, 0, 0, 0]),
    Make(Op::Fst, [34, 0, 0, 0]),
    Make(Op::App, [81, 120, 0, 0]),
    Make(Op::PathP, [5, 36, 121, 0]),
    // 123: K >> snd (var 1) : line_w+
    Conclude(Instances(TmSub), [118, 33, 93, 119, 122, 0, 0, 0, 0, 0], [117, 114, 0, 0, 0, 0, 0]),
    // 124: id : K to K
    Conclude(Contexts(SubId), [118, 0, 0, 0, 0, 0, 0, 0, 0, 0], [115, 0, 0, 0, 0, 0, 0]),
    // 125: up : L to K
    Conclude(Contexts(SubWkName), [118, 28, 118, 0, 0, 0, 0, 0, 0, 0], [124, 0, 0, 0, 0, 0, 0]),
    WithName(118),
    Make(Op::Snd, [36, 0, 0, 0]),
    Instance(122, 33),
    // 129: L >> snd (var 2) : line_w[shift 2]
    Conclude(Instances(TmSub), [126, 33, 118, 127, 128, 0, 0, 0, 0, 0], [125, 123, 0, 0, 0, 0, 0]),
    Instance(121, 33),
    // 131: K >> at_k : nat
    Conclude(Paths(PApp), [118, 127, 34, 5, 41, 130, 0, 0, 0, 0], [123, 0, 0, 0, 0, 0, 0]),
    Make(Op::Snd, [41, 0, 0, 0]),
    Make(Op::Min, [36, 34, 0, 0]),
    Var(3),
    Instance(121, 61),
    // 136: L >> below : nat
    Conclude(Paths(PApp), [126, 132, 133, 5, 134, 135, 0, 0, 0, 0], [129, 0, 0, 0, 0, 0, 0]),
    // 137: L >> along : nat
    Conclude(Paths(PApp), [126, 132, 34, 5, 134, 135, 0, 0, 0, 0], [129, 0, 0, 0, 0, 0, 0]),
    Make(Op::I0, [0, 0, 0, 0]),
    // 139: push id i0 : K to L
    Conclude(Contexts(SubForm), [118, 28, 118, 138, 0, 0, 0, 0, 0, 0], [124, 0, 0, 0, 0, 0, 0]),
    Make(Op::Min, [34, 138, 0, 0]),
    // 141: push id (min (var 0) i0) : K to L
    Conclude(Contexts(SubForm), [118, 28, 118, 140, 0, 0, 0, 0, 0, 0], [124, 0, 0, 0, 0, 0, 0]),
    Push(28, 140),
    Push(28, 138),
    Make(Op::PApp, [132, 34, 0, 0]),
    // 145: K >> below{i0} = start : nat
    Conclude(Instances(TmInt), [118, 142, 143, 126, 144, 5, 0, 0, 0, 0],
        [141, 139, 137, 0, 0, 0, 0]),
    // 146: K >> start = var 2 : nat
    Conclude(Paths(PathLeft), [118, 127, 5, 41, 130, 0, 0, 0, 0, 0], [123, 0, 0, 0, 0, 0, 0]),
    Make(Op::PApp, [132, 133, 0, 0]),
    Instance(147, 143),
    Make(Op::PApp, [127, 138, 0, 0]),
    // 150: K >> below{i0} = var 2 : nat
    Conclude(Equality(TmEqTrans), [118, 148, 149, 41, 5, 0, 0, 0, 0, 0], [145, 146, 0, 0, 0, 0, 0]),
    Make(Op::I1, [0, 0, 0, 0]),
    Make(Op::Min, [34, 151, 0, 0]),
    // 153: push id (min (var 0) i1) : K to L
    Conclude(Contexts(SubForm), [118, 28, 118, 152, 0, 0, 0, 0, 0, 0], [124, 0, 0, 0, 0, 0, 0]),
    // 154: push id (var 0) : K to L
    Conclude(Contexts(SubForm), [118, 28, 118, 34, 0, 0, 0, 0, 0, 0], [124, 0, 0, 0, 0, 0, 0]),
    Push(28, 152),
    Push(28, 34),
    // 157: K >> below{i1} = at_k : nat
    Conclude(Instances(TmInt), [118, 155, 156, 126, 144, 5, 0, 0, 0, 0],
        [153, 154, 137, 0, 0, 0, 0]),
    // 158: K >> nat : U
    Conclude(Naturals(NatU), [118, 0, 0, 0, 0, 0, 0, 0, 0, 0], [115, 0, 0, 0, 0, 0, 0]),
    // 159: K >> nat
    Conclude(Universe(TyU), [118, 5, 0, 0, 0, 0, 0, 0, 0, 0], [158, 0, 0, 0, 0, 0, 0]),
    // 160: K.nat >> var 0 : nat
    Conclude(Instances(TmVar), [118, 5, 0, 0, 0, 0, 0, 0, 0, 0], [159, 0, 0, 0, 0, 0, 0]),
    Make(Op::PApp, [127, 34, 0, 0]),
    // 162: K >> app same at_k = at_k : nat
    Conclude(Pi(PiBeta), [118, 5, 34, 161, 5, 0, 0, 0, 0, 0], [160, 131, 0, 0, 0, 0, 0]),
    Make(Op::App, [81, 161, 0, 0]),
    // 164: K >> at_k = app same at_k : nat
    Conclude(Equality(TmEqSym), [118, 163, 161, 5, 0, 0, 0, 0, 0, 0], [162, 0, 0, 0, 0, 0, 0]),
    Push(28, 151),
    Instance(147, 165),
    // 167: K >> below{i1} = app same at_k : nat
    Conclude(Equality(TmEqTrans), [118, 166, 161, 163, 5, 0, 0, 0, 0, 0],
        [157, 164, 0, 0, 0, 0, 0]),
    // 168: K >> plam below : pathp nat (var 2) (app same at_k)
    Conclude(Paths(PLam), [118, 5, 147, 41, 163, 0, 0, 0, 0, 0], [136, 150, 167, 0, 0, 0, 0]),
    // 169: up : W to V
    Conclude(Contexts(SubWk), [8, 28, 8, 89, 0, 0, 0, 0, 0, 0], [102, 86, 0, 0, 0, 0, 0]),
    // 170: shift 2 : K to V
    Conclude(Contexts(SubWkName), [93, 33, 8, 0, 0, 0, 0, 0, 0, 0], [169, 0, 0, 0, 0, 0, 0]),
    // 171: shift 3 : K.nat to V
    Conclude(Contexts(SubWk), [118, 61, 8, 5, 0, 0, 0, 0, 0, 0], [170, 159, 0, 0, 0, 0, 0]),
    WithVar(118, 5),
    // 173: push (shift 3) (var 0) : K.nat to N
    Conclude(Contexts(SubVar), [172, 67, 8, 5, 34, 0, 0, 0, 0, 0], [171, 10, 160, 0, 0, 0, 0]),
    Push(67, 34),
    // 175: K.nat >> p_v[push (shift 3) (var 0)]
    Conclude(Instances(TySub), [172, 174, 99, 88, 0, 0, 0, 0, 0, 0], [173, 101, 0, 0, 0, 0, 0]),
    Make(Op::PLam, [147, 0, 0, 0]),
    Instance(88, 174),
    // 178: K >> el : fib[shift 2]
    Conclude(Sigma(Pair), [118, 161, 176, 5, 177, 0, 0, 0, 0, 0], [175, 131, 168, 0, 0, 0, 0]),
    // 179: push id i0 : W to K
    Conclude(Contexts(SubForm), [93, 28, 93, 138, 0, 0, 0, 0, 0, 0], [116, 0, 0, 0, 0, 0, 0]),
    // 180: push id i1 : W to K
    Conclude(Contexts(SubForm), [93, 28, 93, 151, 0, 0, 0, 0, 0, 0], [116, 0, 0, 0, 0, 0, 0]),
    Make(Op::Pair, [161, 176, 0, 0]),
    Instance(89, 61),
    // 183: W >> el0 : fib+
    Conclude(Instances(TmSub), [93, 143, 118, 181, 182, 0, 0, 0, 0, 0], [179, 178, 0, 0, 0, 0, 0]),
    // 184: W >> el1 : fib+
    Conclude(Instances(TmSub), [93, 165, 118, 181, 182, 0, 0, 0, 0, 0], [180, 178, 0, 0, 0, 0, 0]),
    Make(Op::Pair, [34, 110, 0, 0]),
    // 186: W >> centre+ : fib+
    Conclude(Instances(TmSub), [93, 33, 8, 185, 89, 0, 0, 0, 0, 0], [169, 111, 0, 0, 0, 0, 0]),
    // 187: W >> nat : U
    Conclude(Naturals(NatU), [93, 0, 0, 0, 0, 0, 0, 0, 0, 0], [90, 0, 0, 0, 0, 0, 0]),
    // 188: W >> nat
    Conclude(Universe(TyU), [93, 5, 0, 0, 0, 0, 0, 0, 0, 0], [187, 0, 0, 0, 0, 0, 0]),
    // 189: shift 2 : W.nat to V
    Conclude(Contexts(SubWk), [93, 33, 8, 5, 0, 0, 0, 0, 0, 0], [169, 188, 0, 0, 0, 0, 0]),
    // 190: W.nat >> var 0 : nat
    Conclude(Instances(TmVar), [93, 5, 0, 0, 0, 0, 0, 0, 0, 0], [188, 0, 0, 0, 0, 0, 0]),
    WithVar(93, 5),
    // 192: push (shift 2) (var 0) : W.nat to N
    Conclude(Contexts(SubVar), [191, 61, 8, 5, 34, 0, 0, 0, 0, 0], [189, 10, 190, 0, 0, 0, 0]),
    Push(61, 34),
    // 194: W.nat >> p_w
    Conclude(Instances(TySub), [191, 193, 99, 88, 0, 0, 0, 0, 0, 0], [192, 101, 0, 0, 0, 0, 0]),
    // 195: W >> at_k{i0} : nat
    Conclude(Instances(TmSub), [93, 143, 118, 161, 5, 0, 0, 0, 0, 0], [179, 131, 0, 0, 0, 0, 0]),
    // 196: W >> at_k{i1} : nat
    Conclude(Instances(TmSub), [93, 165, 118, 161, 5, 0, 0, 0, 0, 0], [180, 131, 0, 0, 0, 0, 0]),
    Make(Op::PathP, [5, 41, 163, 0]),
    // 198: W >> q0 : pathp nat (var 1) (app same at_k{i0})
    Conclude(Instances(TmSub), [93, 143, 118, 176, 197, 0, 0, 0, 0, 0], [179, 168, 0, 0, 0, 0, 0]),
    // 199: W >> q1 : pathp nat (var 1) (app same at_k{i1})
    Conclude(Instances(TmSub), [93, 165, 118, 176, 197, 0, 0, 0, 0, 0], [180, 168, 0, 0, 0, 0, 0]),
    // 200: W >> var 1 : nat
    Conclude(Instances(TmSub), [93, 33, 8, 34, 5, 0, 0, 0, 0, 0], [169, 76, 0, 0, 0, 0, 0]),
    Make(Op::PathP, [5, 34, 87, 0]),
    // 202: W >> plam (var 2) : pathp nat (var 1) (app same (var 1))
    Conclude(Instances(TmSub), [93, 33, 8, 110, 201, 0, 0, 0, 0, 0], [169, 109, 0, 0, 0, 0, 0]),
    Instance(161, 143),
    Make(Op::Min, [138, 34, 0, 0]),
    Make(Op::PApp, [127, 204, 0, 0]),
    Make(Op::PLam, [205, 0, 0, 0]),
    // 207: W >> fst el0 = at_k{i0} : nat
    Conclude(Sigma(SigBeta1), [93, 203, 206, 5, 112, 0, 0, 0, 0, 0], [194, 195, 198, 0, 0, 0, 0]),
    // 208: W >> at_k{i0} = var 1 : nat
    Conclude(Paths(PathLeft), [93, 119, 5, 36, 121, 0, 0, 0, 0, 0], [114, 0, 0, 0, 0, 0, 0]),
    Make(Op::PLam, [41, 0, 0, 0]),
    // 210: W >> fst centre+ = var 1 : nat
    Conclude(Sigma(SigBeta1), [93, 36, 209, 5, 112, 0, 0, 0, 0, 0], [194, 200, 202, 0, 0, 0, 0]),
    Instance(185, 33),
    Make(Op::Fst, [211, 0, 0, 0]),
    // 213: W >> var 1 = fst centre+ : nat
    Conclude(Equality(TmEqSym), [93, 212, 36, 5, 0, 0, 0, 0, 0, 0], [210, 0, 0, 0, 0, 0, 0]),
    Instance(181, 143),
    Make(Op::Fst, [214, 0, 0, 0]),
    // 216: W >> fst el0 = var 1 : nat
    Conclude(Equality(TmEqTrans), [93, 215, 203, 36, 5, 0, 0, 0, 0, 0], [207, 208, 0, 0, 0, 0, 0]),
    // 217: W >> fst el0 = fst centre+ : nat
    Conclude(Equality(TmEqTrans), [93, 215, 36, 212, 5, 0, 0, 0, 0, 0], [216, 213, 0, 0, 0, 0, 0]),
    // 218: W >> snd el0 : p_w{fst el0}
    Conclude(Sigma(Snd), [93, 214, 5, 112, 0, 0, 0, 0, 0, 0], [183, 0, 0, 0, 0, 0, 0]),
    // 219: W >> snd centre+ : p_w{fst centre+}
    Conclude(Sigma(Snd), [93, 211, 5, 112, 0, 0, 0, 0, 0, 0], [186, 0, 0, 0, 0, 0, 0]),
    // 220: W >> fst centre+ = fst el0 : nat
    Conclude(Equality(TmEqSym), [93, 215, 212, 5, 0, 0, 0, 0, 0, 0], [217, 0, 0, 0, 0, 0, 0]),
    // 221: W >> same : function
    Conclude(Pi(Lam), [93, 5, 34, 5, 0, 0, 0, 0, 0, 0], [188, 190, 0, 0, 0, 0, 0]),
    // 222: W >> same = same : function
    Conclude(Equality(TmEqRefl), [93, 81, 12, 0, 0, 0, 0, 0, 0, 0], [221, 0, 0, 0, 0, 0, 0]),
    // 223: W >> app same (fst centre+) = app same (fst el0) : nat
    Conclude(Pi(AppCong), [93, 81, 81, 212, 215, 5, 5, 0, 0, 0], [222, 220, 0, 0, 0, 0, 0]),
    // 224: K >> nat = nat
    Conclude(Equality(TyEqRefl), [118, 5, 0, 0, 0, 0, 0, 0, 0, 0], [159, 0, 0, 0, 0, 0, 0]),
    // 225: W >> var 1 = var 1 : nat
    Conclude(Equality(TmEqRefl), [93, 36, 5, 0, 0, 0, 0, 0, 0, 0], [200, 0, 0, 0, 0, 0, 0]),
    Make(Op::App, [81, 212, 0, 0]),
    Make(Op::App, [81, 215, 0, 0]),
    // 228: W >> p_w{fst centre+} = p_w{fst el0}
    Conclude(Paths(PathTyCong), [93, 5, 5, 36, 36, 226, 227, 0, 0, 0], [224, 225, 223, 0, 0, 0, 0]),
    Make(Op::Snd, [211, 0, 0, 0]),
    Push(28, 212),
    Instance(112, 230),
    Push(28, 215),
    Instance(112, 232),
    // 234: W >> snd centre+ : p_w{fst el0}
    Conclude(Equality(TmConv), [93, 229, 231, 233, 0, 0, 0, 0, 0, 0], [219, 228, 0, 0, 0, 0, 0]),
    // 235: W >> snd el0 = q0 : p_w{at_k{i0}}
    Conclude(Sigma(SigBeta2), [93, 203, 206, 5, 112, 0, 0, 0, 0, 0], [194, 195, 198, 0, 0, 0, 0]),
    Make(Op::Snd, [214, 0, 0, 0]),
    Push(28, 203),
    Instance(112, 237),
    // 239: K >> (snd el0)+ = q0+ : p_w{at_k{i0}}+
    Conclude(Instances(TmEqSub), [118, 33, 93, 236, 206, 238, 0, 0, 0, 0],
        [117, 235, 0, 0, 0, 0, 0]),
    Instance(236, 33),
    Instance(206, 33),
    Make(Op::App, [81, 149, 0, 0]),
    // 243: K >> image0 = side0 : nat
    Conclude(Paths(PAppCong), [118, 240, 241, 34, 5, 41, 242, 0, 0, 0], [239, 0, 0, 0, 0, 0, 0]),
    // 244: L >> low_j : nat
    Conclude(Paths(PApp), [126, 132, 204, 5, 134, 135, 0, 0, 0, 0], [129, 0, 0, 0, 0, 0, 0]),
    Make(Op::PApp, [132, 204, 0, 0]),
    // 246: K >> side0 = low : nat
    Conclude(Paths(PathBeta), [118, 5, 245, 34, 0, 0, 0, 0, 0, 0], [244, 0, 0, 0, 0, 0, 0]),
    // 247: push id (min i0 (var 0)) : K to L
    Conclude(Contexts(SubForm), [118, 28, 118, 204, 0, 0, 0, 0, 0, 0], [124, 0, 0, 0, 0, 0, 0]),
    Push(28, 204),
    // 249: K >> low = start : nat
    Conclude(Instances(TmInt), [118, 248, 143, 126, 144, 5, 0, 0, 0, 0],
        [247, 139, 137, 0, 0, 0, 0]),
    Make(Op::PApp, [240, 34, 0, 0]),
    Make(Op::PApp, [241, 34, 0, 0]),
    // 252: K >> image0 = low : nat
    Conclude(Equality(TmEqTrans), [118, 250, 251, 205, 5, 0, 0, 0, 0, 0],
        [243, 246, 0, 0, 0, 0, 0]),
    // 253: K >> image0 = start : nat
    Conclude(Equality(TmEqTrans), [118, 250, 205, 149, 5, 0, 0, 0, 0, 0],
        [252, 249, 0, 0, 0, 0, 0]),
    // 254: K >> image0 = var 2 : nat
    Conclude(Equality(TmEqTrans), [118, 250, 149, 41, 5, 0, 0, 0, 0, 0], [253, 146, 0, 0, 0, 0, 0]),
    // 255: W >> snd centre+ = plam (var 2) : p_w{var 1}
    Conclude(Sigma(SigBeta2), [93, 36, 209, 5, 112, 0, 0, 0, 0, 0], [194, 200, 202, 0, 0, 0, 0]),
    Push(28, 36),
    Instance(112, 256),
    // 258: K >> snd centre[shift 2] = plam (var 3) : p_w{var 1}+
    Conclude(Instances(TmEqSub), [118, 33, 93, 229, 209, 257, 0, 0, 0, 0],
        [117, 255, 0, 0, 0, 0, 0]),
    Instance(185, 61),
    Make(Op::Snd, [259, 0, 0, 0]),
    Make(Op::PLam, [134, 0, 0, 0]),
    Make(Op::App, [81, 41, 0, 0]),
    // 263: K >> image_c = side_c : nat
    Conclude(Paths(PAppCong), [118, 260, 261, 34, 5, 41, 262, 0, 0, 0], [258, 0, 0, 0, 0, 0, 0]),
    // 264: K >> var 2 : nat
    Conclude(Instances(TmSub), [118, 33, 93, 36, 5, 0, 0, 0, 0, 0], [117, 200, 0, 0, 0, 0, 0]),
    // 265: L >> var 3 : nat
    Conclude(Instances(TmSub), [126, 33, 118, 41, 5, 0, 0, 0, 0, 0], [125, 264, 0, 0, 0, 0, 0]),
    // 266: K >> side_c = var 2 : nat
    Conclude(Paths(PathBeta), [118, 5, 134, 34, 0, 0, 0, 0, 0, 0], [265, 0, 0, 0, 0, 0, 0]),
    Make(Op::PApp, [260, 34, 0, 0]),
    Make(Op::PApp, [261, 34, 0, 0]),
    // 269: K >> image_c = var 2 : nat
    Conclude(Equality(TmEqTrans), [118, 267, 268, 41, 5, 0, 0, 0, 0, 0], [263, 266, 0, 0, 0, 0, 0]),
    // 270: K >> var 2 = image_c : nat
    Conclude(Equality(TmEqSym), [118, 267, 41, 5, 0, 0, 0, 0, 0, 0], [269, 0, 0, 0, 0, 0, 0]),
    // 271: K >> image0 = image_c : nat
    Conclude(Equality(TmEqTrans), [118, 250, 41, 267, 5, 0, 0, 0, 0, 0], [254, 270, 0, 0, 0, 0, 0]),
    // 272: W >> snd el0 = snd centre+ : p_w{fst el0}
    Conclude(Paths(PathEta), [93, 236, 229, 5, 36, 227, 0, 0, 0, 0], [218, 234, 271, 0, 0, 0, 0]),
    // 273: W >> el0 = centre+ : fib+
    Conclude(Sigma(SigEta), [93, 214, 211, 5, 112, 0, 0, 0, 0, 0], [183, 186, 217, 272, 0, 0, 0]),
    Instance(161, 165),
    Make(Op::Min, [151, 34, 0, 0]),
    Make(Op::PApp, [127, 275, 0, 0]),
    Make(Op::PLam, [276, 0, 0, 0]),
    // 278: W >> fst el1 = at_k{i1} : nat
    Conclude(Sigma(SigBeta1), [93, 274, 277, 5, 112, 0, 0, 0, 0, 0], [194, 196, 199, 0, 0, 0, 0]),
    // 279: W >> at_k{i1} = same_z : nat
    Conclude(Paths(PathRight), [93, 119, 5, 36, 121, 0, 0, 0, 0, 0], [114, 0, 0, 0, 0, 0, 0]),
    // 280: W >> same_z = fst (var 0) : nat
    Conclude(Pi(PiBeta), [93, 5, 34, 120, 5, 0, 0, 0, 0, 0], [190, 113, 0, 0, 0, 0, 0]),
    Instance(181, 165),
    Make(Op::Fst, [281, 0, 0, 0]),
    // 283: W >> fst el1 = same_z : nat
    Conclude(Equality(TmEqTrans), [93, 282, 274, 121, 5, 0, 0, 0, 0, 0], [278, 279, 0, 0, 0, 0, 0]),
    // 284: W >> fst el1 = fst (var 0) : nat
    Conclude(Equality(TmEqTrans), [93, 282, 121, 120, 5, 0, 0, 0, 0, 0], [283, 280, 0, 0, 0, 0, 0]),
    // 285: W >> snd el1 : p_w{fst el1}
    Conclude(Sigma(Snd), [93, 281, 5, 112, 0, 0, 0, 0, 0, 0], [184, 0, 0, 0, 0, 0, 0]),
    // 286: W >> fst (var 0) = fst el1 : nat
    Conclude(Equality(TmEqSym), [93, 282, 120, 5, 0, 0, 0, 0, 0, 0], [284, 0, 0, 0, 0, 0, 0]),
    // 287: W >> same_z = app same (fst el1) : nat
    Conclude(Pi(AppCong), [93, 81, 81, 120, 282, 5, 5, 0, 0, 0], [222, 286, 0, 0, 0, 0, 0]),
    Make(Op::App, [81, 282, 0, 0]),
    // 289: W >> line_w = p_w{fst el1}
    Conclude(Paths(PathTyCong), [93, 5, 5, 36, 36, 121, 288, 0, 0, 0], [224, 225, 287, 0, 0, 0, 0]),
    Push(28, 282),
    Instance(112, 290),
    // 292: W >> snd (var 0) : p_w{fst el1}
    Conclude(Equality(TmConv), [93, 119, 122, 291, 0, 0, 0, 0, 0, 0], [114, 289, 0, 0, 0, 0, 0]),
    // 293: W >> snd el1 = q1 : p_w{at_k{i1}}
    Conclude(Sigma(SigBeta2), [93, 274, 277, 5, 112, 0, 0, 0, 0, 0], [194, 196, 199, 0, 0, 0, 0]),
    Make(Op::Snd, [281, 0, 0, 0]),
    Push(28, 274),
    Instance(112, 295),
    // 297: K >> (snd el1)+ = q1+ : p_w{at_k{i1}}+
    Conclude(Instances(TmEqSub), [118, 33, 93, 294, 277, 296, 0, 0, 0, 0],
        [117, 293, 0, 0, 0, 0, 0]),
    Instance(294, 33),
    Instance(277, 33),
    Make(Op::PApp, [127, 151, 0, 0]),
    Make(Op::App, [81, 300, 0, 0]),
    // 302: K >> image1 = side1 : nat
    Conclude(Paths(PAppCong), [118, 298, 299, 34, 5, 41, 301, 0, 0, 0], [297, 0, 0, 0, 0, 0, 0]),
    // 303: L >> high_j : nat
    Conclude(Paths(PApp), [126, 132, 275, 5, 134, 135, 0, 0, 0, 0], [129, 0, 0, 0, 0, 0, 0]),
    Make(Op::PApp, [132, 275, 0, 0]),
    // 305: K >> side1 = high : nat
    Conclude(Paths(PathBeta), [118, 5, 304, 34, 0, 0, 0, 0, 0, 0], [303, 0, 0, 0, 0, 0, 0]),
    // 306: push id (min i1 (var 0)) : K to L
    Conclude(Contexts(SubForm), [118, 28, 118, 275, 0, 0, 0, 0, 0, 0], [124, 0, 0, 0, 0, 0, 0]),
    Push(28, 275),
    // 308: K >> high = at_k : nat
    Conclude(Instances(TmInt), [118, 307, 156, 126, 144, 5, 0, 0, 0, 0],
        [306, 154, 137, 0, 0, 0, 0]),
    Make(Op::PApp, [298, 34, 0, 0]),
    Make(Op::PApp, [299, 34, 0, 0]),
    // 311: K >> image1 = high : nat
    Conclude(Equality(TmEqTrans), [118, 309, 310, 276, 5, 0, 0, 0, 0, 0],
        [302, 305, 0, 0, 0, 0, 0]),
    // 312: K >> image1 = at_k : nat
    Conclude(Equality(TmEqTrans), [118, 309, 276, 161, 5, 0, 0, 0, 0, 0],
        [311, 308, 0, 0, 0, 0, 0]),
    // 313: W >> snd el1 = snd (var 0) : p_w{fst el1}
    Conclude(Paths(PathEta), [93, 294, 119, 5, 36, 288, 0, 0, 0, 0], [285, 292, 312, 0, 0, 0, 0]),
    // 314: W >> el1 = var 0 : fib+
    Conclude(Sigma(SigEta), [93, 281, 34, 5, 112, 0, 0, 0, 0, 0], [184, 92, 284, 313, 0, 0, 0]),
    // 315: W >> plam el : line_z
    Conclude(Paths(PLam), [93, 182, 181, 211, 34, 0, 0, 0, 0, 0], [178, 273, 314, 0, 0, 0, 0]),
    Make(Op::PLam, [181, 0, 0, 0]),
    Make(Op::PathP, [182, 211, 34, 0]),
    // 318: V >> lam fib (plam el) : pi fib line_z
    Conclude(Pi(Lam), [8, 89, 316, 317, 0, 0, 0, 0, 0, 0], [86, 315, 0, 0, 0, 0, 0]),
    Make(Op::Lam, [89, 316, 0, 0]),
    Instance(89, 33),
    Instance(89, 67),
    Make(Op::PathP, [321, 36, 34, 0]),
    Make(Op::Pi, [320, 322, 0, 0]),
    // 324: V >> contracts : contractible
    Conclude(Sigma(Pair), [8, 185, 319, 89, 323, 0, 0, 0, 0, 0], [97, 111, 318, 0, 0, 0, 0]),
    // 325: X.nat >> var 0 : nat
    Conclude(Instances(TmVar), [3, 5, 0, 0, 0, 0, 0, 0, 0, 0], [6, 0, 0, 0, 0, 0, 0]),
    // 326: X >> same : function
    Conclude(Pi(Lam), [3, 5, 34, 5, 0, 0, 0, 0, 0, 0], [6, 325, 0, 0, 0, 0, 0]),
    Make(Op::Pair, [185, 319, 0, 0]),
    Make(Op::Sig, [89, 323, 0, 0]),
    // 329: X >> lam nat contracts : pi nat contractible
    Conclude(Pi(Lam), [3, 5, 327, 328, 0, 0, 0, 0, 0, 0], [6, 324, 0, 0, 0, 0, 0]),
    Make(Op::Lam, [5, 327, 0, 0]),
    Make(Op::Pi, [5, 74, 0, 0]),
    // 332: X >> w : equivalence
    Conclude(Sigma(Pair), [3, 81, 330, 12, 331, 0, 0, 0, 0, 0], [75, 326, 329, 0, 0, 0, 0]),
    Make(Op::Pair, [81, 330, 0, 0]),
    Make(Op::Sig, [12, 331, 0, 0]),
    // 335: V >> w : equivalence
    Conclude(Instances(TmSub), [8, 33, 3, 333, 334, 0, 0, 0, 0, 0], [78, 332, 0, 0, 0, 0, 0]),
    // 336: V >> fst w : function
    Conclude(Sigma(Fst), [8, 333, 12, 331, 0, 0, 0, 0, 0, 0], [335, 0, 0, 0, 0, 0, 0]),
    Make(Op::Fst, [333, 0, 0, 0]),
    // 338: V >> app (fst w) (var 0) : nat
    Conclude(Pi(App), [8, 337, 34, 5, 5, 0, 0, 0, 0, 0], [336, 76, 0, 0, 0, 0, 0]),
    // 339: V >> zero : nat
    Conclude(Naturals(Zero), [8, 0, 0, 0, 0, 0, 0, 0, 0, 0], [7, 0, 0, 0, 0, 0, 0]),
    // 340: ctx V.I
    Conclude(Contexts(CtxName), [8, 0, 0, 0, 0, 0, 0, 0, 0, 0], [7, 0, 0, 0, 0, 0, 0]),
    // 341: V.I >> nat : U
    Conclude(Naturals(NatU), [104, 0, 0, 0, 0, 0, 0, 0, 0, 0], [340, 0, 0, 0, 0, 0, 0]),
    // 342: V.I >> nat
    Conclude(Universe(TyU), [104, 5, 0, 0, 0, 0, 0, 0, 0, 0], [341, 0, 0, 0, 0, 0, 0]),
    Make(Op::Zero, [0, 0, 0, 0]),
    Make(Op::App, [337, 34, 0, 0]),
    // 345: V >> path
    Conclude(Paths(PathTy), [8, 5, 343, 344, 0, 0, 0, 0, 0, 0], [342, 339, 338, 0, 0, 0, 0]),
    Make(Op::PathP, [5, 343, 344, 0]),
    // 347: X >> fiber
    Conclude(Sigma(SigTy), [3, 5, 346, 0, 0, 0, 0, 0, 0, 0], [6, 345, 0, 0, 0, 0, 0]),
    Make(Op::Sig, [5, 346, 0, 0]),
    // 349: ctx Z
    Conclude(Contexts(CtxVar), [3, 348, 0, 0, 0, 0, 0, 0, 0, 0], [347, 0, 0, 0, 0, 0, 0]),
    // 350: up : Z to X
    Conclude(Contexts(SubWk), [3, 28, 3, 348, 0, 0, 0, 0, 0, 0], [77, 347, 0, 0, 0, 0, 0]),
    WithVar(3, 348),
    // 352: Z >> w : equivalence
    Conclude(Instances(TmSub), [351, 33, 3, 333, 334, 0, 0, 0, 0, 0], [350, 332, 0, 0, 0, 0, 0]),
    // 353: Z >> nat : U
    Conclude(Naturals(NatU), [351, 0, 0, 0, 0, 0, 0, 0, 0, 0], [349, 0, 0, 0, 0, 0, 0]),
    // 354: Z >> nat
    Conclude(Universe(TyU), [351, 5, 0, 0, 0, 0, 0, 0, 0, 0], [353, 0, 0, 0, 0, 0, 0]),
    // 355: Z >> zero : nat
    Conclude(Naturals(Zero), [351, 0, 0, 0, 0, 0, 0, 0, 0, 0], [349, 0, 0, 0, 0, 0, 0]),
    // 356: Z >> var 0 : fiber
    Conclude(Instances(TmVar), [3, 348, 0, 0, 0, 0, 0, 0, 0, 0], [347, 0, 0, 0, 0, 0, 0]),
    // 357: id : Z to Z
    Conclude(Contexts(SubId), [351, 0, 0, 0, 0, 0, 0, 0, 0, 0], [349, 0, 0, 0, 0, 0, 0]),
    Make(Op::Eq0, [36, 0, 0, 0]),
    // 359: id : P to Z
    Conclude(Contexts(SubWkFace), [351, 28, 351, 358, 0, 0, 0, 0, 0, 0], [357, 0, 0, 0, 0, 0, 0]),
    WithFace(351, 358),
    // 361: P >> var 0 : fiber
    Conclude(Instances(TmSub), [360, 28, 351, 34, 348, 0, 0, 0, 0, 0], [359, 356, 0, 0, 0, 0, 0]),
    // 362: ext
    Derive(3, [351, 5, 5, 333, 358, 34, 343, 0, 0, 0],
        [349, 354, 354, 352, 355, 361, 0, 0, 0, 0, 0, 0, 0, 0, 0, 0]),
};

/// The rows of what it gives: equivalence, typing, face.
pub static EXT_NUMBERS_GIVES: &[u16] = &[332, 362, 363];
