//! Written by tools/write_recipes.py.

use recipes::Row::{Conclude, Instance, Make, Nil, Shift, Var, WithFace, WithName, WithVar};
use recipes::{Row, table};
use theory::CompRule::CompGlue;
use theory::ContextRule::{CtxFace, CtxName, CtxNil, CtxVar, SubId, SubWk, SubWkFace, SubWkName};
use theory::EqualityRule::TmEqAbsurd;
use theory::GlueRule::{Glue, GlueTy};
use theory::InstanceRule::{TmSub, TmVar, TySub};
use theory::NatRule::{NatU, Zero};
use theory::Op;
use theory::PathRule::PathTy;
use theory::PiRule::{App, PiTy};
use theory::RuleName::{
    Composition, Contexts, Equality, Gluing, Instances, Naturals, Paths, Pi, Sigma, Systems,
    Universe,
};
use theory::SigmaRule::{Fst, SigTy};
use theory::SystemRule::EmptyTm;
use theory::UniverseRule::TyU;

/// A composition at numbers glued on the face that is true nowhere, on that face.
pub static GLUED_COMPOSITION: &[Row] = table! {
    // 0: ctx []
    Conclude(Contexts(CtxNil), [0, 0, 0, 0, 0, 0, 0, 0, 0, 0], [0, 0, 0, 0, 0, 0, 0]),
    Nil,
    // 2: [] >> nat : U
    Conclude(Naturals(NatU), [1, 0, 0, 0, 0, 0, 0, 0, 0, 0], [0, 0, 0, 0, 0, 0, 0]),
    Make(Op::Nat, [0, 0, 0, 0]),
    // 4: [] >> nat
    Conclude(Universe(TyU), [1, 3, 0, 0, 0, 0, 0, 0, 0, 0], [2, 0, 0, 0, 0, 0, 0]),
    // 5: ctx [].nat
    Conclude(Contexts(CtxVar), [1, 3, 0, 0, 0, 0, 0, 0, 0, 0], [4, 0, 0, 0, 0, 0, 0]),
    WithVar(1, 3),
    // 7: [].nat >> nat : U
    Conclude(Naturals(NatU), [6, 0, 0, 0, 0, 0, 0, 0, 0, 0], [5, 0, 0, 0, 0, 0, 0]),
    // 8: [].nat >> nat
    Conclude(Universe(TyU), [6, 3, 0, 0, 0, 0, 0, 0, 0, 0], [7, 0, 0, 0, 0, 0, 0]),
    // 9: [] >> function
    Conclude(Pi(PiTy), [1, 3, 3, 0, 0, 0, 0, 0, 0, 0], [4, 8, 0, 0, 0, 0, 0]),
    Make(Op::Pi, [3, 3, 0, 0]),
    // 11: ctx F
    Conclude(Contexts(CtxVar), [1, 10, 0, 0, 0, 0, 0, 0, 0, 0], [9, 0, 0, 0, 0, 0, 0]),
    WithVar(1, 10),
    // 13: F >> nat : U
    Conclude(Naturals(NatU), [12, 0, 0, 0, 0, 0, 0, 0, 0, 0], [11, 0, 0, 0, 0, 0, 0]),
    // 14: F >> nat
    Conclude(Universe(TyU), [12, 3, 0, 0, 0, 0, 0, 0, 0, 0], [13, 0, 0, 0, 0, 0, 0]),
    // 15: ctx Y
    Conclude(Contexts(CtxVar), [12, 3, 0, 0, 0, 0, 0, 0, 0, 0], [14, 0, 0, 0, 0, 0, 0]),
    WithVar(12, 3),
    // 17: Y >> nat : U
    Conclude(Naturals(NatU), [16, 0, 0, 0, 0, 0, 0, 0, 0, 0], [15, 0, 0, 0, 0, 0, 0]),
    // 18: Y >> nat
    Conclude(Universe(TyU), [16, 3, 0, 0, 0, 0, 0, 0, 0, 0], [17, 0, 0, 0, 0, 0, 0]),
    // 19: ctx S
    Conclude(Contexts(CtxVar), [16, 3, 0, 0, 0, 0, 0, 0, 0, 0], [18, 0, 0, 0, 0, 0, 0]),
    WithVar(16, 3),
    // 21: ctx S.I
    Conclude(Contexts(CtxName), [20, 0, 0, 0, 0, 0, 0, 0, 0, 0], [19, 0, 0, 0, 0, 0, 0]),
    WithName(20),
    // 23: S.I >> nat : U
    Conclude(Naturals(NatU), [22, 0, 0, 0, 0, 0, 0, 0, 0, 0], [21, 0, 0, 0, 0, 0, 0]),
    // 24: S.I >> nat
    Conclude(Universe(TyU), [22, 3, 0, 0, 0, 0, 0, 0, 0, 0], [23, 0, 0, 0, 0, 0, 0]),
    // 25: id : F to F
    Conclude(Contexts(SubId), [12, 0, 0, 0, 0, 0, 0, 0, 0, 0], [11, 0, 0, 0, 0, 0, 0]),
    Shift(0),
    // 27: up : Y to F
    Conclude(Contexts(SubWk), [12, 26, 12, 3, 0, 0, 0, 0, 0, 0], [25, 14, 0, 0, 0, 0, 0]),
    // 28: id : Y to Y
    Conclude(Contexts(SubId), [16, 0, 0, 0, 0, 0, 0, 0, 0, 0], [15, 0, 0, 0, 0, 0, 0]),
    // 29: up : S to Y
    Conclude(Contexts(SubWk), [16, 26, 16, 3, 0, 0, 0, 0, 0, 0], [28, 18, 0, 0, 0, 0, 0]),
    // 30: F >> var 0 : function
    Conclude(Instances(TmVar), [1, 10, 0, 0, 0, 0, 0, 0, 0, 0], [9, 0, 0, 0, 0, 0, 0]),
    Shift(1),
    Var(0),
    // 33: Y >> var 1 : function
    Conclude(Instances(TmSub), [16, 31, 12, 32, 10, 0, 0, 0, 0, 0], [27, 30, 0, 0, 0, 0, 0]),
    Var(1),
    // 35: S >> var 2 : function
    Conclude(Instances(TmSub), [20, 31, 16, 34, 10, 0, 0, 0, 0, 0], [29, 33, 0, 0, 0, 0, 0]),
    // 36: Y >> var 0 : nat
    Conclude(Instances(TmVar), [12, 3, 0, 0, 0, 0, 0, 0, 0, 0], [14, 0, 0, 0, 0, 0, 0]),
    // 37: S >> var 1 : nat
    Conclude(Instances(TmSub), [20, 31, 16, 32, 3, 0, 0, 0, 0, 0], [29, 36, 0, 0, 0, 0, 0]),
    // 38: S >> var 0 : nat
    Conclude(Instances(TmVar), [16, 3, 0, 0, 0, 0, 0, 0, 0, 0], [18, 0, 0, 0, 0, 0, 0]),
    Var(2),
    // 40: S >> app (var 2) (var 0) : nat
    Conclude(Pi(App), [20, 39, 32, 3, 3, 0, 0, 0, 0, 0], [35, 38, 0, 0, 0, 0, 0]),
    Make(Op::App, [39, 32, 0, 0]),
    // 42: S >> path_y
    Conclude(Paths(PathTy), [20, 3, 34, 41, 0, 0, 0, 0, 0, 0], [24, 37, 40, 0, 0, 0, 0]),
    Make(Op::PathP, [3, 34, 41, 0]),
    // 44: Y >> fiber_y
    Conclude(Sigma(SigTy), [16, 3, 43, 0, 0, 0, 0, 0, 0, 0], [18, 42, 0, 0, 0, 0, 0]),
    Make(Op::Sig, [3, 43, 0, 0]),
    // 46: ctx C
    Conclude(Contexts(CtxVar), [16, 45, 0, 0, 0, 0, 0, 0, 0, 0], [44, 0, 0, 0, 0, 0, 0]),
    // 47: up : C to Y
    Conclude(Contexts(SubWk), [16, 26, 16, 45, 0, 0, 0, 0, 0, 0], [28, 44, 0, 0, 0, 0, 0]),
    WithVar(16, 45),
    // 49: C >> fiber_y+
    Conclude(Instances(TySub), [48, 31, 16, 45, 0, 0, 0, 0, 0, 0], [47, 44, 0, 0, 0, 0, 0]),
    Instance(45, 31),
    // 51: ctx D
    Conclude(Contexts(CtxVar), [48, 50, 0, 0, 0, 0, 0, 0, 0, 0], [49, 0, 0, 0, 0, 0, 0]),
    // 52: id : C to C
    Conclude(Contexts(SubId), [48, 0, 0, 0, 0, 0, 0, 0, 0, 0], [46, 0, 0, 0, 0, 0, 0]),
    // 53: up : D to C
    Conclude(Contexts(SubWk), [48, 26, 48, 50, 0, 0, 0, 0, 0, 0], [52, 49, 0, 0, 0, 0, 0]),
    WithVar(48, 50),
    // 55: D >> fiber_y[shift 2]
    Conclude(Instances(TySub), [54, 31, 48, 50, 0, 0, 0, 0, 0, 0], [53, 49, 0, 0, 0, 0, 0]),
    // 56: id : D to D
    Conclude(Contexts(SubId), [54, 0, 0, 0, 0, 0, 0, 0, 0, 0], [51, 0, 0, 0, 0, 0, 0]),
    // 57: up : D.I to D
    Conclude(Contexts(SubWkName), [54, 26, 54, 0, 0, 0, 0, 0, 0, 0], [56, 0, 0, 0, 0, 0, 0]),
    WithName(54),
    Shift(2),
    Instance(45, 59),
    // 61: D.I >> fiber_y[shift 3]
    Conclude(Instances(TySub), [58, 31, 54, 60, 0, 0, 0, 0, 0, 0], [57, 55, 0, 0, 0, 0, 0]),
    // 62: C >> var 0 : fiber_y+
    Conclude(Instances(TmVar), [16, 45, 0, 0, 0, 0, 0, 0, 0, 0], [44, 0, 0, 0, 0, 0, 0]),
    // 63: D >> var 1 : fiber_y[shift 2]
    Conclude(Instances(TmSub), [54, 31, 48, 32, 50, 0, 0, 0, 0, 0], [53, 62, 0, 0, 0, 0, 0]),
    // 64: D >> var 0 : fiber_y[shift 2]
    Conclude(Instances(TmVar), [48, 50, 0, 0, 0, 0, 0, 0, 0, 0], [49, 0, 0, 0, 0, 0, 0]),
    Shift(3),
    Instance(45, 65),
    // 67: D >> meets
    Conclude(Paths(PathTy), [54, 66, 34, 32, 0, 0, 0, 0, 0, 0], [61, 63, 64, 0, 0, 0, 0]),
    Make(Op::PathP, [66, 34, 32, 0]),
    // 69: C >> contractions_y
    Conclude(Pi(PiTy), [48, 50, 68, 0, 0, 0, 0, 0, 0, 0], [49, 67, 0, 0, 0, 0, 0]),
    Make(Op::Pi, [50, 68, 0, 0]),
    // 71: Y >> contractible_y
    Conclude(Sigma(SigTy), [16, 45, 70, 0, 0, 0, 0, 0, 0, 0], [44, 69, 0, 0, 0, 0, 0]),
    Make(Op::Sig, [45, 70, 0, 0]),
    // 73: F >> all_contractible
    Conclude(Pi(PiTy), [12, 3, 72, 0, 0, 0, 0, 0, 0, 0], [14, 71, 0, 0, 0, 0, 0]),
    Make(Op::Pi, [3, 72, 0, 0]),
    // 75: [] >> equivalence
    Conclude(Sigma(SigTy), [1, 10, 74, 0, 0, 0, 0, 0, 0, 0], [9, 73, 0, 0, 0, 0, 0]),
    Make(Op::F0, [0, 0, 0, 0]),
    // 77: ctx P
    Conclude(Contexts(CtxFace), [1, 76, 0, 0, 0, 0, 0, 0, 0, 0], [0, 0, 0, 0, 0, 0, 0]),
    // 78: id : [] to []
    Conclude(Contexts(SubId), [1, 0, 0, 0, 0, 0, 0, 0, 0, 0], [0, 0, 0, 0, 0, 0, 0]),
    // 79: id : P to []
    Conclude(Contexts(SubWkFace), [1, 26, 1, 76, 0, 0, 0, 0, 0, 0], [78, 0, 0, 0, 0, 0, 0]),
    WithFace(1, 76),
    // 81: P >> nat
    Conclude(Instances(TySub), [80, 26, 1, 3, 0, 0, 0, 0, 0, 0], [79, 4, 0, 0, 0, 0, 0]),
    Make(Op::Sig, [10, 74, 0, 0]),
    // 83: P >> equivalence
    Conclude(Instances(TySub), [80, 26, 1, 82, 0, 0, 0, 0, 0, 0], [79, 75, 0, 0, 0, 0, 0]),
    // 84: P >> empty : equivalence
    Conclude(Systems(EmptyTm), [80, 82, 0, 0, 0, 0, 0, 0, 0, 0], [83, 0, 0, 0, 0, 0, 0]),
    Make(Op::Empty, [0, 0, 0, 0]),
    // 86: [] >> glued
    Conclude(Gluing(GlueTy), [1, 3, 76, 3, 85, 0, 0, 0, 0, 0], [4, 81, 84, 0, 0, 0, 0]),
    // 87: [] >> zero : nat
    Conclude(Naturals(Zero), [1, 0, 0, 0, 0, 0, 0, 0, 0, 0], [0, 0, 0, 0, 0, 0, 0]),
    // 88: P >> zero : nat
    Conclude(Naturals(Zero), [80, 0, 0, 0, 0, 0, 0, 0, 0, 0], [77, 0, 0, 0, 0, 0, 0]),
    // 89: P >> fst empty : function
    Conclude(Sigma(Fst), [80, 85, 10, 74, 0, 0, 0, 0, 0, 0], [84, 0, 0, 0, 0, 0, 0]),
    Make(Op::Fst, [85, 0, 0, 0]),
    Make(Op::Zero, [0, 0, 0, 0]),
    // 92: P >> app (fst empty) zero : nat
    Conclude(Pi(App), [80, 90, 91, 3, 3, 0, 0, 0, 0, 0], [89, 88, 0, 0, 0, 0, 0]),
    Make(Op::App, [90, 91, 0, 0]),
    // 94: P >> app (fst empty) zero = zero : nat
    Conclude(Equality(TmEqAbsurd), [80, 93, 91, 3, 0, 0, 0, 0, 0, 0], [92, 88, 0, 0, 0, 0, 0]),
    // 95: [] >> g : glued
    Conclude(Gluing(Glue), [1, 3, 76, 3, 85, 91, 91, 0, 0, 0], [4, 81, 84, 88, 87, 94, 0]),
    Make(Op::GlueType, [3, 76, 3, 85]),
    // 97: P >> glued
    Conclude(Instances(TySub), [80, 26, 1, 96, 0, 0, 0, 0, 0, 0], [79, 86, 0, 0, 0, 0, 0]),
    // 98: P >> empty : glued
    Conclude(Systems(EmptyTm), [80, 96, 0, 0, 0, 0, 0, 0, 0, 0], [97, 0, 0, 0, 0, 0, 0]),
    Make(Op::Glue, [76, 91, 91, 0]),
    // 100: P >> g : glued
    Conclude(Instances(TmSub), [80, 26, 1, 99, 96, 0, 0, 0, 0, 0], [79, 95, 0, 0, 0, 0, 0]),
    // 101: P >> g = empty : glued
    Conclude(Equality(TmEqAbsurd), [80, 99, 85, 96, 0, 0, 0, 0, 0, 0], [100, 98, 0, 0, 0, 0, 0]),
    // 102: id : P to P
    Conclude(Contexts(SubId), [80, 0, 0, 0, 0, 0, 0, 0, 0, 0], [77, 0, 0, 0, 0, 0, 0]),
    // 103: up : Q to P
    Conclude(Contexts(SubWkName), [80, 26, 80, 0, 0, 0, 0, 0, 0, 0], [102, 0, 0, 0, 0, 0, 0]),
    WithName(80),
    // 105: Q >> glued
    Conclude(Instances(TySub), [104, 31, 80, 96, 0, 0, 0, 0, 0, 0], [103, 97, 0, 0, 0, 0, 0]),
    // 106: Q >> empty : glued
    Conclude(Systems(EmptyTm), [104, 96, 0, 0, 0, 0, 0, 0, 0, 0], [105, 0, 0, 0, 0, 0, 0]),
    // 107: up : N to []
    Conclude(Contexts(SubWkName), [1, 26, 1, 0, 0, 0, 0, 0, 0, 0], [78, 0, 0, 0, 0, 0, 0]),
    WithName(1),
    // 109: N >> nat
    Conclude(Instances(TySub), [108, 31, 1, 3, 0, 0, 0, 0, 0, 0], [107, 4, 0, 0, 0, 0, 0]),
    // 110: N >> equivalence
    Conclude(Instances(TySub), [108, 31, 1, 82, 0, 0, 0, 0, 0, 0], [107, 75, 0, 0, 0, 0, 0]),
    // 111: ctx N
    Conclude(Contexts(CtxName), [1, 0, 0, 0, 0, 0, 0, 0, 0, 0], [0, 0, 0, 0, 0, 0, 0]),
    // 112: id : N to N
    Conclude(Contexts(SubId), [108, 0, 0, 0, 0, 0, 0, 0, 0, 0], [111, 0, 0, 0, 0, 0, 0]),
    // 113: id : R to N
    Conclude(Contexts(SubWkFace), [108, 26, 108, 76, 0, 0, 0, 0, 0, 0], [112, 0, 0, 0, 0, 0, 0]),
    WithFace(108, 76),
    // 115: R >> nat
    Conclude(Instances(TySub), [114, 26, 108, 3, 0, 0, 0, 0, 0, 0], [113, 109, 0, 0, 0, 0, 0]),
    // 116: R >> equivalence
    Conclude(Instances(TySub), [114, 26, 108, 82, 0, 0, 0, 0, 0, 0], [113, 110, 0, 0, 0, 0, 0]),
    // 117: R >> empty : equivalence
    Conclude(Systems(EmptyTm), [114, 82, 0, 0, 0, 0, 0, 0, 0, 0], [116, 0, 0, 0, 0, 0, 0]),
    // 118: [] >> comp glued f0 empty g = comp_glue nat f0 nat empty f0 empty g : glued
    Conclude(Composition(CompGlue), [1, 3, 76, 3, 85, 76, 85, 99, 0, 0],
        [109, 115, 117, 106, 95, 101, 0]),
};

/// The rows of what it gives: composed.
pub static GLUED_COMPOSITION_GIVES: &[u16] = &[118];
