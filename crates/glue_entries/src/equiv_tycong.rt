//! Written by tools/write_recipes.py.

use recipes::Row::{Conclude, Instance, Make, Part, Premise, Shift, Var, WithName, WithVar};
use recipes::{Row, table};
use theory::ContextRule::{CtxVar, SubId, SubWk, SubWkName};
use theory::EqualityRule::TmEqRefl;
use theory::InstanceRule::{TmSub, TmVar, TyEqSub, TySub};
use theory::Op;
use theory::PathRule::{PathTy, PathTyCong};
use theory::PiRule::{App, PiTy, PiTyCong};
use theory::RuleName::{Contexts, Equality, Instances, Paths, Pi, Sigma};
use theory::SigmaRule::{SigTy, SigTyCong};

/// Types of equivalences are equal where their ends are.
/// Its parts are G T A V B.
pub static EQUIV_TYCONG: &[Row] = table! {
    // 0: ctx G
    Premise(0),
    // 1: G >> T
    Premise(1),
    // 2: G >> A
    Premise(2),
    // 3: G >> V
    Premise(3),
    // 4: G >> B
    Premise(4),
    // 5: G >> T = V
    Premise(5),
    // 6: G >> A = B
    Premise(6),
    Part(0),
    // 8: id : G to G
    Conclude(Contexts(SubId), [7, 0, 0, 0, 0, 0, 0, 0, 0, 0], [0, 0, 0, 0, 0, 0, 0]),
    Shift(0),
    Part(1),
    // 11: up : G.T to G
    Conclude(Contexts(SubWk), [7, 9, 7, 10, 0, 0, 0, 0, 0, 0], [8, 1, 0, 0, 0, 0, 0]),
    WithVar(7, 10),
    Shift(1),
    Part(2),
    Part(4),
    // 16: G.T >> A+ = B+
    Conclude(Instances(TyEqSub), [12, 13, 7, 14, 15, 0, 0, 0, 0, 0], [11, 6, 0, 0, 0, 0, 0]),
    Part(3),
    Instance(14, 13),
    Instance(15, 13),
    // 20: G >> pi T A+ = pi V B+
    Conclude(Pi(PiTyCong), [7, 10, 17, 18, 19, 0, 0, 0, 0, 0], [5, 16, 0, 0, 0, 0, 0]),
    // 21: G.T >> A+
    Conclude(Instances(TySub), [12, 13, 7, 14, 0, 0, 0, 0, 0, 0], [11, 2, 0, 0, 0, 0, 0]),
    // 22: G >> pi T A+
    Conclude(Pi(PiTy), [7, 10, 18, 0, 0, 0, 0, 0, 0, 0], [1, 21, 0, 0, 0, 0, 0]),
    Make(Op::Pi, [10, 18, 0, 0]),
    // 24: up : G.(pi T A+) to G
    Conclude(Contexts(SubWk), [7, 9, 7, 23, 0, 0, 0, 0, 0, 0], [8, 22, 0, 0, 0, 0, 0]),
    WithVar(7, 23),
    // 26: G.(pi T A+) >> A+ = B+
    Conclude(Instances(TyEqSub), [25, 13, 7, 14, 15, 0, 0, 0, 0, 0], [24, 6, 0, 0, 0, 0, 0]),
    // 27: G.(pi T A+) >> A+
    Conclude(Instances(TySub), [25, 13, 7, 14, 0, 0, 0, 0, 0, 0], [24, 2, 0, 0, 0, 0, 0]),
    // 28: shift 2 : G.(pi T A+).A+ to G
    Conclude(Contexts(SubWk), [25, 13, 7, 18, 0, 0, 0, 0, 0, 0], [24, 27, 0, 0, 0, 0, 0]),
    WithVar(25, 18),
    Shift(2),
    // 31: G.(pi T A+).A+ >> T[shift 2] = V[shift 2]
    Conclude(Instances(TyEqSub), [29, 30, 7, 10, 17, 0, 0, 0, 0, 0], [28, 5, 0, 0, 0, 0, 0]),
    // 32: G.(pi T A+).A+ >> T[shift 2]
    Conclude(Instances(TySub), [29, 30, 7, 10, 0, 0, 0, 0, 0, 0], [28, 1, 0, 0, 0, 0, 0]),
    Instance(10, 30),
    // 34: shift 3 : G.(pi T A+).A+.T[shift 2] to G
    Conclude(Contexts(SubWk), [29, 30, 7, 33, 0, 0, 0, 0, 0, 0], [28, 32, 0, 0, 0, 0, 0]),
    WithVar(29, 33),
    Shift(3),
    // 37: shift 4 : G.(pi T A+).A+.T[shift 2].I to G
    Conclude(Contexts(SubWkName), [35, 36, 7, 0, 0, 0, 0, 0, 0, 0], [34, 0, 0, 0, 0, 0, 0]),
    WithName(35),
    Shift(4),
    // 40: G.(pi T A+).A+.T[shift 2].I >> A[shift 4] = B[shift 4]
    Conclude(Instances(TyEqSub), [38, 39, 7, 14, 15, 0, 0, 0, 0, 0], [37, 6, 0, 0, 0, 0, 0]),
    // 41: G.(pi T A+).A+ >> var 0 : A[shift 2]
    Conclude(Instances(TmVar), [25, 18, 0, 0, 0, 0, 0, 0, 0, 0], [27, 0, 0, 0, 0, 0, 0]),
    // 42: ctx G.(pi T A+).A+
    Conclude(Contexts(CtxVar), [25, 18, 0, 0, 0, 0, 0, 0, 0, 0], [27, 0, 0, 0, 0, 0, 0]),
    // 43: id : G.(pi T A+).A+ to G.(pi T A+).A+
    Conclude(Contexts(SubId), [29, 0, 0, 0, 0, 0, 0, 0, 0, 0], [42, 0, 0, 0, 0, 0, 0]),
    // 44: up : G.(pi T A+).A+.T[shift 2] to G.(pi T A+).A+
    Conclude(Contexts(SubWk), [29, 9, 29, 33, 0, 0, 0, 0, 0, 0], [43, 32, 0, 0, 0, 0, 0]),
    Var(0),
    Instance(14, 30),
    // 47: G.(pi T A+).A+.T[shift 2] >> var 1 : A[shift 3]
    Conclude(Instances(TmSub), [35, 13, 29, 45, 46, 0, 0, 0, 0, 0], [44, 41, 0, 0, 0, 0, 0]),
    Var(1),
    Instance(14, 36),
    // 50: G.(pi T A+).A+.T[shift 2] >> var 1 = var 1 : A[shift 3]
    Conclude(Equality(TmEqRefl), [35, 48, 49, 0, 0, 0, 0, 0, 0, 0], [47, 0, 0, 0, 0, 0, 0]),
    // 51: G.(pi T A+) >> var 0 : pi T+ A[shift 2]
    Conclude(Instances(TmVar), [7, 23, 0, 0, 0, 0, 0, 0, 0, 0], [22, 0, 0, 0, 0, 0, 0]),
    // 52: ctx G.(pi T A+)
    Conclude(Contexts(CtxVar), [7, 23, 0, 0, 0, 0, 0, 0, 0, 0], [22, 0, 0, 0, 0, 0, 0]),
    // 53: id : G.(pi T A+) to G.(pi T A+)
    Conclude(Contexts(SubId), [25, 0, 0, 0, 0, 0, 0, 0, 0, 0], [52, 0, 0, 0, 0, 0, 0]),
    // 54: up : G.(pi T A+).A+ to G.(pi T A+)
    Conclude(Contexts(SubWk), [25, 9, 25, 18, 0, 0, 0, 0, 0, 0], [53, 27, 0, 0, 0, 0, 0]),
    // 55: shift 2 : G.(pi T A+).A+.T[shift 2] to G.(pi T A+)
    Conclude(Contexts(SubWk), [29, 13, 25, 33, 0, 0, 0, 0, 0, 0], [54, 32, 0, 0, 0, 0, 0]),
    Instance(10, 13),
    Make(Op::Pi, [56, 46, 0, 0]),
    // 58: G.(pi T A+).A+.T[shift 2] >> var 2 : pi T[shift 3] A[shift 4]
    Conclude(Instances(TmSub), [35, 30, 25, 45, 57, 0, 0, 0, 0, 0], [55, 51, 0, 0, 0, 0, 0]),
    // 59: G.(pi T A+).A+.T[shift 2] >> var 0 : T[shift 3]
    Conclude(Instances(TmVar), [29, 33, 0, 0, 0, 0, 0, 0, 0, 0], [32, 0, 0, 0, 0, 0, 0]),
    Var(2),
    Instance(10, 36),
    Instance(14, 39),
    // 63: G.(pi T A+).A+.T[shift 2] >> app (var 2) (var 0) : A[shift 3]
    Conclude(Pi(App), [35, 60, 45, 61, 62, 0, 0, 0, 0, 0], [58, 59, 0, 0, 0, 0, 0]),
    Make(Op::App, [60, 45, 0, 0]),
    // 65: G.(pi T A+).A+.T[shift 2] >> app (var 2) (var 0) = app (var 2) (var 0) : A[shift 3]
    Conclude(Equality(TmEqRefl), [35, 64, 49, 0, 0, 0, 0, 0, 0, 0], [63, 0, 0, 0, 0, 0, 0]),
    Instance(15, 39),
    // 67: G.(pi T A+).A+.T[shift 2] >> pathp A[shift 4] (var 1) (app (var 2) (var 0)) = pathp
    //   B[shift 4] (var 1) (app (var 2) (var 0))
    Conclude(Paths(PathTyCong), [35, 62, 66, 48, 48, 64, 64, 0, 0, 0], [40, 50, 65, 0, 0, 0, 0]),
    Instance(17, 30),
    Make(Op::PathP, [62, 48, 64, 0]),
    Make(Op::PathP, [66, 48, 64, 0]),
    // 71: G.(pi T A+).A+ >> sig T[shift 2] (pathp A[shift 4] (var 1) (app (var 2) (var 0))) = sig
    //   V[shift 2] (pathp B[shift 4] (var 1) (app (var 2) (var 0)))
    Conclude(Sigma(SigTyCong), [29, 33, 68, 69, 70, 0, 0, 0, 0, 0], [31, 67, 0, 0, 0, 0, 0]),
    // 72: G.(pi T A+).A+.T[shift 2].I >> A[shift 4]
    Conclude(Instances(TySub), [38, 39, 7, 14, 0, 0, 0, 0, 0, 0], [37, 2, 0, 0, 0, 0, 0]),
    // 73: G.(pi T A+).A+.T[shift 2] >> pathp A[shift 4] (var 1) (app (var 2) (var 0))
    Conclude(Paths(PathTy), [35, 62, 48, 64, 0, 0, 0, 0, 0, 0], [72, 47, 63, 0, 0, 0, 0]),
    // 74: G.(pi T A+).A+ >> sig T[shift 2] (pathp A[shift 4] (var 1) (app (var 2) (var 0)))
    Conclude(Sigma(SigTy), [29, 33, 69, 0, 0, 0, 0, 0, 0, 0], [32, 73, 0, 0, 0, 0, 0]),
    Make(Op::Sig, [33, 69, 0, 0]),
    // 76: shift 3 : G.(pi T A+).A+.(sig T[shift 2] (pathp A[shift 4] (var 1) (app (var 2) (var
    //   0)))) to G
    Conclude(Contexts(SubWk), [29, 30, 7, 75, 0, 0, 0, 0, 0, 0], [28, 74, 0, 0, 0, 0, 0]),
    WithVar(29, 75),
    // 78: G.(pi T A+).A+.(sig T[shift 2] (pathp A[shift 4] (var 1) (app (var 2) (var 0)))) >>
    //   T[shift 3] = V[shift 3]
    Conclude(Instances(TyEqSub), [77, 36, 7, 10, 17, 0, 0, 0, 0, 0], [76, 5, 0, 0, 0, 0, 0]),
    // 79: G.(pi T A+).A+.(sig T[shift 2] (pathp A[shift 4] (var 1) (app (var 2) (var 0)))) >>
    //   T[shift 3]
    Conclude(Instances(TySub), [77, 36, 7, 10, 0, 0, 0, 0, 0, 0], [76, 1, 0, 0, 0, 0, 0]),
    // 80: shift 4 : G.(pi T A+).A+.(sig T[shift 2] (pathp A[shift 4] (var 1) (app (var 2) (var
    //   0)))).T[shift 3] to G
    Conclude(Contexts(SubWk), [77, 36, 7, 61, 0, 0, 0, 0, 0, 0], [76, 79, 0, 0, 0, 0, 0]),
    WithVar(77, 61),
    // 82: shift 5 : G.(pi T A+).A+.(sig T[shift 2] (pathp A[shift 4] (var 1) (app (var 2) (var
    //   0)))).T[shift 3].I to G
    Conclude(Contexts(SubWkName), [81, 39, 7, 0, 0, 0, 0, 0, 0, 0], [80, 0, 0, 0, 0, 0, 0]),
    WithName(81),
    Shift(5),
    // 85: G.(pi T A+).A+.(sig T[shift 2] (pathp A[shift 4] (var 1) (app (var 2) (var 0)))).T[shift
    //   3].I >> A[shift 5] = B[shift 5]
    Conclude(Instances(TyEqSub), [83, 84, 7, 14, 15, 0, 0, 0, 0, 0], [82, 6, 0, 0, 0, 0, 0]),
    // 86: up : G.(pi T A+).A+.(sig T[shift 2] (pathp A[shift 4] (var 1) (app (var 2) (var 0)))) to
    //   G.(pi T A+).A+
    Conclude(Contexts(SubWk), [29, 9, 29, 75, 0, 0, 0, 0, 0, 0], [43, 74, 0, 0, 0, 0, 0]),
    // 87: shift 2 : G.(pi T A+).A+.(sig T[shift 2] (pathp A[shift 4] (var 1) (app (var 2) (var
    //   0)))).T[shift 3] to G.(pi T A+).A+
    Conclude(Contexts(SubWk), [77, 13, 29, 61, 0, 0, 0, 0, 0, 0], [86, 79, 0, 0, 0, 0, 0]),
    // 88: G.(pi T A+).A+.(sig T[shift 2] (pathp A[shift 4] (var 1) (app (var 2) (var 0)))).T[shift
    //   3] >> var 2 : A[shift 4]
    Conclude(Instances(TmSub), [81, 30, 29, 45, 46, 0, 0, 0, 0, 0], [87, 41, 0, 0, 0, 0, 0]),
    // 89: G.(pi T A+).A+.(sig T[shift 2] (pathp A[shift 4] (var 1) (app (var 2) (var 0)))).T[shift
    //   3] >> var 2 = var 2 : A[shift 4]
    Conclude(Equality(TmEqRefl), [81, 60, 62, 0, 0, 0, 0, 0, 0, 0], [88, 0, 0, 0, 0, 0, 0]),
    // 90: shift 2 : G.(pi T A+).A+.(sig T[shift 2] (pathp A[shift 4] (var 1) (app (var 2) (var
    //   0)))) to G.(pi T A+)
    Conclude(Contexts(SubWk), [29, 13, 25, 75, 0, 0, 0, 0, 0, 0], [54, 74, 0, 0, 0, 0, 0]),
    // 91: shift 3 : G.(pi T A+).A+.(sig T[shift 2] (pathp A[shift 4] (var 1) (app (var 2) (var
    //   0)))).T[shift 3] to G.(pi T A+)
    Conclude(Contexts(SubWk), [77, 30, 25, 61, 0, 0, 0, 0, 0, 0], [90, 79, 0, 0, 0, 0, 0]),
    // 92: G.(pi T A+).A+.(sig T[shift 2] (pathp A[shift 4] (var 1) (app (var 2) (var 0)))).T[shift
    //   3] >> var 3 : pi T[shift 4] A[shift 5]
    Conclude(Instances(TmSub), [81, 36, 25, 45, 57, 0, 0, 0, 0, 0], [91, 51, 0, 0, 0, 0, 0]),
    // 93: G.(pi T A+).A+.(sig T[shift 2] (pathp A[shift 4] (var 1) (app (var 2) (var 0)))).T[shift
    //   3] >> var 0 : T[shift 4]
    Conclude(Instances(TmVar), [77, 61, 0, 0, 0, 0, 0, 0, 0, 0], [79, 0, 0, 0, 0, 0, 0]),
    Var(3),
    Instance(10, 39),
    Instance(14, 84),
    // 97: G.(pi T A+).A+.(sig T[shift 2] (pathp A[shift 4] (var 1) (app (var 2) (var 0)))).T[shift
    //   3] >> app (var 3) (var 0) : A[shift 4]
    Conclude(Pi(App), [81, 94, 45, 95, 96, 0, 0, 0, 0, 0], [92, 93, 0, 0, 0, 0, 0]),
    Make(Op::App, [94, 45, 0, 0]),
    // 99: G.(pi T A+).A+.(sig T[shift 2] (pathp A[shift 4] (var 1) (app (var 2) (var 0)))).T[shift
    //   3] >> app (var 3) (var 0) = app (var 3) (var 0) : A[shift 4]
    Conclude(Equality(TmEqRefl), [81, 98, 62, 0, 0, 0, 0, 0, 0, 0], [97, 0, 0, 0, 0, 0, 0]),
    Instance(15, 84),
    // 101: G.(pi T A+).A+.(sig T[shift 2] (pathp A[shift 4] (var 1) (app (var 2) (var 0)))).T[shift
    //   3] >> pathp A[shift 5] (var 2) (app (var 3) (var 0)) = pathp B[shift 5] (var 2) (app (var
    //   3) (var 0))
    Conclude(Paths(PathTyCong), [81, 96, 100, 60, 60, 98, 98, 0, 0, 0], [85, 89, 99, 0, 0, 0, 0]),
    Instance(17, 36),
    Make(Op::PathP, [96, 60, 98, 0]),
    Make(Op::PathP, [100, 60, 98, 0]),
    // 105: G.(pi T A+).A+.(sig T[shift 2] (pathp A[shift 4] (var 1) (app (var 2) (var 0)))) >> sig
    //   T[shift 3] (pathp A[shift 5] (var 2) (app (var 3) (var 0))) = sig V[shift 3] (pathp B[shift
    //   5] (var 2) (app (var 3) (var 0)))
    Conclude(Sigma(SigTyCong), [77, 61, 102, 103, 104, 0, 0, 0, 0, 0], [78, 101, 0, 0, 0, 0, 0]),
    // 106: G.(pi T A+).A+.(sig T[shift 2] (pathp A[shift 4] (var 1) (app (var 2) (var 0)))) >> sig
    //   T[shift 3] (pathp A[shift 5] (var 2) (app (var 3) (var 0)))
    Conclude(Instances(TySub), [77, 13, 29, 75, 0, 0, 0, 0, 0, 0], [86, 74, 0, 0, 0, 0, 0]),
    Make(Op::Sig, [61, 103, 0, 0]),
    // 108: shift 4 : G.(pi T A+).A+.(sig T[shift 2] (pathp A[shift 4] (var 1) (app (var 2) (var
    //   0)))).(sig T[shift 3] (pathp A[shift 5] (var 2) (app (var 3) (var 0)))) to G
    Conclude(Contexts(SubWk), [77, 36, 7, 107, 0, 0, 0, 0, 0, 0], [76, 106, 0, 0, 0, 0, 0]),
    WithVar(77, 107),
    // 110: shift 5 : G.(pi T A+).A+.(sig T[shift 2] (pathp A[shift 4] (var 1) (app (var 2) (var
    //   0)))).(sig T[shift 3] (pathp A[shift 5] (var 2) (app (var 3) (var 0)))).I to G
    Conclude(Contexts(SubWkName), [109, 39, 7, 0, 0, 0, 0, 0, 0, 0], [108, 0, 0, 0, 0, 0, 0]),
    WithName(109),
    // 112: G.(pi T A+).A+.(sig T[shift 2] (pathp A[shift 4] (var 1) (app (var 2) (var 0)))).(sig
    //   T[shift 3] (pathp A[shift 5] (var 2) (app (var 3) (var 0)))).I >> T[shift 5] = V[shift 5]
    Conclude(Instances(TyEqSub), [111, 84, 7, 10, 17, 0, 0, 0, 0, 0], [110, 5, 0, 0, 0, 0, 0]),
    // 113: G.(pi T A+).A+.(sig T[shift 2] (pathp A[shift 4] (var 1) (app (var 2) (var 0)))).(sig
    //   T[shift 3] (pathp A[shift 5] (var 2) (app (var 3) (var 0)))).I >> T[shift 5]
    Conclude(Instances(TySub), [111, 84, 7, 10, 0, 0, 0, 0, 0, 0], [110, 1, 0, 0, 0, 0, 0]),
    Instance(10, 84),
    // 115: shift 6 : G.(pi T A+).A+.(sig T[shift 2] (pathp A[shift 4] (var 1) (app (var 2) (var
    //   0)))).(sig T[shift 3] (pathp A[shift 5] (var 2) (app (var 3) (var 0)))).I.T[shift 5] to G
    Conclude(Contexts(SubWk), [111, 84, 7, 114, 0, 0, 0, 0, 0, 0], [110, 113, 0, 0, 0, 0, 0]),
    WithVar(111, 114),
    Shift(6),
    // 118: shift 7 : G.(pi T A+).A+.(sig T[shift 2] (pathp A[shift 4] (var 1) (app (var 2) (var
    //   0)))).(sig T[shift 3] (pathp A[shift 5] (var 2) (app (var 3) (var 0)))).I.T[shift 5].I to G
    Conclude(Contexts(SubWkName), [116, 117, 7, 0, 0, 0, 0, 0, 0, 0], [115, 0, 0, 0, 0, 0, 0]),
    WithName(116),
    Shift(7),
    // 121: G.(pi T A+).A+.(sig T[shift 2] (pathp A[shift 4] (var 1) (app (var 2) (var 0)))).(sig
    //   T[shift 3] (pathp A[shift 5] (var 2) (app (var 3) (var 0)))).I.T[shift 5].I >> A[shift 7] =
    //   B[shift 7]
    Conclude(Instances(TyEqSub), [119, 120, 7, 14, 15, 0, 0, 0, 0, 0], [118, 6, 0, 0, 0, 0, 0]),
    // 122: shift 2 : G.(pi T A+).A+.(sig T[shift 2] (pathp A[shift 4] (var 1) (app (var 2) (var
    //   0)))).(sig T[shift 3] (pathp A[shift 5] (var 2) (app (var 3) (var 0)))) to G.(pi T A+).A+
    Conclude(Contexts(SubWk), [77, 13, 29, 107, 0, 0, 0, 0, 0, 0], [86, 106, 0, 0, 0, 0, 0]),
    // 123: shift 3 : G.(pi T A+).A+.(sig T[shift 2] (pathp A[shift 4] (var 1) (app (var 2) (var
    //   0)))).(sig T[shift 3] (pathp A[shift 5] (var 2) (app (var 3) (var 0)))).I to G.(pi T A+).A+
    Conclude(Contexts(SubWkName), [109, 30, 29, 0, 0, 0, 0, 0, 0, 0], [122, 0, 0, 0, 0, 0, 0]),
    // 124: shift 4 : G.(pi T A+).A+.(sig T[shift 2] (pathp A[shift 4] (var 1) (app (var 2) (var
    //   0)))).(sig T[shift 3] (pathp A[shift 5] (var 2) (app (var 3) (var 0)))).I.T[shift 5] to
    //   G.(pi T A+).A+
    Conclude(Contexts(SubWk), [111, 36, 29, 114, 0, 0, 0, 0, 0, 0], [123, 113, 0, 0, 0, 0, 0]),
    // 125: G.(pi T A+).A+.(sig T[shift 2] (pathp A[shift 4] (var 1) (app (var 2) (var 0)))).(sig
    //   T[shift 3] (pathp A[shift 5] (var 2) (app (var 3) (var 0)))).I.T[shift 5] >> var 4 :
    //   A[shift 6]
    Conclude(Instances(TmSub), [116, 39, 29, 45, 46, 0, 0, 0, 0, 0], [124, 41, 0, 0, 0, 0, 0]),
    Var(4),
    Instance(14, 117),
    // 128: G.(pi T A+).A+.(sig T[shift 2] (pathp A[shift 4] (var 1) (app (var 2) (var 0)))).(sig
    //   T[shift 3] (pathp A[shift 5] (var 2) (app (var 3) (var 0)))).I.T[shift 5] >> var 4 = var 4
    //   : A[shift 6]
    Conclude(Equality(TmEqRefl), [116, 126, 127, 0, 0, 0, 0, 0, 0, 0], [125, 0, 0, 0, 0, 0, 0]),
    // 129: shift 3 : G.(pi T A+).A+.(sig T[shift 2] (pathp A[shift 4] (var 1) (app (var 2) (var
    //   0)))).(sig T[shift 3] (pathp A[shift 5] (var 2) (app (var 3) (var 0)))) to G.(pi T A+)
    Conclude(Contexts(SubWk), [77, 30, 25, 107, 0, 0, 0, 0, 0, 0], [90, 106, 0, 0, 0, 0, 0]),
    // 130: shift 4 : G.(pi T A+).A+.(sig T[shift 2] (pathp A[shift 4] (var 1) (app (var 2) (var
    //   0)))).(sig T[shift 3] (pathp A[shift 5] (var 2) (app (var 3) (var 0)))).I to G.(pi T A+)
    Conclude(Contexts(SubWkName), [109, 36, 25, 0, 0, 0, 0, 0, 0, 0], [129, 0, 0, 0, 0, 0, 0]),
    // 131: shift 5 : G.(pi T A+).A+.(sig T[shift 2] (pathp A[shift 4] (var 1) (app (var 2) (var
    //   0)))).(sig T[shift 3] (pathp A[shift 5] (var 2) (app (var 3) (var 0)))).I.T[shift 5] to
    //   G.(pi T A+)
    Conclude(Contexts(SubWk), [111, 39, 25, 114, 0, 0, 0, 0, 0, 0], [130, 113, 0, 0, 0, 0, 0]),
    // 132: G.(pi T A+).A+.(sig T[shift 2] (pathp A[shift 4] (var 1) (app (var 2) (var 0)))).(sig
    //   T[shift 3] (pathp A[shift 5] (var 2) (app (var 3) (var 0)))).I.T[shift 5] >> var 5 : pi
    //   T[shift 6] A[shift 7]
    Conclude(Instances(TmSub), [116, 84, 25, 45, 57, 0, 0, 0, 0, 0], [131, 51, 0, 0, 0, 0, 0]),
    // 133: G.(pi T A+).A+.(sig T[shift 2] (pathp A[shift 4] (var 1) (app (var 2) (var 0)))).(sig
    //   T[shift 3] (pathp A[shift 5] (var 2) (app (var 3) (var 0)))).I.T[shift 5] >> var 0 :
    //   T[shift 6]
    Conclude(Instances(TmVar), [111, 114, 0, 0, 0, 0, 0, 0, 0, 0], [113, 0, 0, 0, 0, 0, 0]),
    Var(5),
    Instance(10, 117),
    Instance(14, 120),
    // 137: G.(pi T A+).A+.(sig T[shift 2] (pathp A[shift 4] (var 1) (app (var 2) (var 0)))).(sig
    //   T[shift 3] (pathp A[shift 5] (var 2) (app (var 3) (var 0)))).I.T[shift 5] >> app (var 5)
    //   (var 0) : A[shift 6]
    Conclude(Pi(App), [116, 134, 45, 135, 136, 0, 0, 0, 0, 0], [132, 133, 0, 0, 0, 0, 0]),
    Make(Op::App, [134, 45, 0, 0]),
    // 139: G.(pi T A+).A+.(sig T[shift 2] (pathp A[shift 4] (var 1) (app (var 2) (var 0)))).(sig
    //   T[shift 3] (pathp A[shift 5] (var 2) (app (var 3) (var 0)))).I.T[shift 5] >> app (var 5)
    //   (var 0) = app (var 5) (var 0) : A[shift 6]
    Conclude(Equality(TmEqRefl), [116, 138, 127, 0, 0, 0, 0, 0, 0, 0], [137, 0, 0, 0, 0, 0, 0]),
    Instance(15, 120),
    // 141: G.(pi T A+).A+.(sig T[shift 2] (pathp A[shift 4] (var 1) (app (var 2) (var 0)))).(sig
    //   T[shift 3] (pathp A[shift 5] (var 2) (app (var 3) (var 0)))).I.T[shift 5] >> pathp A[shift
    //   7] (var 4) (app (var 5) (var 0)) = pathp B[shift 7] (var 4) (app (var 5) (var 0))
    Conclude(Paths(PathTyCong), [116, 136, 140, 126, 126, 138, 138, 0, 0, 0],
        [121, 128, 139, 0, 0, 0, 0]),
    Instance(17, 84),
    Make(Op::PathP, [136, 126, 138, 0]),
    Make(Op::PathP, [140, 126, 138, 0]),
    // 145: G.(pi T A+).A+.(sig T[shift 2] (pathp A[shift 4] (var 1) (app (var 2) (var 0)))).(sig
    //   T[shift 3] (pathp A[shift 5] (var 2) (app (var 3) (var 0)))).I >> sig T[shift 5] (pathp
    //   A[shift 7] (var 4) (app (var 5) (var 0))) = sig V[shift 5] (pathp B[shift 7] (var 4) (app
    //   (var 5) (var 0)))
    Conclude(Sigma(SigTyCong), [111, 114, 142, 143, 144, 0, 0, 0, 0, 0], [112, 141, 0, 0, 0, 0, 0]),
    // 146: G.(pi T A+).A+.(sig T[shift 2] (pathp A[shift 4] (var 1) (app (var 2) (var 0)))) >> var
    //   0 : sig T[shift 3] (pathp A[shift 5] (var 2) (app (var 3) (var 0)))
    Conclude(Instances(TmVar), [29, 75, 0, 0, 0, 0, 0, 0, 0, 0], [74, 0, 0, 0, 0, 0, 0]),
    // 147: ctx G.(pi T A+).A+.(sig T[shift 2] (pathp A[shift 4] (var 1) (app (var 2) (var 0))))
    Conclude(Contexts(CtxVar), [29, 75, 0, 0, 0, 0, 0, 0, 0, 0], [74, 0, 0, 0, 0, 0, 0]),
    // 148: id : G.(pi T A+).A+.(sig T[shift 2] (pathp A[shift 4] (var 1) (app (var 2) (var 0)))) to
    //   G.(pi T A+).A+.(sig T[shift 2] (pathp A[shift 4] (var 1) (app (var 2) (var 0))))
    Conclude(Contexts(SubId), [77, 0, 0, 0, 0, 0, 0, 0, 0, 0], [147, 0, 0, 0, 0, 0, 0]),
    // 149: up : G.(pi T A+).A+.(sig T[shift 2] (pathp A[shift 4] (var 1) (app (var 2) (var
    //   0)))).(sig T[shift 3] (pathp A[shift 5] (var 2) (app (var 3) (var 0)))) to G.(pi T
    //   A+).A+.(sig T[shift 2] (pathp A[shift 4] (var 1) (app (var 2) (var 0))))
    Conclude(Contexts(SubWk), [77, 9, 77, 107, 0, 0, 0, 0, 0, 0], [148, 106, 0, 0, 0, 0, 0]),
    // 150: G.(pi T A+).A+.(sig T[shift 2] (pathp A[shift 4] (var 1) (app (var 2) (var 0)))).(sig
    //   T[shift 3] (pathp A[shift 5] (var 2) (app (var 3) (var 0)))) >> var 1 : sig T[shift 4]
    //   (pathp A[shift 6] (var 3) (app (var 4) (var 0)))
    Conclude(Instances(TmSub), [109, 13, 77, 45, 107, 0, 0, 0, 0, 0], [149, 146, 0, 0, 0, 0, 0]),
    Make(Op::App, [126, 45, 0, 0]),
    Make(Op::PathP, [127, 94, 151, 0]),
    Make(Op::Sig, [95, 152, 0, 0]),
    // 154: G.(pi T A+).A+.(sig T[shift 2] (pathp A[shift 4] (var 1) (app (var 2) (var 0)))).(sig
    //   T[shift 3] (pathp A[shift 5] (var 2) (app (var 3) (var 0)))) >> var 1 = var 1 : sig T[shift
    //   4] (pathp A[shift 6] (var 3) (app (var 4) (var 0)))
    Conclude(Equality(TmEqRefl), [109, 48, 153, 0, 0, 0, 0, 0, 0, 0], [150, 0, 0, 0, 0, 0, 0]),
    // 155: G.(pi T A+).A+.(sig T[shift 2] (pathp A[shift 4] (var 1) (app (var 2) (var 0)))).(sig
    //   T[shift 3] (pathp A[shift 5] (var 2) (app (var 3) (var 0)))) >> var 0 : sig T[shift 4]
    //   (pathp A[shift 6] (var 3) (app (var 4) (var 0)))
    Conclude(Instances(TmVar), [77, 107, 0, 0, 0, 0, 0, 0, 0, 0], [106, 0, 0, 0, 0, 0, 0]),
    // 156: G.(pi T A+).A+.(sig T[shift 2] (pathp A[shift 4] (var 1) (app (var 2) (var 0)))).(sig
    //   T[shift 3] (pathp A[shift 5] (var 2) (app (var 3) (var 0)))) >> var 0 = var 0 : sig T[shift
    //   4] (pathp A[shift 6] (var 3) (app (var 4) (var 0)))
    Conclude(Equality(TmEqRefl), [109, 45, 153, 0, 0, 0, 0, 0, 0, 0], [155, 0, 0, 0, 0, 0, 0]),
    Make(Op::Sig, [114, 143, 0, 0]),
    Make(Op::Sig, [142, 144, 0, 0]),
    // 159: G.(pi T A+).A+.(sig T[shift 2] (pathp A[shift 4] (var 1) (app (var 2) (var 0)))).(sig
    //   T[shift 3] (pathp A[shift 5] (var 2) (app (var 3) (var 0)))) >> pathp (sig T[shift 5]
    //   (pathp A[shift 7] (var 4) (app (var 5) (var 0)))) (var 1) (var 0) = pathp (sig V[shift 5]
    //   (pathp B[shift 7] (var 4) (app (var 5) (var 0)))) (var 1) (var 0)
    Conclude(Paths(PathTyCong), [109, 157, 158, 48, 48, 45, 45, 0, 0, 0],
        [145, 154, 156, 0, 0, 0, 0]),
    Make(Op::Sig, [102, 104, 0, 0]),
    Make(Op::PathP, [157, 48, 45, 0]),
    Make(Op::PathP, [158, 48, 45, 0]),
    // 163: G.(pi T A+).A+.(sig T[shift 2] (pathp A[shift 4] (var 1) (app (var 2) (var 0)))) >> pi
    //   (sig T[shift 3] (pathp A[shift 5] (var 2) (app (var 3) (var 0)))) (pathp (sig T[shift 5]
    //   (pathp A[shift 7] (var 4) (app (var 5) (var 0)))) (var 1) (var 0)) = pi (sig V[shift 3]
    //   (pathp B[shift 5] (var 2) (app (var 3) (var 0)))) (pathp (sig V[shift 5] (pathp B[shift 7]
    //   (var 4) (app (var 5) (var 0)))) (var 1) (var 0))
    Conclude(Pi(PiTyCong), [77, 107, 160, 161, 162, 0, 0, 0, 0, 0], [105, 159, 0, 0, 0, 0, 0]),
    Make(Op::Sig, [68, 70, 0, 0]),
    Make(Op::Pi, [107, 161, 0, 0]),
    Make(Op::Pi, [160, 162, 0, 0]),
    // 167: G.(pi T A+).A+ >> sig (sig T[shift 2] (pathp A[shift 4] (var 1) (app (var 2) (var 0))))
    //   (pi (sig T[shift 3] (pathp A[shift 5] (var 2) (app (var 3) (var 0)))) (pathp (sig T[shift
    //   5] (pathp A[shift 7] (var 4) (app (var 5) (var 0)))) (var 1) (var 0))) = sig (sig V[shift
    //   2] (pathp B[shift 4] (var 1) (app (var 2) (var 0)))) (pi (sig V[shift 3] (pathp B[shift 5]
    //   (var 2) (app (var 3) (var 0)))) (pathp (sig V[shift 5] (pathp B[shift 7] (var 4) (app (var
    //   5) (var 0)))) (var 1) (var 0)))
    Conclude(Sigma(SigTyCong), [29, 75, 164, 165, 166, 0, 0, 0, 0, 0], [71, 163, 0, 0, 0, 0, 0]),
    Make(Op::Sig, [75, 165, 0, 0]),
    Make(Op::Sig, [164, 166, 0, 0]),
    // 170: G.(pi T A+) >> pi A+ (sig (sig T[shift 2] (pathp A[shift 4] (var 1) (app (var 2) (var
    //   0)))) (pi (sig T[shift 3] (pathp A[shift 5] (var 2) (app (var 3) (var 0)))) (pathp (sig
    //   T[shift 5] (pathp A[shift 7] (var 4) (app (var 5) (var 0)))) (var 1) (var 0)))) = pi B+
    //   (sig (sig V[shift 2] (pathp B[shift 4] (var 1) (app (var 2) (var 0)))) (pi (sig V[shift 3]
    //   (pathp B[shift 5] (var 2) (app (var 3) (var 0)))) (pathp (sig V[shift 5] (pathp B[shift 7]
    //   (var 4) (app (var 5) (var 0)))) (var 1) (var 0))))
    Conclude(Pi(PiTyCong), [25, 18, 19, 168, 169, 0, 0, 0, 0, 0], [26, 167, 0, 0, 0, 0, 0]),
    Make(Op::Pi, [17, 19, 0, 0]),
    Make(Op::Pi, [18, 168, 0, 0]),
    Make(Op::Pi, [19, 169, 0, 0]),
    // 174: G >> equiv T A = equiv V B
    Conclude(Sigma(SigTyCong), [7, 23, 171, 172, 173, 0, 0, 0, 0, 0], [20, 170, 0, 0, 0, 0, 0]),
};

/// The rows of what it gives: equal.
pub static EQUIV_TYCONG_GIVES: &[u16] = &[174];
