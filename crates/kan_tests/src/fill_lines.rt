//! Written by tools/write_recipes.py.

use recipes::Row::{
    Conclude, Derive, Instance, Make, Nil, Shift, Var, WithFace, WithName, WithVar,
};
use recipes::{Row, table};
use theory::ContextRule::{CtxFace, CtxName, CtxNil, CtxVar, SubId, SubWk, SubWkFace, SubWkName};
use theory::EqualityRule::TmEqRefl;
use theory::InstanceRule::{TmSub, TmVar, TySub};
use theory::NatRule::{NatU, Zero};
use theory::Op;
use theory::PathRule::{PLam, PathTy};
use theory::PiRule::{Lam, PiTy};
use theory::RuleName::{Contexts, Equality, Instances, Naturals, Paths, Pi, Universe};
use theory::UniverseRule::{TyU, TyUniv};

/// Fillings over lines of functions, of paths, and of a type that is a variable.
pub static FILL_LINES: &[Row] = table! {
    // 0: ctx []
    Conclude(Contexts(CtxNil), [0, 0, 0, 0, 0, 0, 0, 0, 0, 0], [0, 0, 0, 0, 0, 0, 0]),
    Nil,
    // 2: ctx [].I
    Conclude(Contexts(CtxName), [1, 0, 0, 0, 0, 0, 0, 0, 0, 0], [0, 0, 0, 0, 0, 0, 0]),
    WithName(1),
    // 4: [].I >> U
    Conclude(Universe(TyUniv), [3, 0, 0, 0, 0, 0, 0, 0, 0, 0], [2, 0, 0, 0, 0, 0, 0]),
    Make(Op::U, [0, 0, 0, 0]),
    // 6: ctx X
    Conclude(Contexts(CtxVar), [3, 5, 0, 0, 0, 0, 0, 0, 0, 0], [4, 0, 0, 0, 0, 0, 0]),
    // 7: X >> var 0 : U
    Conclude(Instances(TmVar), [3, 5, 0, 0, 0, 0, 0, 0, 0, 0], [4, 0, 0, 0, 0, 0, 0]),
    WithVar(3, 5),
    Var(0),
    // 10: X >> var 0
    Conclude(Universe(TyU), [8, 9, 0, 0, 0, 0, 0, 0, 0, 0], [7, 0, 0, 0, 0, 0, 0]),
    // 11: ctx G
    Conclude(Contexts(CtxVar), [8, 9, 0, 0, 0, 0, 0, 0, 0, 0], [10, 0, 0, 0, 0, 0, 0]),
    // 12: G >> a : var 1
    Conclude(Instances(TmVar), [8, 9, 0, 0, 0, 0, 0, 0, 0, 0], [10, 0, 0, 0, 0, 0, 0]),
    // 13: id : X to X
    Conclude(Contexts(SubId), [8, 0, 0, 0, 0, 0, 0, 0, 0, 0], [6, 0, 0, 0, 0, 0, 0]),
    Shift(0),
    // 15: up : G to X
    Conclude(Contexts(SubWk), [8, 14, 8, 9, 0, 0, 0, 0, 0, 0], [13, 10, 0, 0, 0, 0, 0]),
    WithVar(8, 9),
    Shift(1),
    // 18: G >> var 1
    Conclude(Instances(TySub), [16, 17, 8, 9, 0, 0, 0, 0, 0, 0], [15, 10, 0, 0, 0, 0, 0]),
    // 19: id : G to G
    Conclude(Contexts(SubId), [16, 0, 0, 0, 0, 0, 0, 0, 0, 0], [11, 0, 0, 0, 0, 0, 0]),
    // 20: up : G.I to G
    Conclude(Contexts(SubWkName), [16, 14, 16, 0, 0, 0, 0, 0, 0, 0], [19, 0, 0, 0, 0, 0, 0]),
    WithName(16),
    Var(1),
    // 23: G.I >> var 2
    Conclude(Instances(TySub), [21, 17, 16, 22, 0, 0, 0, 0, 0, 0], [20, 18, 0, 0, 0, 0, 0]),
    Var(2),
    Make(Op::Eq0, [24, 0, 0, 0]),
    // 26: id : P to G
    Conclude(Contexts(SubWkFace), [16, 14, 16, 25, 0, 0, 0, 0, 0, 0], [19, 0, 0, 0, 0, 0, 0]),
    WithFace(16, 25),
    // 28: up : P.I to G
    Conclude(Contexts(SubWkName), [27, 14, 16, 0, 0, 0, 0, 0, 0, 0], [26, 0, 0, 0, 0, 0, 0]),
    WithName(27),
    // 30: P.I >> a+ : var 2
    Conclude(Instances(TmSub), [29, 17, 16, 9, 22, 0, 0, 0, 0, 0], [28, 12, 0, 0, 0, 0, 0]),
    // 31: P >> a : var 1
    Conclude(Instances(TmSub), [27, 14, 16, 9, 22, 0, 0, 0, 0, 0], [26, 12, 0, 0, 0, 0, 0]),
    // 32: P >> a = a : var 1
    Conclude(Equality(TmEqRefl), [27, 9, 22, 0, 0, 0, 0, 0, 0, 0], [31, 0, 0, 0, 0, 0, 0]),
    Instance(9, 17),
    Make(Op::Neg, [24, 0, 0, 0]),
    Make(Op::Min, [24, 34, 0, 0]),
    // 36: fill
    Derive(0, [16, 24, 25, 33, 9, 35, 0, 0, 0, 0],
        [11, 23, 30, 12, 32, 0, 0, 0, 0, 0, 0, 0, 0, 0, 0, 0]),
    // 40: ctx G.I
    Conclude(Contexts(CtxName), [16, 0, 0, 0, 0, 0, 0, 0, 0, 0], [11, 0, 0, 0, 0, 0, 0]),
    // 41: ctx P
    Conclude(Contexts(CtxFace), [16, 25, 0, 0, 0, 0, 0, 0, 0, 0], [11, 0, 0, 0, 0, 0, 0]),
    // 42: ctx P.I
    Conclude(Contexts(CtxName), [27, 0, 0, 0, 0, 0, 0, 0, 0, 0], [41, 0, 0, 0, 0, 0, 0]),
    // 43: G.I >> nat : U
    Conclude(Naturals(NatU), [21, 0, 0, 0, 0, 0, 0, 0, 0, 0], [40, 0, 0, 0, 0, 0, 0]),
    Make(Op::Nat, [0, 0, 0, 0]),
    // 45: G.I >> nat
    Conclude(Universe(TyU), [21, 44, 0, 0, 0, 0, 0, 0, 0, 0], [43, 0, 0, 0, 0, 0, 0]),
    // 46: ctx G.I.nat
    Conclude(Contexts(CtxVar), [21, 44, 0, 0, 0, 0, 0, 0, 0, 0], [45, 0, 0, 0, 0, 0, 0]),
    WithVar(21, 44),
    // 48: G.I.nat >> nat : U
    Conclude(Naturals(NatU), [47, 0, 0, 0, 0, 0, 0, 0, 0, 0], [46, 0, 0, 0, 0, 0, 0]),
    // 49: G.I.nat >> nat
    Conclude(Universe(TyU), [47, 44, 0, 0, 0, 0, 0, 0, 0, 0], [48, 0, 0, 0, 0, 0, 0]),
    // 50: G.I >> function
    Conclude(Pi(PiTy), [21, 44, 44, 0, 0, 0, 0, 0, 0, 0], [45, 49, 0, 0, 0, 0, 0]),
    // 51: G >> nat : U
    Conclude(Naturals(NatU), [16, 0, 0, 0, 0, 0, 0, 0, 0, 0], [11, 0, 0, 0, 0, 0, 0]),
    // 52: G >> nat
    Conclude(Universe(TyU), [16, 44, 0, 0, 0, 0, 0, 0, 0, 0], [51, 0, 0, 0, 0, 0, 0]),
    // 53: G.nat >> var 0 : nat
    Conclude(Instances(TmVar), [16, 44, 0, 0, 0, 0, 0, 0, 0, 0], [52, 0, 0, 0, 0, 0, 0]),
    // 54: G >> same : function
    Conclude(Pi(Lam), [16, 44, 9, 44, 0, 0, 0, 0, 0, 0], [52, 53, 0, 0, 0, 0, 0]),
    // 55: P >> nat : U
    Conclude(Naturals(NatU), [27, 0, 0, 0, 0, 0, 0, 0, 0, 0], [41, 0, 0, 0, 0, 0, 0]),
    // 56: P >> nat
    Conclude(Universe(TyU), [27, 44, 0, 0, 0, 0, 0, 0, 0, 0], [55, 0, 0, 0, 0, 0, 0]),
    // 57: P.nat >> var 0 : nat
    Conclude(Instances(TmVar), [27, 44, 0, 0, 0, 0, 0, 0, 0, 0], [56, 0, 0, 0, 0, 0, 0]),
    // 58: P >> same : function
    Conclude(Pi(Lam), [27, 44, 9, 44, 0, 0, 0, 0, 0, 0], [56, 57, 0, 0, 0, 0, 0]),
    // 59: P.I >> nat : U
    Conclude(Naturals(NatU), [29, 0, 0, 0, 0, 0, 0, 0, 0, 0], [42, 0, 0, 0, 0, 0, 0]),
    // 60: P.I >> nat
    Conclude(Universe(TyU), [29, 44, 0, 0, 0, 0, 0, 0, 0, 0], [59, 0, 0, 0, 0, 0, 0]),
    // 61: P.I.nat >> var 0 : nat
    Conclude(Instances(TmVar), [29, 44, 0, 0, 0, 0, 0, 0, 0, 0], [60, 0, 0, 0, 0, 0, 0]),
    // 62: P.I >> same : function
    Conclude(Pi(Lam), [29, 44, 9, 44, 0, 0, 0, 0, 0, 0], [60, 61, 0, 0, 0, 0, 0]),
    Make(Op::Lam, [44, 9, 0, 0]),
    Make(Op::Pi, [44, 44, 0, 0]),
    // 65: P >> same = same : function
    Conclude(Equality(TmEqRefl), [27, 63, 64, 0, 0, 0, 0, 0, 0, 0], [58, 0, 0, 0, 0, 0, 0]),
    // 66: fill
    Derive(0, [16, 64, 25, 63, 63, 35, 0, 0, 0, 0],
        [11, 50, 62, 54, 65, 0, 0, 0, 0, 0, 0, 0, 0, 0, 0, 0]),
    // 70: ctx G.I.I
    Conclude(Contexts(CtxName), [21, 0, 0, 0, 0, 0, 0, 0, 0, 0], [40, 0, 0, 0, 0, 0, 0]),
    WithName(21),
    // 72: G.I.I >> nat : U
    Conclude(Naturals(NatU), [71, 0, 0, 0, 0, 0, 0, 0, 0, 0], [70, 0, 0, 0, 0, 0, 0]),
    // 73: G.I.I >> nat
    Conclude(Universe(TyU), [71, 44, 0, 0, 0, 0, 0, 0, 0, 0], [72, 0, 0, 0, 0, 0, 0]),
    // 74: G.I >> zero : nat
    Conclude(Naturals(Zero), [21, 0, 0, 0, 0, 0, 0, 0, 0, 0], [40, 0, 0, 0, 0, 0, 0]),
    Make(Op::Zero, [0, 0, 0, 0]),
    // 76: G.I >> path
    Conclude(Paths(PathTy), [21, 44, 75, 75, 0, 0, 0, 0, 0, 0], [73, 74, 74, 0, 0, 0, 0]),
    // 77: ctx G.I
    Conclude(Contexts(CtxName), [16, 0, 0, 0, 0, 0, 0, 0, 0, 0], [11, 0, 0, 0, 0, 0, 0]),
    // 78: G.I >> zero : nat
    Conclude(Naturals(Zero), [21, 0, 0, 0, 0, 0, 0, 0, 0, 0], [77, 0, 0, 0, 0, 0, 0]),
    // 79: G >> zero : nat
    Conclude(Naturals(Zero), [16, 0, 0, 0, 0, 0, 0, 0, 0, 0], [11, 0, 0, 0, 0, 0, 0]),
    // 80: G >> zero = zero : nat
    Conclude(Equality(TmEqRefl), [16, 75, 44, 0, 0, 0, 0, 0, 0, 0], [79, 0, 0, 0, 0, 0, 0]),
    // 81: G >> still : path
    Conclude(Paths(PLam), [16, 44, 75, 75, 75, 0, 0, 0, 0, 0], [78, 80, 80, 0, 0, 0, 0]),
    // 82: ctx P.I
    Conclude(Contexts(CtxName), [27, 0, 0, 0, 0, 0, 0, 0, 0, 0], [41, 0, 0, 0, 0, 0, 0]),
    // 83: P.I >> zero : nat
    Conclude(Naturals(Zero), [29, 0, 0, 0, 0, 0, 0, 0, 0, 0], [82, 0, 0, 0, 0, 0, 0]),
    // 84: P >> zero : nat
    Conclude(Naturals(Zero), [27, 0, 0, 0, 0, 0, 0, 0, 0, 0], [41, 0, 0, 0, 0, 0, 0]),
    // 85: P >> zero = zero : nat
    Conclude(Equality(TmEqRefl), [27, 75, 44, 0, 0, 0, 0, 0, 0, 0], [84, 0, 0, 0, 0, 0, 0]),
    // 86: P >> still : path
    Conclude(Paths(PLam), [27, 44, 75, 75, 75, 0, 0, 0, 0, 0], [83, 85, 85, 0, 0, 0, 0]),
    // 87: ctx P.I.I
    Conclude(Contexts(CtxName), [29, 0, 0, 0, 0, 0, 0, 0, 0, 0], [42, 0, 0, 0, 0, 0, 0]),
    WithName(29),
    // 89: P.I.I >> zero : nat
    Conclude(Naturals(Zero), [88, 0, 0, 0, 0, 0, 0, 0, 0, 0], [87, 0, 0, 0, 0, 0, 0]),
    // 90: P.I >> zero : nat
    Conclude(Naturals(Zero), [29, 0, 0, 0, 0, 0, 0, 0, 0, 0], [42, 0, 0, 0, 0, 0, 0]),
    // 91: P.I >> zero = zero : nat
    Conclude(Equality(TmEqRefl), [29, 75, 44, 0, 0, 0, 0, 0, 0, 0], [90, 0, 0, 0, 0, 0, 0]),
    // 92: P.I >> still : path
    Conclude(Paths(PLam), [29, 44, 75, 75, 75, 0, 0, 0, 0, 0], [89, 91, 91, 0, 0, 0, 0]),
    Make(Op::PLam, [75, 0, 0, 0]),
    Make(Op::PathP, [44, 75, 75, 0]),
    // 95: P >> still = still : path
    Conclude(Equality(TmEqRefl), [27, 93, 94, 0, 0, 0, 0, 0, 0, 0], [86, 0, 0, 0, 0, 0, 0]),
    // 96: fill
    Derive(0, [16, 94, 25, 93, 93, 35, 0, 0, 0, 0],
        [11, 76, 92, 81, 95, 0, 0, 0, 0, 0, 0, 0, 0, 0, 0, 0]),
};

/// The rows of what it gives: variable, variable_face, function, function_face, path, path_face.
pub static FILL_LINES_GIVES: &[u16] = &[36, 39, 66, 69, 96, 99];
