//! Written by tools/write_recipes.py.

use recipes::Row::{
    Conclude, Derive, Instance, Make, Nil, Shift, Var, WithFace, WithName, WithVar,
};
use recipes::{Row, table};
use theory::ContextRule::{CtxName, CtxNil, CtxVar, SubId, SubWk, SubWkFace, SubWkName};
use theory::InstanceRule::{TmSub, TmVar, TySub};
use theory::Op;
use theory::PathRule::PathTy;
use theory::PiRule::PiTy;
use theory::RuleName::{Contexts, Instances, Paths, Pi, Sigma, Universe};
use theory::SigmaRule::SigTy;
use theory::UniverseRule::{TyU, TyUniv};

/// An element of a contractible type that is a variable is extended from a face.
pub static CONTR_VARIABLE: &[Row] = table! {
    // 0: ctx []
    Conclude(Contexts(CtxNil), [0, 0, 0, 0, 0, 0, 0, 0, 0, 0], [0, 0, 0, 0, 0, 0, 0]),
    Nil,
    // 2: ctx [].I
    Conclude(Contexts(CtxName), [1, 0, 0, 0, 0, 0, 0, 0, 0, 0], [0, 0, 0, 0, 0, 0, 0]),
    WithName(1),
    // 4: [].I >> U
    Conclude(Universe(TyUniv), [3, 0, 0, 0, 0, 0, 0, 0, 0, 0], [2, 0, 0, 0, 0, 0, 0]),
    Make(Op::U, [0, 0, 0, 0]),
    // 6: ctx X
    Conclude(Contexts(CtxVar), [3, 5, 0, 0, 0, 0, 0, 0, 0, 0], [4, 0, 0, 0, 0, 0, 0]),
    // 7: X >> var 0 : U
    Conclude(Instances(TmVar), [3, 5, 0, 0, 0, 0, 0, 0, 0, 0], [4, 0, 0, 0, 0, 0, 0]),
    WithVar(3, 5),
    Var(0),
    // 10: X >> var 0
    Conclude(Universe(TyU), [8, 9, 0, 0, 0, 0, 0, 0, 0, 0], [7, 0, 0, 0, 0, 0, 0]),
    // 11: id : X to X
    Conclude(Contexts(SubId), [8, 0, 0, 0, 0, 0, 0, 0, 0, 0], [6, 0, 0, 0, 0, 0, 0]),
    Shift(0),
    // 13: up : Y to X
    Conclude(Contexts(SubWk), [8, 12, 8, 9, 0, 0, 0, 0, 0, 0], [11, 10, 0, 0, 0, 0, 0]),
    WithVar(8, 9),
    Shift(1),
    // 16: Y >> var 1
    Conclude(Instances(TySub), [14, 15, 8, 9, 0, 0, 0, 0, 0, 0], [13, 10, 0, 0, 0, 0, 0]),
    // 17: ctx Y
    Conclude(Contexts(CtxVar), [8, 9, 0, 0, 0, 0, 0, 0, 0, 0], [10, 0, 0, 0, 0, 0, 0]),
    // 18: id : Y to Y
    Conclude(Contexts(SubId), [14, 0, 0, 0, 0, 0, 0, 0, 0, 0], [17, 0, 0, 0, 0, 0, 0]),
    Var(1),
    // 20: up : Z to Y
    Conclude(Contexts(SubWk), [14, 12, 14, 19, 0, 0, 0, 0, 0, 0], [18, 16, 0, 0, 0, 0, 0]),
    WithVar(14, 19),
    // 22: Z >> var 2
    Conclude(Instances(TySub), [21, 15, 14, 19, 0, 0, 0, 0, 0, 0], [20, 16, 0, 0, 0, 0, 0]),
    // 23: ctx Z
    Conclude(Contexts(CtxVar), [14, 19, 0, 0, 0, 0, 0, 0, 0, 0], [16, 0, 0, 0, 0, 0, 0]),
    // 24: id : Z to Z
    Conclude(Contexts(SubId), [21, 0, 0, 0, 0, 0, 0, 0, 0, 0], [23, 0, 0, 0, 0, 0, 0]),
    // 25: up : Z.I to Z
    Conclude(Contexts(SubWkName), [21, 12, 21, 0, 0, 0, 0, 0, 0, 0], [24, 0, 0, 0, 0, 0, 0]),
    WithName(21),
    Var(2),
    // 28: Z.I >> var 3
    Conclude(Instances(TySub), [26, 15, 21, 27, 0, 0, 0, 0, 0, 0], [25, 22, 0, 0, 0, 0, 0]),
    // 29: Y >> var 0 : var 1
    Conclude(Instances(TmVar), [8, 9, 0, 0, 0, 0, 0, 0, 0, 0], [10, 0, 0, 0, 0, 0, 0]),
    // 30: Z >> var 1 : var 2
    Conclude(Instances(TmSub), [21, 15, 14, 9, 19, 0, 0, 0, 0, 0], [20, 29, 0, 0, 0, 0, 0]),
    // 31: Z >> var 0 : var 2
    Conclude(Instances(TmVar), [14, 19, 0, 0, 0, 0, 0, 0, 0, 0], [16, 0, 0, 0, 0, 0, 0]),
    Var(3),
    // 33: Z >> path
    Conclude(Paths(PathTy), [21, 32, 19, 9, 0, 0, 0, 0, 0, 0], [28, 30, 31, 0, 0, 0, 0]),
    Make(Op::PathP, [32, 19, 9, 0]),
    // 35: Y >> pi (var 1) path
    Conclude(Pi(PiTy), [14, 19, 34, 0, 0, 0, 0, 0, 0, 0], [16, 33, 0, 0, 0, 0, 0]),
    Make(Op::Pi, [19, 34, 0, 0]),
    // 37: X >> contractible
    Conclude(Sigma(SigTy), [8, 9, 36, 0, 0, 0, 0, 0, 0, 0], [10, 35, 0, 0, 0, 0, 0]),
    Make(Op::Sig, [9, 36, 0, 0]),
    // 39: ctx C
    Conclude(Contexts(CtxVar), [8, 38, 0, 0, 0, 0, 0, 0, 0, 0], [37, 0, 0, 0, 0, 0, 0]),
    // 40: up : C to X
    Conclude(Contexts(SubWk), [8, 12, 8, 38, 0, 0, 0, 0, 0, 0], [11, 37, 0, 0, 0, 0, 0]),
    WithVar(8, 38),
    // 42: C >> var 1
    Conclude(Instances(TySub), [41, 15, 8, 9, 0, 0, 0, 0, 0, 0], [40, 10, 0, 0, 0, 0, 0]),
    // 43: ctx G
    Conclude(Contexts(CtxVar), [41, 19, 0, 0, 0, 0, 0, 0, 0, 0], [42, 0, 0, 0, 0, 0, 0]),
    // 44: id : C to C
    Conclude(Contexts(SubId), [41, 0, 0, 0, 0, 0, 0, 0, 0, 0], [39, 0, 0, 0, 0, 0, 0]),
    // 45: up : G to C
    Conclude(Contexts(SubWk), [41, 12, 41, 19, 0, 0, 0, 0, 0, 0], [44, 42, 0, 0, 0, 0, 0]),
    WithVar(41, 19),
    // 47: G >> var 2
    Conclude(Instances(TySub), [46, 15, 41, 19, 0, 0, 0, 0, 0, 0], [45, 42, 0, 0, 0, 0, 0]),
    // 48: C >> var 0 : contractible+
    Conclude(Instances(TmVar), [8, 38, 0, 0, 0, 0, 0, 0, 0, 0], [37, 0, 0, 0, 0, 0, 0]),
    Instance(38, 15),
    // 50: G >> var 1 : contractible[shift 2]
    Conclude(Instances(TmSub), [46, 15, 41, 9, 49, 0, 0, 0, 0, 0], [45, 48, 0, 0, 0, 0, 0]),
    // 51: G >> var 0 : var 2
    Conclude(Instances(TmVar), [41, 19, 0, 0, 0, 0, 0, 0, 0, 0], [42, 0, 0, 0, 0, 0, 0]),
    // 52: id : G to G
    Conclude(Contexts(SubId), [46, 0, 0, 0, 0, 0, 0, 0, 0, 0], [43, 0, 0, 0, 0, 0, 0]),
    Make(Op::Eq0, [32, 0, 0, 0]),
    // 54: id : P to G
    Conclude(Contexts(SubWkFace), [46, 12, 46, 53, 0, 0, 0, 0, 0, 0], [52, 0, 0, 0, 0, 0, 0]),
    WithFace(46, 53),
    // 56: P >> var 0 : var 2
    Conclude(Instances(TmSub), [55, 12, 46, 9, 27, 0, 0, 0, 0, 0], [54, 51, 0, 0, 0, 0, 0]),
    // 57: contr
    Derive(1, [46, 27, 19, 53, 9, 0, 0, 0, 0, 0],
        [43, 47, 50, 56, 0, 0, 0, 0, 0, 0, 0, 0, 0, 0, 0, 0]),
};

/// The rows of what it gives: typing, face.
pub static CONTR_VARIABLE_GIVES: &[u16] = &[57, 58];

/// The rows of the premises of its last row: context, type, contractible, element.
pub static CONTR_VARIABLE_PREMISES: &[u16] = &[43, 47, 50, 56];
