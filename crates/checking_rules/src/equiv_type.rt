//! Written by tools/write_recipes.py.

use recipes::Row::{Conclude, Field, Instance, Make, Premise, Shift, Var, WithName, WithVar};
use recipes::{Row, table};
use theory::ContextRule::{CtxVar, SubId, SubWk, SubWkName};
use theory::InstanceRule::{TmSub, TmVar, TySub};
use theory::Op;
use theory::PathRule::PathTy;
use theory::PiRule::{App, PiTy};
use theory::RuleName::{Contexts, Instances, Paths, Pi, Sigma};
use theory::SigmaRule::SigTy;

/// The type of equivalences between two types.
/// Its parts are G T A.
pub static EQUIV_TYPE: &[Row] = table! {
    // 0: ctx G
    Premise(0),
    // 1: G >> T
    Premise(1),
    // 2: G >> A
    Premise(2),
    Field(0, 0),
    // 4: id : G to G
    Conclude(Contexts(SubId), [3, 0, 0, 0, 0, 0, 0, 0, 0, 0], [0, 0, 0, 0, 0, 0, 0]),
    Shift(0),
    Field(1, 1),
    // 7: up : G.T to G
    Conclude(Contexts(SubWk), [3, 5, 3, 6, 0, 0, 0, 0, 0, 0], [4, 1, 0, 0, 0, 0, 0]),
    WithVar(3, 6),
    Shift(1),
    Field(2, 1),
    // 11: G.T >> A+
    Conclude(Instances(TySub), [8, 9, 3, 10, 0, 0, 0, 0, 0, 0], [7, 2, 0, 0, 0, 0, 0]),
    Instance(10, 9),
    // 13: G >> maps
    Conclude(Pi(PiTy), [3, 6, 12, 0, 0, 0, 0, 0, 0, 0], [1, 11, 0, 0, 0, 0, 0]),
    Make(Op::Pi, [6, 12, 0, 0]),
    // 15: up : Gf to G
    Conclude(Contexts(SubWk), [3, 5, 3, 14, 0, 0, 0, 0, 0, 0], [4, 13, 0, 0, 0, 0, 0]),
    WithVar(3, 14),
    // 17: Gf >> A+
    Conclude(Instances(TySub), [16, 9, 3, 10, 0, 0, 0, 0, 0, 0], [15, 2, 0, 0, 0, 0, 0]),
    // 18: shift 2 : Gy to G
    Conclude(Contexts(SubWk), [16, 9, 3, 12, 0, 0, 0, 0, 0, 0], [15, 17, 0, 0, 0, 0, 0]),
    WithVar(16, 12),
    Shift(2),
    // 21: Gy >> T[shift 2]
    Conclude(Instances(TySub), [19, 20, 3, 6, 0, 0, 0, 0, 0, 0], [18, 1, 0, 0, 0, 0, 0]),
    Instance(6, 20),
    // 23: shift 3 : Gx to G
    Conclude(Contexts(SubWk), [19, 20, 3, 22, 0, 0, 0, 0, 0, 0], [18, 21, 0, 0, 0, 0, 0]),
    WithVar(19, 22),
    Shift(3),
    // 26: shift 4 : Gx.I to G
    Conclude(Contexts(SubWkName), [24, 25, 3, 0, 0, 0, 0, 0, 0, 0], [23, 0, 0, 0, 0, 0, 0]),
    WithName(24),
    Shift(4),
    // 29: Gx.I >> A[shift 4]
    Conclude(Instances(TySub), [27, 28, 3, 10, 0, 0, 0, 0, 0, 0], [26, 2, 0, 0, 0, 0, 0]),
    // 30: Gy >> var 0 : A[shift 2]
    Conclude(Instances(TmVar), [16, 12, 0, 0, 0, 0, 0, 0, 0, 0], [17, 0, 0, 0, 0, 0, 0]),
    // 31: ctx Gy
    Conclude(Contexts(CtxVar), [16, 12, 0, 0, 0, 0, 0, 0, 0, 0], [17, 0, 0, 0, 0, 0, 0]),
    // 32: id : Gy to Gy
    Conclude(Contexts(SubId), [19, 0, 0, 0, 0, 0, 0, 0, 0, 0], [31, 0, 0, 0, 0, 0, 0]),
    // 33: up : Gx to Gy
    Conclude(Contexts(SubWk), [19, 5, 19, 22, 0, 0, 0, 0, 0, 0], [32, 21, 0, 0, 0, 0, 0]),
    Var(0),
    Instance(10, 20),
    // 36: Gx >> var 1 : A[shift 3]
    Conclude(Instances(TmSub), [24, 9, 19, 34, 35, 0, 0, 0, 0, 0], [33, 30, 0, 0, 0, 0, 0]),
    // 37: Gf >> var 0 : maps+
    Conclude(Instances(TmVar), [3, 14, 0, 0, 0, 0, 0, 0, 0, 0], [13, 0, 0, 0, 0, 0, 0]),
    // 38: ctx Gf
    Conclude(Contexts(CtxVar), [3, 14, 0, 0, 0, 0, 0, 0, 0, 0], [13, 0, 0, 0, 0, 0, 0]),
    // 39: id : Gf to Gf
    Conclude(Contexts(SubId), [16, 0, 0, 0, 0, 0, 0, 0, 0, 0], [38, 0, 0, 0, 0, 0, 0]),
    // 40: up : Gy to Gf
    Conclude(Contexts(SubWk), [16, 5, 16, 12, 0, 0, 0, 0, 0, 0], [39, 17, 0, 0, 0, 0, 0]),
    // 41: shift 2 : Gx to Gf
    Conclude(Contexts(SubWk), [19, 9, 16, 22, 0, 0, 0, 0, 0, 0], [40, 21, 0, 0, 0, 0, 0]),
    Instance(14, 9),
    // 43: Gx >> var 2 : pi T[shift 3] A[shift 4]
    Conclude(Instances(TmSub), [24, 20, 16, 34, 42, 0, 0, 0, 0, 0], [41, 37, 0, 0, 0, 0, 0]),
    // 44: Gx >> var 0 : T[shift 3]
    Conclude(Instances(TmVar), [19, 22, 0, 0, 0, 0, 0, 0, 0, 0], [21, 0, 0, 0, 0, 0, 0]),
    Var(2),
    Instance(6, 25),
    Instance(10, 28),
    // 48: Gx >> image : A[shift 3]
    Conclude(Pi(App), [24, 45, 34, 46, 47, 0, 0, 0, 0, 0], [43, 44, 0, 0, 0, 0, 0]),
    Var(1),
    Make(Op::App, [45, 34, 0, 0]),
    // 51: Gx >> near
    Conclude(Paths(PathTy), [24, 47, 49, 50, 0, 0, 0, 0, 0, 0], [29, 36, 48, 0, 0, 0, 0]),
    Make(Op::PathP, [47, 49, 50, 0]),
    // 53: Gy >> fib
    Conclude(Sigma(SigTy), [19, 22, 52, 0, 0, 0, 0, 0, 0, 0], [21, 51, 0, 0, 0, 0, 0]),
    Make(Op::Sig, [22, 52, 0, 0]),
    // 55: up : Gz to Gy
    Conclude(Contexts(SubWk), [19, 5, 19, 54, 0, 0, 0, 0, 0, 0], [32, 53, 0, 0, 0, 0, 0]),
    WithVar(19, 54),
    // 57: Gz >> fib+
    Conclude(Instances(TySub), [56, 9, 19, 54, 0, 0, 0, 0, 0, 0], [55, 53, 0, 0, 0, 0, 0]),
    Instance(54, 9),
    // 59: shift 2 : Gu to Gy
    Conclude(Contexts(SubWk), [56, 9, 19, 58, 0, 0, 0, 0, 0, 0], [55, 57, 0, 0, 0, 0, 0]),
    WithVar(56, 58),
    // 61: shift 3 : GuI to Gy
    Conclude(Contexts(SubWkName), [60, 20, 19, 0, 0, 0, 0, 0, 0, 0], [59, 0, 0, 0, 0, 0, 0]),
    WithName(60),
    // 63: GuI >> fib[shift 3]
    Conclude(Instances(TySub), [62, 25, 19, 54, 0, 0, 0, 0, 0, 0], [61, 53, 0, 0, 0, 0, 0]),
    // 64: Gz >> var 0 : fib+
    Conclude(Instances(TmVar), [19, 54, 0, 0, 0, 0, 0, 0, 0, 0], [53, 0, 0, 0, 0, 0, 0]),
    // 65: ctx Gz
    Conclude(Contexts(CtxVar), [19, 54, 0, 0, 0, 0, 0, 0, 0, 0], [53, 0, 0, 0, 0, 0, 0]),
    // 66: id : Gz to Gz
    Conclude(Contexts(SubId), [56, 0, 0, 0, 0, 0, 0, 0, 0, 0], [65, 0, 0, 0, 0, 0, 0]),
    // 67: up : Gu to Gz
    Conclude(Contexts(SubWk), [56, 5, 56, 58, 0, 0, 0, 0, 0, 0], [66, 57, 0, 0, 0, 0, 0]),
    // 68: Gu >> var 1 : fib++
    Conclude(Instances(TmSub), [60, 9, 56, 34, 58, 0, 0, 0, 0, 0], [67, 64, 0, 0, 0, 0, 0]),
    // 69: Gu >> var 0 : fib++
    Conclude(Instances(TmVar), [56, 58, 0, 0, 0, 0, 0, 0, 0, 0], [57, 0, 0, 0, 0, 0, 0]),
    Instance(54, 25),
    // 71: Gu >> close
    Conclude(Paths(PathTy), [60, 70, 49, 34, 0, 0, 0, 0, 0, 0], [63, 68, 69, 0, 0, 0, 0]),
    Make(Op::PathP, [70, 49, 34, 0]),
    // 73: Gz >> pi fib+ close
    Conclude(Pi(PiTy), [56, 58, 72, 0, 0, 0, 0, 0, 0, 0], [57, 71, 0, 0, 0, 0, 0]),
    Make(Op::Pi, [58, 72, 0, 0]),
    // 75: Gy >> centred
    Conclude(Sigma(SigTy), [19, 54, 74, 0, 0, 0, 0, 0, 0, 0], [53, 73, 0, 0, 0, 0, 0]),
    Make(Op::Sig, [54, 74, 0, 0]),
    // 77: Gf >> pi A+ centred
    Conclude(Pi(PiTy), [16, 12, 76, 0, 0, 0, 0, 0, 0, 0], [17, 75, 0, 0, 0, 0, 0]),
    Make(Op::Pi, [12, 76, 0, 0]),
    // 79: G >> equiv T A
    Conclude(Sigma(SigTy), [3, 14, 78, 0, 0, 0, 0, 0, 0, 0], [13, 77, 0, 0, 0, 0, 0]),
};

/// The rows of what it gives: type.
pub static EQUIV_TYPE_GIVES: &[u16] = &[79];
