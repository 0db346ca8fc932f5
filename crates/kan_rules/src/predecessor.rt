//! Written by tools/write_recipes.py.

use recipes::Row::{Conclude, Field, Instance, Make, Premise, Shift, Var, WithVar};
use recipes::{Row, table};
use theory::ContextRule::{CtxVar, SubId, SubWk};
use theory::EqualityRule::{TmEqRefl, TmEqSym, TmEqTrans, TyEqRefl};
use theory::InstanceRule::{TmSub, TmVar};
use theory::NatRule::{NatRec, NatRecCong, NatRecSuc, NatU, Suc, SucCong, Zero};
use theory::Op;
use theory::PiRule::{AppCong, Lam, PiBeta};
use theory::RuleName::{Contexts, Equality, Instances, Naturals, Pi, Universe};
use theory::UniverseRule::TyU;

/// What equals a successor is the successor of its predecessor.
/// Its parts are H b n.
pub static PREDECESSOR: &[Row] = table! {
    // 0: ctx H
    Premise(0),
    // 1: H >> b : nat
    Premise(1),
    // 2: H >> n : nat
    Premise(2),
    // 3: H >> b = suc n : nat
    Premise(3),
    Field(0, 0),
    // 5: H >> nat : U
    Conclude(Naturals(NatU), [4, 0, 0, 0, 0, 0, 0, 0, 0, 0], [0, 0, 0, 0, 0, 0, 0]),
    Make(Op::Nat, [0, 0, 0, 0]),
    // 7: H >> nat
    Conclude(Universe(TyU), [4, 6, 0, 0, 0, 0, 0, 0, 0, 0], [5, 0, 0, 0, 0, 0, 0]),
    // 8: ctx Hx
    Conclude(Contexts(CtxVar), [4, 6, 0, 0, 0, 0, 0, 0, 0, 0], [7, 0, 0, 0, 0, 0, 0]),
    WithVar(4, 6),
    // 10: Hx >> nat : U
    Conclude(Naturals(NatU), [9, 0, 0, 0, 0, 0, 0, 0, 0, 0], [8, 0, 0, 0, 0, 0, 0]),
    // 11: Hx >> nat
    Conclude(Universe(TyU), [9, 6, 0, 0, 0, 0, 0, 0, 0, 0], [10, 0, 0, 0, 0, 0, 0]),
    // 12: Hx >> var 0 : nat
    Conclude(Instances(TmVar), [4, 6, 0, 0, 0, 0, 0, 0, 0, 0], [7, 0, 0, 0, 0, 0, 0]),
    // 13: id : Hx to Hx
    Conclude(Contexts(SubId), [9, 0, 0, 0, 0, 0, 0, 0, 0, 0], [8, 0, 0, 0, 0, 0, 0]),
    Shift(0),
    // 15: up : Hxr to Hx
    Conclude(Contexts(SubWk), [9, 14, 9, 6, 0, 0, 0, 0, 0, 0], [13, 11, 0, 0, 0, 0, 0]),
    WithVar(9, 6),
    Shift(1),
    Var(0),
    // 19: Hxr >> var 1 : nat
    Conclude(Instances(TmSub), [16, 17, 9, 18, 6, 0, 0, 0, 0, 0], [15, 12, 0, 0, 0, 0, 0]),
    Var(1),
    // 21: Hx >> lam nat (var 1) : pi nat nat
    Conclude(Pi(Lam), [9, 6, 20, 6, 0, 0, 0, 0, 0, 0], [11, 19, 0, 0, 0, 0, 0]),
    Make(Op::Lam, [6, 20, 0, 0]),
    Make(Op::Pi, [6, 6, 0, 0]),
    // 24: H >> S : pi nat (pi nat nat)
    Conclude(Pi(Lam), [4, 6, 22, 23, 0, 0, 0, 0, 0, 0], [7, 21, 0, 0, 0, 0, 0]),
    // 25: H >> zero : nat
    Conclude(Naturals(Zero), [4, 0, 0, 0, 0, 0, 0, 0, 0, 0], [0, 0, 0, 0, 0, 0, 0]),
    // 26: Hx >> nat = nat
    Conclude(Equality(TyEqRefl), [9, 6, 0, 0, 0, 0, 0, 0, 0, 0], [11, 0, 0, 0, 0, 0, 0]),
    Make(Op::Zero, [0, 0, 0, 0]),
    // 28: H >> zero = zero : nat
    Conclude(Equality(TmEqRefl), [4, 27, 6, 0, 0, 0, 0, 0, 0, 0], [25, 0, 0, 0, 0, 0, 0]),
    Make(Op::Lam, [6, 22, 0, 0]),
    Make(Op::Pi, [6, 23, 0, 0]),
    // 31: H >> S = S : pi nat (pi nat nat)
    Conclude(Equality(TmEqRefl), [4, 29, 30, 0, 0, 0, 0, 0, 0, 0], [24, 0, 0, 0, 0, 0, 0]),
    Field(1, 1),
    Field(2, 1),
    Make(Op::Suc, [33, 0, 0, 0]),
    // 35: H >> natrec nat zero S b = natrec nat zero S (suc n) : nat
    Conclude(Naturals(NatRecCong), [4, 6, 6, 27, 27, 29, 29, 32, 34, 0], [26, 28, 31, 3, 0, 0, 0]),
    // 36: id : H to H
    Conclude(Contexts(SubId), [4, 0, 0, 0, 0, 0, 0, 0, 0, 0], [0, 0, 0, 0, 0, 0, 0]),
    // 37: up : Hx to H
    Conclude(Contexts(SubWk), [4, 14, 4, 6, 0, 0, 0, 0, 0, 0], [36, 7, 0, 0, 0, 0, 0]),
    // 38: H >> natrec nat zero S (suc n) = app (app S n) (natrec nat zero S n) : nat
    Conclude(Naturals(NatRecSuc), [4, 6, 27, 29, 33, 0, 0, 0, 0, 0], [11, 25, 24, 2, 0, 0, 0]),
    // 39: H >> natrec nat zero S n : nat
    Conclude(Naturals(NatRec), [4, 6, 27, 29, 33, 0, 0, 0, 0, 0], [11, 25, 24, 2, 0, 0, 0]),
    // 40: H >> app S n = lam nat n+ : pi nat nat
    Conclude(Pi(PiBeta), [4, 6, 22, 33, 23, 0, 0, 0, 0, 0], [21, 2, 0, 0, 0, 0, 0]),
    Make(Op::NatRec, [6, 27, 29, 33]),
    // 42: H >> natrec nat zero S n = natrec nat zero S n : nat
    Conclude(Equality(TmEqRefl), [4, 41, 6, 0, 0, 0, 0, 0, 0, 0], [39, 0, 0, 0, 0, 0, 0]),
    Make(Op::App, [29, 33, 0, 0]),
    Instance(33, 17),
    Make(Op::Lam, [6, 44, 0, 0]),
    // 46: H >> app (app S n) (natrec nat zero S n) = app (lam nat n+) (natrec nat zero S n) : nat
    Conclude(Pi(AppCong), [4, 43, 45, 41, 41, 6, 6, 0, 0, 0], [40, 42, 0, 0, 0, 0, 0]),
    // 47: Hx >> n+ : nat
    Conclude(Instances(TmSub), [9, 17, 4, 33, 6, 0, 0, 0, 0, 0], [37, 2, 0, 0, 0, 0, 0]),
    // 48: H >> app (lam nat n+) (natrec nat zero S n) = n : nat
    Conclude(Pi(PiBeta), [4, 6, 44, 41, 6, 0, 0, 0, 0, 0], [47, 39, 0, 0, 0, 0, 0]),
    Make(Op::NatRec, [6, 27, 29, 34]),
    Make(Op::App, [43, 41, 0, 0]),
    Make(Op::App, [45, 41, 0, 0]),
    // 52: H >> natrec nat zero S (suc n) = app (lam nat n+) (natrec nat zero S n) : nat
    Conclude(Equality(TmEqTrans), [4, 49, 50, 51, 6, 0, 0, 0, 0, 0], [38, 46, 0, 0, 0, 0, 0]),
    // 53: H >> natrec nat zero S (suc n) = n : nat
    Conclude(Equality(TmEqTrans), [4, 49, 51, 33, 6, 0, 0, 0, 0, 0], [52, 48, 0, 0, 0, 0, 0]),
    Make(Op::NatRec, [6, 27, 29, 32]),
    // 55: H >> P = n : nat
    Conclude(Equality(TmEqTrans), [4, 54, 49, 33, 6, 0, 0, 0, 0, 0], [35, 53, 0, 0, 0, 0, 0]),
    // 56: H >> n = P : nat
    Conclude(Equality(TmEqSym), [4, 54, 33, 6, 0, 0, 0, 0, 0, 0], [55, 0, 0, 0, 0, 0, 0]),
    // 57: H >> suc n = suc P : nat
    Conclude(Naturals(SucCong), [4, 33, 54, 0, 0, 0, 0, 0, 0, 0], [56, 0, 0, 0, 0, 0, 0]),
    Make(Op::Suc, [54, 0, 0, 0]),
    // 59: H >> b = suc P : nat
    Conclude(Equality(TmEqTrans), [4, 32, 34, 58, 6, 0, 0, 0, 0, 0], [3, 57, 0, 0, 0, 0, 0]),
    // 60: H >> P : nat
    Conclude(Naturals(NatRec), [4, 6, 27, 29, 32, 0, 0, 0, 0, 0], [11, 25, 24, 1, 0, 0, 0]),
    // 61: H >> suc P : nat
    Conclude(Naturals(Suc), [4, 54, 0, 0, 0, 0, 0, 0, 0, 0], [60, 0, 0, 0, 0, 0, 0]),
};

/// The rows of what it gives: equal, value, term.
pub static PREDECESSOR_GIVES: &[u16] = &[59, 56, 61];
