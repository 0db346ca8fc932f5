//! Written by tools/write_recipes.py.

use recipes::Row::{Conclude, Field, Instance, Make, Premise, Push, Shift, Var, WithVar};
use recipes::{Row, table};
use theory::ContextRule::{CtxVar, SubId, SubVar, SubWk};
use theory::EqualityRule::TyEqRefl;
use theory::InstanceRule::{TmSub, TmVar, TyEqSub};
use theory::NatRule::{NatU, Suc, Zero};
use theory::Op;
use theory::PiRule::PiTyCong;
use theory::RuleName::{Contexts, Equality, Instances, Naturals, Pi, Universe};
use theory::UniverseRule::TyU;

/// The types of a recursion's base and step, at equal motives.
/// Its parts are H P Q.
pub static NATREC_FITS: &[Row] = table! {
    // 0: ctx H
    Premise(0),
    // 1: H.nat >> P
    Premise(1),
    // 2: H.nat >> P = Q
    Premise(2),
    Field(0, 0),
    // 4: H >> nat : U
    Conclude(Naturals(NatU), [3, 0, 0, 0, 0, 0, 0, 0, 0, 0], [0, 0, 0, 0, 0, 0, 0]),
    Make(Op::Nat, [0, 0, 0, 0]),
    // 6: H >> nat
    Conclude(Universe(TyU), [3, 5, 0, 0, 0, 0, 0, 0, 0, 0], [4, 0, 0, 0, 0, 0, 0]),
    // 7: id : H to H
    Conclude(Contexts(SubId), [3, 0, 0, 0, 0, 0, 0, 0, 0, 0], [0, 0, 0, 0, 0, 0, 0]),
    Shift(0),
    // 9: up : H.nat to H
    Conclude(Contexts(SubWk), [3, 8, 3, 5, 0, 0, 0, 0, 0, 0], [7, 6, 0, 0, 0, 0, 0]),
    WithVar(3, 5),
    Shift(1),
    Field(1, 1),
    // 13: shift 2 : H.nat.P to H
    Conclude(Contexts(SubWk), [10, 11, 3, 12, 0, 0, 0, 0, 0, 0], [9, 1, 0, 0, 0, 0, 0]),
    // 14: H.nat >> var 0 : nat
    Conclude(Instances(TmVar), [3, 5, 0, 0, 0, 0, 0, 0, 0, 0], [6, 0, 0, 0, 0, 0, 0]),
    // 15: ctx H.nat
    Conclude(Contexts(CtxVar), [3, 5, 0, 0, 0, 0, 0, 0, 0, 0], [6, 0, 0, 0, 0, 0, 0]),
    // 16: id : H.nat to H.nat
    Conclude(Contexts(SubId), [10, 0, 0, 0, 0, 0, 0, 0, 0, 0], [15, 0, 0, 0, 0, 0, 0]),
    // 17: up : H.nat.P to H.nat
    Conclude(Contexts(SubWk), [10, 8, 10, 12, 0, 0, 0, 0, 0, 0], [16, 1, 0, 0, 0, 0, 0]),
    WithVar(10, 12),
    Var(0),
    // 20: H.nat.P >> var 1 : nat
    Conclude(Instances(TmSub), [18, 11, 10, 19, 5, 0, 0, 0, 0, 0], [17, 14, 0, 0, 0, 0, 0]),
    Var(1),
    // 22: H.nat.P >> suc (var 1) : nat
    Conclude(Naturals(Suc), [18, 21, 0, 0, 0, 0, 0, 0, 0, 0], [20, 0, 0, 0, 0, 0, 0]),
    Shift(2),
    Make(Op::Suc, [21, 0, 0, 0]),
    // 25: next : H.nat.P to H.nat
    Conclude(Contexts(SubVar), [18, 23, 3, 5, 24, 0, 0, 0, 0, 0], [13, 6, 22, 0, 0, 0, 0]),
    Push(23, 24),
    Field(2, 2),
    // 28: H.nat.P >> P[next] = Q[next]
    Conclude(Instances(TyEqSub), [18, 26, 10, 12, 27, 0, 0, 0, 0, 0], [25, 2, 0, 0, 0, 0, 0]),
    Instance(12, 26),
    Instance(27, 26),
    // 31: H.nat >> pi P P[next] = pi Q Q[next]
    Conclude(Pi(PiTyCong), [10, 12, 27, 29, 30, 0, 0, 0, 0, 0], [2, 28, 0, 0, 0, 0, 0]),
    // 32: H >> nat = nat
    Conclude(Equality(TyEqRefl), [3, 5, 0, 0, 0, 0, 0, 0, 0, 0], [6, 0, 0, 0, 0, 0, 0]),
    Make(Op::Pi, [12, 29, 0, 0]),
    Make(Op::Pi, [27, 30, 0, 0]),
    // 35: H >> pi nat (pi P P[next]) = pi nat (pi Q Q[next])
    Conclude(Pi(PiTyCong), [3, 5, 5, 33, 34, 0, 0, 0, 0, 0], [32, 31, 0, 0, 0, 0, 0]),
    // 36: H >> zero : nat
    Conclude(Naturals(Zero), [3, 0, 0, 0, 0, 0, 0, 0, 0, 0], [0, 0, 0, 0, 0, 0, 0]),
    Make(Op::Zero, [0, 0, 0, 0]),
    // 38: push id zero : H to H.nat
    Conclude(Contexts(SubVar), [3, 8, 3, 5, 37, 0, 0, 0, 0, 0], [7, 6, 36, 0, 0, 0, 0]),
    Push(8, 37),
    // 40: H >> P{zero} = Q{zero}
    Conclude(Instances(TyEqSub), [3, 39, 10, 12, 27, 0, 0, 0, 0, 0], [38, 2, 0, 0, 0, 0, 0]),
};

/// The rows of what it gives: base, step.
pub static NATREC_FITS_GIVES: &[u16] = &[40, 35];
