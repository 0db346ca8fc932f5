//! Written by tools/write_recipes.py.

use recipes::Row::{Conclude, Field, Instance, Make, Premise, Push, Shift, Var, WithVar};
use recipes::{Row, table};
use theory::ContextRule::{CtxVar, SubId, SubVar, SubWk};
use theory::InstanceRule::{TmSub, TmVar, TySub};
use theory::NatRule::{NatU, Suc};
use theory::Op;
use theory::PiRule::PiTy;
use theory::RuleName::{Contexts, Instances, Naturals, Pi, Universe};
use theory::UniverseRule::TyU;

/// The type of the step of a recursion.
/// Its parts are H P.
pub static MOTIVE_STEP: &[Row] = table! {
    // 0: ctx H
    Premise(0),
    // 1: H.nat >> P
    Premise(1),
    Field(0, 0),
    // 3: H >> nat : U
    Conclude(Naturals(NatU), [2, 0, 0, 0, 0, 0, 0, 0, 0, 0], [0, 0, 0, 0, 0, 0, 0]),
    Make(Op::Nat, [0, 0, 0, 0]),
    // 5: H >> nat
    Conclude(Universe(TyU), [2, 4, 0, 0, 0, 0, 0, 0, 0, 0], [3, 0, 0, 0, 0, 0, 0]),
    // 6: id : H to H
    Conclude(Contexts(SubId), [2, 0, 0, 0, 0, 0, 0, 0, 0, 0], [0, 0, 0, 0, 0, 0, 0]),
    Shift(0),
    // 8: up : H.nat to H
    Conclude(Contexts(SubWk), [2, 7, 2, 4, 0, 0, 0, 0, 0, 0], [6, 5, 0, 0, 0, 0, 0]),
    WithVar(2, 4),
    Shift(1),
    Field(1, 1),
    // 12: shift 2 : H.nat.P to H
    Conclude(Contexts(SubWk), [9, 10, 2, 11, 0, 0, 0, 0, 0, 0], [8, 1, 0, 0, 0, 0, 0]),
    // 13: H.nat >> var 0 : nat
    Conclude(Instances(TmVar), [2, 4, 0, 0, 0, 0, 0, 0, 0, 0], [5, 0, 0, 0, 0, 0, 0]),
    // 14: ctx H.nat
    Conclude(Contexts(CtxVar), [2, 4, 0, 0, 0, 0, 0, 0, 0, 0], [5, 0, 0, 0, 0, 0, 0]),
    // 15: id : H.nat to H.nat
    Conclude(Contexts(SubId), [9, 0, 0, 0, 0, 0, 0, 0, 0, 0], [14, 0, 0, 0, 0, 0, 0]),
    // 16: up : H.nat.P to H.nat
    Conclude(Contexts(SubWk), [9, 7, 9, 11, 0, 0, 0, 0, 0, 0], [15, 1, 0, 0, 0, 0, 0]),
    WithVar(9, 11),
    Var(0),
    // 19: H.nat.P >> var 1 : nat
    Conclude(Instances(TmSub), [17, 10, 9, 18, 4, 0, 0, 0, 0, 0], [16, 13, 0, 0, 0, 0, 0]),
    Var(1),
    // 21: H.nat.P >> suc (var 1) : nat
    Conclude(Naturals(Suc), [17, 20, 0, 0, 0, 0, 0, 0, 0, 0], [19, 0, 0, 0, 0, 0, 0]),
    Shift(2),
    Make(Op::Suc, [20, 0, 0, 0]),
    // 24: next : H.nat.P to H.nat
    Conclude(Contexts(SubVar), [17, 22, 2, 4, 23, 0, 0, 0, 0, 0], [12, 5, 21, 0, 0, 0, 0]),
    Push(22, 23),
    // 26: H.nat.P >> P[next]
    Conclude(Instances(TySub), [17, 25, 9, 11, 0, 0, 0, 0, 0, 0], [24, 1, 0, 0, 0, 0, 0]),
    Instance(11, 25),
    // 28: H.nat >> pi P P[next]
    Conclude(Pi(PiTy), [9, 11, 27, 0, 0, 0, 0, 0, 0, 0], [1, 26, 0, 0, 0, 0, 0]),
    Make(Op::Pi, [11, 27, 0, 0]),
    // 30: H >> pi nat (pi P P[next])
    Conclude(Pi(PiTy), [2, 4, 29, 0, 0, 0, 0, 0, 0, 0], [5, 28, 0, 0, 0, 0, 0]),
};

/// The rows of what it gives: type.
pub static MOTIVE_STEP_GIVES: &[u16] = &[30];
