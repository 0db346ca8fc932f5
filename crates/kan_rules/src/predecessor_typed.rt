//! Written by tools/write_recipes.py.

use recipes::Row::{Conclude, Field, Make, Premise, Shift, Var, WithVar};
use recipes::{Row, table};
use theory::ContextRule::{CtxVar, SubId, SubWk};
use theory::InstanceRule::{TmSub, TmVar};
use theory::NatRule::{NatRec, NatU, Suc, Zero};
use theory::Op;
use theory::PiRule::Lam;
use theory::RuleName::{Contexts, Instances, Naturals, Pi, Universe};
use theory::UniverseRule::TyU;

/// The predecessor of a number, and the successor of that.
/// Its parts are H b.
pub static PREDECESSOR_TYPED: &[Row] = table! {
    // 0: ctx H
    Premise(0),
    // 1: H >> b : nat
    Premise(1),
    Field(0, 0),
    // 3: H >> nat : U
    Conclude(Naturals(NatU), [2, 0, 0, 0, 0, 0, 0, 0, 0, 0], [0, 0, 0, 0, 0, 0, 0]),
    Make(Op::Nat, [0, 0, 0, 0]),
    // 5: H >> nat
    Conclude(Universe(TyU), [2, 4, 0, 0, 0, 0, 0, 0, 0, 0], [3, 0, 0, 0, 0, 0, 0]),
    // 6: ctx Hx
    Conclude(Contexts(CtxVar), [2, 4, 0, 0, 0, 0, 0, 0, 0, 0], [5, 0, 0, 0, 0, 0, 0]),
    WithVar(2, 4),
    // 8: Hx >> nat : U
    Conclude(Naturals(NatU), [7, 0, 0, 0, 0, 0, 0, 0, 0, 0], [6, 0, 0, 0, 0, 0, 0]),
    // 9: Hx >> nat
    Conclude(Universe(TyU), [7, 4, 0, 0, 0, 0, 0, 0, 0, 0], [8, 0, 0, 0, 0, 0, 0]),
    // 10: Hx >> var 0 : nat
    Conclude(Instances(TmVar), [2, 4, 0, 0, 0, 0, 0, 0, 0, 0], [5, 0, 0, 0, 0, 0, 0]),
    // 11: id : Hx to Hx
    Conclude(Contexts(SubId), [7, 0, 0, 0, 0, 0, 0, 0, 0, 0], [6, 0, 0, 0, 0, 0, 0]),
    Shift(0),
    // 13: up : Hxr to Hx
    Conclude(Contexts(SubWk), [7, 12, 7, 4, 0, 0, 0, 0, 0, 0], [11, 9, 0, 0, 0, 0, 0]),
    WithVar(7, 4),
    Shift(1),
    Var(0),
    // 17: Hxr >> var 1 : nat
    Conclude(Instances(TmSub), [14, 15, 7, 16, 4, 0, 0, 0, 0, 0], [13, 10, 0, 0, 0, 0, 0]),
    Var(1),
    // 19: Hx >> lam nat (var 1) : pi nat nat
    Conclude(Pi(Lam), [7, 4, 18, 4, 0, 0, 0, 0, 0, 0], [9, 17, 0, 0, 0, 0, 0]),
    Make(Op::Lam, [4, 18, 0, 0]),
    Make(Op::Pi, [4, 4, 0, 0]),
    // 22: H >> S : pi nat (pi nat nat)
    Conclude(Pi(Lam), [2, 4, 20, 21, 0, 0, 0, 0, 0, 0], [5, 19, 0, 0, 0, 0, 0]),
    // 23: H >> zero : nat
    Conclude(Naturals(Zero), [2, 0, 0, 0, 0, 0, 0, 0, 0, 0], [0, 0, 0, 0, 0, 0, 0]),
    Make(Op::Zero, [0, 0, 0, 0]),
    Make(Op::Lam, [4, 20, 0, 0]),
    Field(1, 1),
    // 27: H >> P : nat
    Conclude(Naturals(NatRec), [2, 4, 24, 25, 26, 0, 0, 0, 0, 0], [9, 23, 22, 1, 0, 0, 0]),
    Make(Op::NatRec, [4, 24, 25, 26]),
    // 29: H >> suc P : nat
    Conclude(Naturals(Suc), [2, 28, 0, 0, 0, 0, 0, 0, 0, 0], [27, 0, 0, 0, 0, 0, 0]),
};

/// The rows of what it gives: term, next.
pub static PREDECESSOR_TYPED_GIVES: &[u16] = &[27, 29];
