//! Written by tools/write_recipes.py.

use recipes::Row::{Conclude, Make, Nil, Push, Shift, Var, WithVar};
use recipes::{Row, table};
use theory::ContextRule::{CtxNil, CtxVar, SubId, SubVar, SubWk};
use theory::InstanceRule::{TmSub, TmVar};
use theory::NatRule::{NatU, Zero};
use theory::Op;
use theory::PiRule::{Lam, PiU};
use theory::RuleName::{Contexts, Instances, Naturals, Pi, Universe};
use theory::UniverseRule::TyU;

/// A function that stands only as a pushed entry, under three substitutions.
pub static PUSHED_ENTRY: &[Row] = table! {
    // 0: ctx []
    Conclude(Contexts(CtxNil), [0, 0, 0, 0, 0, 0, 0, 0, 0, 0], [0, 0, 0, 0, 0, 0, 0]),
    Nil,
    // 2: [] >> nat : U
    Conclude(Naturals(NatU), [1, 0, 0, 0, 0, 0, 0, 0, 0, 0], [0, 0, 0, 0, 0, 0, 0]),
    Make(Op::Nat, [0, 0, 0, 0]),
    // 4: [] >> nat
    Conclude(Universe(TyU), [1, 3, 0, 0, 0, 0, 0, 0, 0, 0], [2, 0, 0, 0, 0, 0, 0]),
    // 5: ctx N
    Conclude(Contexts(CtxVar), [1, 3, 0, 0, 0, 0, 0, 0, 0, 0], [4, 0, 0, 0, 0, 0, 0]),
    WithVar(1, 3),
    // 7: N >> nat : U
    Conclude(Naturals(NatU), [6, 0, 0, 0, 0, 0, 0, 0, 0, 0], [5, 0, 0, 0, 0, 0, 0]),
    // 8: [] >> P : U
    Conclude(Pi(PiU), [1, 3, 3, 0, 0, 0, 0, 0, 0, 0], [2, 7, 0, 0, 0, 0, 0]),
    Make(Op::Pi, [3, 3, 0, 0]),
    // 10: [] >> P
    Conclude(Universe(TyU), [1, 9, 0, 0, 0, 0, 0, 0, 0, 0], [8, 0, 0, 0, 0, 0, 0]),
    // 11: N >> var 0 : nat
    Conclude(Instances(TmVar), [1, 3, 0, 0, 0, 0, 0, 0, 0, 0], [4, 0, 0, 0, 0, 0, 0]),
    Var(0),
    // 13: [] >> f : P
    Conclude(Pi(Lam), [1, 3, 12, 3, 0, 0, 0, 0, 0, 0], [4, 11, 0, 0, 0, 0, 0]),
    // 14: id : [] to []
    Conclude(Contexts(SubId), [1, 0, 0, 0, 0, 0, 0, 0, 0, 0], [0, 0, 0, 0, 0, 0, 0]),
    Shift(0),
    Make(Op::Lam, [3, 12, 0, 0]),
    // 17: push id f : [] to F
    Conclude(Contexts(SubVar), [1, 15, 1, 9, 16, 0, 0, 0, 0, 0], [14, 10, 13, 0, 0, 0, 0]),
    // 18: up : N to []
    Conclude(Contexts(SubWk), [1, 15, 1, 3, 0, 0, 0, 0, 0, 0], [14, 4, 0, 0, 0, 0, 0]),
    // 19: [] >> zero : nat
    Conclude(Naturals(Zero), [1, 0, 0, 0, 0, 0, 0, 0, 0, 0], [0, 0, 0, 0, 0, 0, 0]),
    Make(Op::Zero, [0, 0, 0, 0]),
    // 21: push id zero : [] to N
    Conclude(Contexts(SubVar), [1, 15, 1, 3, 20, 0, 0, 0, 0, 0], [14, 4, 19, 0, 0, 0, 0]),
    // 22: F >> var 0 : P
    Conclude(Instances(TmVar), [1, 9, 0, 0, 0, 0, 0, 0, 0, 0], [10, 0, 0, 0, 0, 0, 0]),
    Push(15, 16),
    WithVar(1, 9),
    // 25: [] >> f : P
    Conclude(Instances(TmSub), [1, 23, 24, 12, 9, 0, 0, 0, 0, 0], [17, 22, 0, 0, 0, 0, 0]),
    Shift(1),
    // 27: N >> f : P
    Conclude(Instances(TmSub), [6, 26, 1, 16, 9, 0, 0, 0, 0, 0], [18, 25, 0, 0, 0, 0, 0]),
    Push(15, 20),
    // 29: [] >> f : P
    Conclude(Instances(TmSub), [1, 28, 6, 16, 9, 0, 0, 0, 0, 0], [21, 27, 0, 0, 0, 0, 0]),
};

/// The rows of what it gives: function.
pub static PUSHED_ENTRY_GIVES: &[u16] = &[29];
