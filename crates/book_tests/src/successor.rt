//! Written by tools/write_recipes.py.

use recipes::Row::{Conclude, Make, Nil, Var, WithVar};
use recipes::{Row, table};
use theory::ContextRule::CtxNil;
use theory::InstanceRule::TmVar;
use theory::NatRule::{NatU, Suc, Zero};
use theory::Op;
use theory::PiRule::{App, Lam};
use theory::RuleName::{Contexts, Instances, Naturals, Pi, Universe};
use theory::UniverseRule::TyU;

/// The successor is a function of numbers, and so has a value at zero.
pub static SUCCESSOR: &[Row] = table! {
    // 0: ctx []
    Conclude(Contexts(CtxNil), [0, 0, 0, 0, 0, 0, 0, 0, 0, 0], [0, 0, 0, 0, 0, 0, 0]),
    Nil,
    // 2: [] >> nat : U
    Conclude(Naturals(NatU), [1, 0, 0, 0, 0, 0, 0, 0, 0, 0], [0, 0, 0, 0, 0, 0, 0]),
    Make(Op::Nat, [0, 0, 0, 0]),
    // 4: [] >> nat
    Conclude(Universe(TyU), [1, 3, 0, 0, 0, 0, 0, 0, 0, 0], [2, 0, 0, 0, 0, 0, 0]),
    // 5: N >> var 0 : nat
    Conclude(Instances(TmVar), [1, 3, 0, 0, 0, 0, 0, 0, 0, 0], [4, 0, 0, 0, 0, 0, 0]),
    WithVar(1, 3),
    Var(0),
    // 8: N >> suc (var 0) : nat
    Conclude(Naturals(Suc), [6, 7, 0, 0, 0, 0, 0, 0, 0, 0], [5, 0, 0, 0, 0, 0, 0]),
    Make(Op::Suc, [7, 0, 0, 0]),
    // 10: [] >> successor : pi nat nat
    Conclude(Pi(Lam), [1, 3, 9, 3, 0, 0, 0, 0, 0, 0], [4, 8, 0, 0, 0, 0, 0]),
    // 11: [] >> zero : nat
    Conclude(Naturals(Zero), [1, 0, 0, 0, 0, 0, 0, 0, 0, 0], [0, 0, 0, 0, 0, 0, 0]),
    Make(Op::Lam, [3, 9, 0, 0]),
    Make(Op::Zero, [0, 0, 0, 0]),
    // 14: [] >> app successor zero : nat
    Conclude(Pi(App), [1, 12, 13, 3, 3, 0, 0, 0, 0, 0], [10, 11, 0, 0, 0, 0, 0]),
};

/// The rows of what it gives: function, value.
pub static SUCCESSOR_GIVES: &[u16] = &[10, 14];
