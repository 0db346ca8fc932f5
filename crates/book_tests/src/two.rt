//! Written by tools/write_recipes.py.

use recipes::Row::{Conclude, Make, Nil};
use recipes::{Row, table};
use theory::ContextRule::CtxNil;
use theory::NatRule::{NatU, Suc, Zero};
use theory::Op;
use theory::RuleName::{Contexts, Naturals, Universe};
use theory::UniverseRule::TyU;

/// Two is a number.
pub static TWO: &[Row] = table! {
    // 0: ctx []
    Conclude(Contexts(CtxNil), [0, 0, 0, 0, 0, 0, 0, 0, 0, 0], [0, 0, 0, 0, 0, 0, 0]),
    Nil,
    // 2: [] >> nat : U
    Conclude(Naturals(NatU), [1, 0, 0, 0, 0, 0, 0, 0, 0, 0], [0, 0, 0, 0, 0, 0, 0]),
    Make(Op::Nat, [0, 0, 0, 0]),
    // 4: [] >> nat
    Conclude(Universe(TyU), [1, 3, 0, 0, 0, 0, 0, 0, 0, 0], [2, 0, 0, 0, 0, 0, 0]),
    // 5: [] >> zero : nat
    Conclude(Naturals(Zero), [1, 0, 0, 0, 0, 0, 0, 0, 0, 0], [0, 0, 0, 0, 0, 0, 0]),
    Make(Op::Zero, [0, 0, 0, 0]),
    // 7: [] >> suc zero : nat
    Conclude(Naturals(Suc), [1, 6, 0, 0, 0, 0, 0, 0, 0, 0], [5, 0, 0, 0, 0, 0, 0]),
    Make(Op::Suc, [6, 0, 0, 0]),
    // 9: [] >> suc (suc zero) : nat
    Conclude(Naturals(Suc), [1, 8, 0, 0, 0, 0, 0, 0, 0, 0], [7, 0, 0, 0, 0, 0, 0]),
};

/// The rows of what it gives: type, two.
pub static TWO_GIVES: &[u16] = &[4, 9];
