//! Written by tools/write_recipes.py.

use recipes::Row::{Conclude, Make, Nil, Shift, WithVar};
use recipes::{Row, table};
use theory::ContextRule::{CtxNil, CtxVar, SubId, SubVar, SubWk};
use theory::NatRule::{NatU, Zero};
use theory::Op;
use theory::RuleName::{Contexts, Naturals, Universe};
use theory::UniverseRule::TyU;

/// A number is taken to zero.
pub static CONSTANT: &[Row] = table! {
    // 0: ctx []
    Conclude(Contexts(CtxNil), [0, 0, 0, 0, 0, 0, 0, 0, 0, 0], [0, 0, 0, 0, 0, 0, 0]),
    Nil,
    // 2: [] >> nat : U
    Conclude(Naturals(NatU), [1, 0, 0, 0, 0, 0, 0, 0, 0, 0], [0, 0, 0, 0, 0, 0, 0]),
    Make(Op::Nat, [0, 0, 0, 0]),
    // 4: [] >> nat
    Conclude(Universe(TyU), [1, 3, 0, 0, 0, 0, 0, 0, 0, 0], [2, 0, 0, 0, 0, 0, 0]),
    // 5: ctx N
    Conclude(Contexts(CtxVar), [1, 3, 0, 0, 0, 0, 0, 0, 0, 0], [4, 0, 0, 0, 0, 0, 0]),
    // 6: id : [] to []
    Conclude(Contexts(SubId), [1, 0, 0, 0, 0, 0, 0, 0, 0, 0], [0, 0, 0, 0, 0, 0, 0]),
    Shift(0),
    // 8: up : N to []
    Conclude(Contexts(SubWk), [1, 7, 1, 3, 0, 0, 0, 0, 0, 0], [6, 4, 0, 0, 0, 0, 0]),
    WithVar(1, 3),
    // 10: N >> zero : nat
    Conclude(Naturals(Zero), [9, 0, 0, 0, 0, 0, 0, 0, 0, 0], [5, 0, 0, 0, 0, 0, 0]),
    Shift(1),
    Make(Op::Zero, [0, 0, 0, 0]),
    // 13: push up zero : N to N
    Conclude(Contexts(SubVar), [9, 11, 1, 3, 12, 0, 0, 0, 0, 0], [8, 4, 10, 0, 0, 0, 0]),
};

/// The rows of what it gives: substitution.
pub static CONSTANT_GIVES: &[u16] = &[13];
