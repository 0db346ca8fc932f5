//! Written by tools/write_recipes.py.

use recipes::Row::{Conclude, Make, Nil, Var, WithFace, WithName};
use recipes::{Row, table};
use theory::ContextRule::{CtxFace, CtxName, CtxNil};
use theory::EqualityRule::TmEqRefl;
use theory::NatRule::{NatU, Zero};
use theory::Op;
use theory::RuleName::{Contexts, Equality, Naturals, Universe};
use theory::UniverseRule::TyU;

/// The premises of a filling of zero by itself, from the end 0 of a name.
pub static FILL_PREMISES: &[Row] = table! {
    // 0: ctx []
    Conclude(Contexts(CtxNil), [0, 0, 0, 0, 0, 0, 0, 0, 0, 0], [0, 0, 0, 0, 0, 0, 0]),
    Nil,
    // 2: ctx G
    Conclude(Contexts(CtxName), [1, 0, 0, 0, 0, 0, 0, 0, 0, 0], [0, 0, 0, 0, 0, 0, 0]),
    WithName(1),
    // 4: ctx G.I
    Conclude(Contexts(CtxName), [3, 0, 0, 0, 0, 0, 0, 0, 0, 0], [2, 0, 0, 0, 0, 0, 0]),
    WithName(3),
    // 6: G.I >> nat : U
    Conclude(Naturals(NatU), [5, 0, 0, 0, 0, 0, 0, 0, 0, 0], [4, 0, 0, 0, 0, 0, 0]),
    Make(Op::Nat, [0, 0, 0, 0]),
    // 8: G.I >> nat
    Conclude(Universe(TyU), [5, 7, 0, 0, 0, 0, 0, 0, 0, 0], [6, 0, 0, 0, 0, 0, 0]),
    Var(0),
    Make(Op::Eq0, [9, 0, 0, 0]),
    // 11: ctx P
    Conclude(Contexts(CtxFace), [3, 10, 0, 0, 0, 0, 0, 0, 0, 0], [2, 0, 0, 0, 0, 0, 0]),
    WithFace(3, 10),
    // 13: ctx P.I
    Conclude(Contexts(CtxName), [12, 0, 0, 0, 0, 0, 0, 0, 0, 0], [11, 0, 0, 0, 0, 0, 0]),
    WithName(12),
    // 15: P.I >> zero : nat
    Conclude(Naturals(Zero), [14, 0, 0, 0, 0, 0, 0, 0, 0, 0], [13, 0, 0, 0, 0, 0, 0]),
    // 16: G >> zero : nat
    Conclude(Naturals(Zero), [3, 0, 0, 0, 0, 0, 0, 0, 0, 0], [2, 0, 0, 0, 0, 0, 0]),
    // 17: P >> zero : nat
    Conclude(Naturals(Zero), [12, 0, 0, 0, 0, 0, 0, 0, 0, 0], [11, 0, 0, 0, 0, 0, 0]),
    Make(Op::Zero, [0, 0, 0, 0]),
    // 19: P >> zero = zero : nat
    Conclude(Equality(TmEqRefl), [12, 18, 7, 0, 0, 0, 0, 0, 0, 0], [17, 0, 0, 0, 0, 0, 0]),
};

/// The rows of what it gives: context, line, side, base, agrees.
pub static FILL_PREMISES_GIVES: &[u16] = &[2, 8, 15, 16, 19];
