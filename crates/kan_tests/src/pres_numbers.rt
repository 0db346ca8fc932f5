//! Written by tools/write_recipes.py.

use recipes::Row::{Conclude, Derive, Make, Nil, Var, WithFace, WithName};
use recipes::{Row, table};
use theory::ContextRule::{CtxFace, CtxName, CtxNil};
use theory::EqualityRule::TmEqRefl;
use theory::InstanceRule::TmVar;
use theory::NatRule::{NatU, Zero};
use theory::Op;
use theory::PiRule::Lam;
use theory::RuleName::{Contexts, Equality, Instances, Naturals, Pi, Universe};
use theory::UniverseRule::TyU;

/// Numbers are carried along the identity.
pub static PRES_NUMBERS: &[Row] = table! {
    // 0: ctx []
    Conclude(Contexts(CtxNil), [0, 0, 0, 0, 0, 0, 0, 0, 0, 0], [0, 0, 0, 0, 0, 0, 0]),
    Nil,
    // 2: ctx G
    Conclude(Contexts(CtxName), [1, 0, 0, 0, 0, 0, 0, 0, 0, 0], [0, 0, 0, 0, 0, 0, 0]),
    WithName(1),
    // 4: ctx G.I
    Conclude(Contexts(CtxName), [3, 0, 0, 0, 0, 0, 0, 0, 0, 0], [2, 0, 0, 0, 0, 0, 0]),
    WithName(3),
    // 6: G.I >> nat : U
    Conclude(Naturals(NatU), [5, 0, 0, 0, 0, 0, 0, 0, 0, 0], [4, 0, 0, 0, 0, 0, 0]),
    Make(Op::Nat, [0, 0, 0, 0]),
    // 8: G.I >> nat
    Conclude(Universe(TyU), [5, 7, 0, 0, 0, 0, 0, 0, 0, 0], [6, 0, 0, 0, 0, 0, 0]),
    // 9: G.I.nat >> var 0 : nat
    Conclude(Instances(TmVar), [5, 7, 0, 0, 0, 0, 0, 0, 0, 0], [8, 0, 0, 0, 0, 0, 0]),
    Var(0),
    // 11: G.I >> same : function
    Conclude(Pi(Lam), [5, 7, 10, 7, 0, 0, 0, 0, 0, 0], [8, 9, 0, 0, 0, 0, 0]),
    Make(Op::Eq0, [10, 0, 0, 0]),
    // 13: ctx P
    Conclude(Contexts(CtxFace), [3, 12, 0, 0, 0, 0, 0, 0, 0, 0], [2, 0, 0, 0, 0, 0, 0]),
    WithFace(3, 12),
    // 15: ctx P.I
    Conclude(Contexts(CtxName), [14, 0, 0, 0, 0, 0, 0, 0, 0, 0], [13, 0, 0, 0, 0, 0, 0]),
    WithName(14),
    // 17: P.I >> zero : nat
    Conclude(Naturals(Zero), [16, 0, 0, 0, 0, 0, 0, 0, 0, 0], [15, 0, 0, 0, 0, 0, 0]),
    // 18: G >> zero : nat
    Conclude(Naturals(Zero), [3, 0, 0, 0, 0, 0, 0, 0, 0, 0], [2, 0, 0, 0, 0, 0, 0]),
    // 19: P >> zero : nat
    Conclude(Naturals(Zero), [14, 0, 0, 0, 0, 0, 0, 0, 0, 0], [13, 0, 0, 0, 0, 0, 0]),
    Make(Op::Zero, [0, 0, 0, 0]),
    // 21: P >> zero = zero : nat
    Conclude(Equality(TmEqRefl), [14, 20, 7, 0, 0, 0, 0, 0, 0, 0], [19, 0, 0, 0, 0, 0, 0]),
    Make(Op::Lam, [7, 10, 0, 0]),
    // 23: pres
    Derive(2, [3, 7, 7, 22, 12, 20, 20, 0, 0, 0],
        [2, 8, 8, 11, 17, 18, 21, 0, 0, 0, 0, 0, 0, 0, 0, 0]),
};

/// The rows of what it gives: typing, zero, one, face.
pub static PRES_NUMBERS_GIVES: &[u16] = &[23, 24, 25, 26];

/// The rows of the premises of its last row: context, source, target, function, side, base, agrees.
pub static PRES_NUMBERS_PREMISES: &[u16] = &[2, 8, 8, 11, 17, 18, 21];
