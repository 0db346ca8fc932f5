//! Written by tools/write_recipes.py.

use recipes::Row::{Conclude, Make, Nil, Var, WithVar};
use recipes::{Row, table};
use theory::ContextRule::{CtxNil, CtxVar};
use theory::EqualityRule::{TmConv, TyEqSym};
use theory::InstanceRule::TmVar;
use theory::NatRule::NatU;
use theory::Op;
use theory::PiRule::{Lam, PiBeta, PiU};
use theory::RuleName::{Contexts, Equality, Instances, Naturals, Pi, Universe};
use theory::UniverseRule::{TyEqU, TyU, TyUniv};

/// A function behind eleven conversions, between its own type and an application that equals it.
pub static CONVERSIONS: &[Row] = table! {
    // 0: ctx []
    Conclude(Contexts(CtxNil), [0, 0, 0, 0, 0, 0, 0, 0, 0, 0], [0, 0, 0, 0, 0, 0, 0]),
    Nil,
    // 2: [] >> nat : U
    Conclude(Naturals(NatU), [1, 0, 0, 0, 0, 0, 0, 0, 0, 0], [0, 0, 0, 0, 0, 0, 0]),
    Make(Op::Nat, [0, 0, 0, 0]),
    // 4: [] >> nat
    Conclude(Universe(TyU), [1, 3, 0, 0, 0, 0, 0, 0, 0, 0], [2, 0, 0, 0, 0, 0, 0]),
    // 5: ctx N
    Conclude(Contexts(CtxVar), [1, 3, 0, 0, 0, 0, 0, 0, 0, 0], [4, 0, 0, 0, 0, 0, 0]),
    WithVar(1, 3),
    // 7: N >> nat : U
    Conclude(Naturals(NatU), [6, 0, 0, 0, 0, 0, 0, 0, 0, 0], [5, 0, 0, 0, 0, 0, 0]),
    // 8: [] >> P : U
    Conclude(Pi(PiU), [1, 3, 3, 0, 0, 0, 0, 0, 0, 0], [2, 7, 0, 0, 0, 0, 0]),
    // 9: [] >> U
    Conclude(Universe(TyUniv), [1, 0, 0, 0, 0, 0, 0, 0, 0, 0], [0, 0, 0, 0, 0, 0, 0]),
    Make(Op::U, [0, 0, 0, 0]),
    // 11: V >> var 0 : U
    Conclude(Instances(TmVar), [1, 10, 0, 0, 0, 0, 0, 0, 0, 0], [9, 0, 0, 0, 0, 0, 0]),
    Var(0),
    Make(Op::Pi, [3, 3, 0, 0]),
    // 14: [] >> T = P : U
    Conclude(Pi(PiBeta), [1, 10, 12, 13, 10, 0, 0, 0, 0, 0], [11, 8, 0, 0, 0, 0, 0]),
    Make(Op::Lam, [10, 12, 0, 0]),
    Make(Op::App, [15, 13, 0, 0]),
    // 17: [] >> T = P
    Conclude(Universe(TyEqU), [1, 16, 13, 0, 0, 0, 0, 0, 0, 0], [14, 0, 0, 0, 0, 0, 0]),
    // 18: [] >> P = T
    Conclude(Equality(TyEqSym), [1, 16, 13, 0, 0, 0, 0, 0, 0, 0], [17, 0, 0, 0, 0, 0, 0]),
    // 19: N >> var 0 : nat
    Conclude(Instances(TmVar), [1, 3, 0, 0, 0, 0, 0, 0, 0, 0], [4, 0, 0, 0, 0, 0, 0]),
    // 20: [] >> f : P
    Conclude(Pi(Lam), [1, 3, 12, 3, 0, 0, 0, 0, 0, 0], [4, 19, 0, 0, 0, 0, 0]),
    Make(Op::Lam, [3, 12, 0, 0]),
    // 22: [] >> f : T
    Conclude(Equality(TmConv), [1, 21, 13, 16, 0, 0, 0, 0, 0, 0], [20, 18, 0, 0, 0, 0, 0]),
    // 23: [] >> f : P
    Conclude(Equality(TmConv), [1, 21, 16, 13, 0, 0, 0, 0, 0, 0], [22, 17, 0, 0, 0, 0, 0]),
    // 24: [] >> f : T
    Conclude(Equality(TmConv), [1, 21, 13, 16, 0, 0, 0, 0, 0, 0], [23, 18, 0, 0, 0, 0, 0]),
    // 25: [] >> f : P
    Conclude(Equality(TmConv), [1, 21, 16, 13, 0, 0, 0, 0, 0, 0], [24, 17, 0, 0, 0, 0, 0]),
    // 26: [] >> f : T
    Conclude(Equality(TmConv), [1, 21, 13, 16, 0, 0, 0, 0, 0, 0], [25, 18, 0, 0, 0, 0, 0]),
    // 27: [] >> f : P
    Conclude(Equality(TmConv), [1, 21, 16, 13, 0, 0, 0, 0, 0, 0], [26, 17, 0, 0, 0, 0, 0]),
    // 28: [] >> f : T
    Conclude(Equality(TmConv), [1, 21, 13, 16, 0, 0, 0, 0, 0, 0], [27, 18, 0, 0, 0, 0, 0]),
    // 29: [] >> f : P
    Conclude(Equality(TmConv), [1, 21, 16, 13, 0, 0, 0, 0, 0, 0], [28, 17, 0, 0, 0, 0, 0]),
    // 30: [] >> f : T
    Conclude(Equality(TmConv), [1, 21, 13, 16, 0, 0, 0, 0, 0, 0], [29, 18, 0, 0, 0, 0, 0]),
    // 31: [] >> f : P
    Conclude(Equality(TmConv), [1, 21, 16, 13, 0, 0, 0, 0, 0, 0], [30, 17, 0, 0, 0, 0, 0]),
    // 32: [] >> f : T
    Conclude(Equality(TmConv), [1, 21, 13, 16, 0, 0, 0, 0, 0, 0], [31, 18, 0, 0, 0, 0, 0]),
};

/// The rows of what it gives: function.
pub static CONVERSIONS_GIVES: &[u16] = &[32];
