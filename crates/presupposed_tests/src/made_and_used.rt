//! Written by tools/write_recipes.py.

use recipes::Row::{Conclude, Make, Nil, Var, WithName, WithVar};
use recipes::{Row, table};
use theory::ContextRule::{CtxName, CtxNil, CtxVar};
use theory::EqualityRule::TmEqRefl;
use theory::InstanceRule::TmVar;
use theory::NatRule::{NatU, Zero};
use theory::Op;
use theory::PathRule::{PApp, PLam};
use theory::PiRule::{App, Lam};
use theory::RuleName::{Contexts, Equality, Instances, Naturals, Paths, Pi, Sigma, Universe};
use theory::SigmaRule::{Fst, Pair, Snd};
use theory::UniverseRule::TyU;

/// Terms of functions, pairs, paths and numbers, made and used.
pub static MADE_AND_USED: &[Row] = table! {
    // 0: ctx []
    Conclude(Contexts(CtxNil), [0, 0, 0, 0, 0, 0, 0, 0, 0, 0], [0, 0, 0, 0, 0, 0, 0]),
    Nil,
    // 2: [] >> nat : U
    Conclude(Naturals(NatU), [1, 0, 0, 0, 0, 0, 0, 0, 0, 0], [0, 0, 0, 0, 0, 0, 0]),
    Make(Op::Nat, [0, 0, 0, 0]),
    // 4: [] >> nat
    Conclude(Universe(TyU), [1, 3, 0, 0, 0, 0, 0, 0, 0, 0], [2, 0, 0, 0, 0, 0, 0]),
    // 5: ctx N
    Conclude(Contexts(CtxVar), [1, 3, 0, 0, 0, 0, 0, 0, 0, 0], [4, 0, 0, 0, 0, 0, 0]),
    WithVar(1, 3),
    // 7: N >> nat : U
    Conclude(Naturals(NatU), [6, 0, 0, 0, 0, 0, 0, 0, 0, 0], [5, 0, 0, 0, 0, 0, 0]),
    // 8: N >> nat
    Conclude(Universe(TyU), [6, 3, 0, 0, 0, 0, 0, 0, 0, 0], [7, 0, 0, 0, 0, 0, 0]),
    // 9: [] >> zero : nat
    Conclude(Naturals(Zero), [1, 0, 0, 0, 0, 0, 0, 0, 0, 0], [0, 0, 0, 0, 0, 0, 0]),
    // 10: N >> var 0 : nat
    Conclude(Instances(TmVar), [1, 3, 0, 0, 0, 0, 0, 0, 0, 0], [4, 0, 0, 0, 0, 0, 0]),
    Var(0),
    // 12: [] >> f : pi nat nat
    Conclude(Pi(Lam), [1, 3, 11, 3, 0, 0, 0, 0, 0, 0], [4, 10, 0, 0, 0, 0, 0]),
    Make(Op::Lam, [3, 11, 0, 0]),
    Make(Op::Zero, [0, 0, 0, 0]),
    // 15: [] >> app f zero : nat
    Conclude(Pi(App), [1, 13, 14, 3, 3, 0, 0, 0, 0, 0], [12, 9, 0, 0, 0, 0, 0]),
    // 16: [] >> p : sig nat nat
    Conclude(Sigma(Pair), [1, 14, 14, 3, 3, 0, 0, 0, 0, 0], [8, 9, 9, 0, 0, 0, 0]),
    Make(Op::Pair, [14, 14, 0, 0]),
    // 18: [] >> fst p : nat
    Conclude(Sigma(Fst), [1, 17, 3, 3, 0, 0, 0, 0, 0, 0], [16, 0, 0, 0, 0, 0, 0]),
    // 19: [] >> snd p : nat
    Conclude(Sigma(Snd), [1, 17, 3, 3, 0, 0, 0, 0, 0, 0], [16, 0, 0, 0, 0, 0, 0]),
    // 20: ctx I
    Conclude(Contexts(CtxName), [1, 0, 0, 0, 0, 0, 0, 0, 0, 0], [0, 0, 0, 0, 0, 0, 0]),
    WithName(1),
    // 22: I >> zero : nat
    Conclude(Naturals(Zero), [21, 0, 0, 0, 0, 0, 0, 0, 0, 0], [20, 0, 0, 0, 0, 0, 0]),
    // 23: [] >> zero = zero : nat
    Conclude(Equality(TmEqRefl), [1, 14, 3, 0, 0, 0, 0, 0, 0, 0], [9, 0, 0, 0, 0, 0, 0]),
    // 24: [] >> q : pathp nat zero zero
    Conclude(Paths(PLam), [1, 3, 14, 14, 14, 0, 0, 0, 0, 0], [22, 23, 23, 0, 0, 0, 0]),
    Make(Op::PLam, [14, 0, 0, 0]),
    Make(Op::I0, [0, 0, 0, 0]),
    // 27: [] >> papp q i0 : nat
    Conclude(Paths(PApp), [1, 25, 26, 3, 14, 14, 0, 0, 0, 0], [24, 0, 0, 0, 0, 0, 0]),
};

/// The rows of what it gives: pair, path, type, applied, first, second, path_at.
pub static MADE_AND_USED_GIVES: &[u16] = &[16, 24, 2, 15, 18, 19, 27];
