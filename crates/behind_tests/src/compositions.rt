//! Written by tools/write_recipes.py.

use recipes::Row::{Conclude, Make, Nil, Var, WithFace, WithName, WithVar};
use recipes::{Row, table};
use theory::CompRule::{CompPath, CompPi, CompSig, CompU};
use theory::ContextRule::{CtxFace, CtxName, CtxNil, CtxVar};
use theory::EqualityRule::TmEqRefl;
use theory::InstanceRule::TmVar;
use theory::NatRule::{NatU, Zero};
use theory::Op;
use theory::PathRule::PLam;
use theory::PiRule::Lam;
use theory::RuleName::{
    Composition, Contexts, Equality, Instances, Naturals, Paths, Pi, Sigma, Universe,
};
use theory::SigmaRule::Pair;
use theory::UniverseRule::TyU;

/// Compositions of functions, of pairs, of paths and of types, on the face that is true nowhere.
pub static COMPOSITIONS: &[Row] = table! {
    // 0: ctx []
    Conclude(Contexts(CtxNil), [0, 0, 0, 0, 0, 0, 0, 0, 0, 0], [0, 0, 0, 0, 0, 0, 0]),
    Nil,
    // 2: ctx N
    Conclude(Contexts(CtxName), [1, 0, 0, 0, 0, 0, 0, 0, 0, 0], [0, 0, 0, 0, 0, 0, 0]),
    WithName(1),
    // 4: N >> nat : U
    Conclude(Naturals(NatU), [3, 0, 0, 0, 0, 0, 0, 0, 0, 0], [2, 0, 0, 0, 0, 0, 0]),
    Make(Op::Nat, [0, 0, 0, 0]),
    // 6: N >> nat
    Conclude(Universe(TyU), [3, 5, 0, 0, 0, 0, 0, 0, 0, 0], [4, 0, 0, 0, 0, 0, 0]),
    // 7: ctx N.nat
    Conclude(Contexts(CtxVar), [3, 5, 0, 0, 0, 0, 0, 0, 0, 0], [6, 0, 0, 0, 0, 0, 0]),
    WithVar(3, 5),
    // 9: N.nat >> nat : U
    Conclude(Naturals(NatU), [8, 0, 0, 0, 0, 0, 0, 0, 0, 0], [7, 0, 0, 0, 0, 0, 0]),
    // 10: N.nat >> nat
    Conclude(Universe(TyU), [8, 5, 0, 0, 0, 0, 0, 0, 0, 0], [9, 0, 0, 0, 0, 0, 0]),
    Make(Op::F0, [0, 0, 0, 0]),
    // 12: ctx P
    Conclude(Contexts(CtxFace), [1, 11, 0, 0, 0, 0, 0, 0, 0, 0], [0, 0, 0, 0, 0, 0, 0]),
    WithFace(1, 11),
    // 14: ctx Q
    Conclude(Contexts(CtxName), [13, 0, 0, 0, 0, 0, 0, 0, 0, 0], [12, 0, 0, 0, 0, 0, 0]),
    WithName(13),
    // 16: Q >> nat : U
    Conclude(Naturals(NatU), [15, 0, 0, 0, 0, 0, 0, 0, 0, 0], [14, 0, 0, 0, 0, 0, 0]),
    // 17: Q >> nat
    Conclude(Universe(TyU), [15, 5, 0, 0, 0, 0, 0, 0, 0, 0], [16, 0, 0, 0, 0, 0, 0]),
    // 18: Q.nat >> var 0 : nat
    Conclude(Instances(TmVar), [15, 5, 0, 0, 0, 0, 0, 0, 0, 0], [17, 0, 0, 0, 0, 0, 0]),
    Var(0),
    // 20: Q >> same : function
    Conclude(Pi(Lam), [15, 5, 19, 5, 0, 0, 0, 0, 0, 0], [17, 18, 0, 0, 0, 0, 0]),
    // 21: [] >> nat : U
    Conclude(Naturals(NatU), [1, 0, 0, 0, 0, 0, 0, 0, 0, 0], [0, 0, 0, 0, 0, 0, 0]),
    // 22: [] >> nat
    Conclude(Universe(TyU), [1, 5, 0, 0, 0, 0, 0, 0, 0, 0], [21, 0, 0, 0, 0, 0, 0]),
    // 23: [].nat >> var 0 : nat
    Conclude(Instances(TmVar), [1, 5, 0, 0, 0, 0, 0, 0, 0, 0], [22, 0, 0, 0, 0, 0, 0]),
    // 24: [] >> same : function
    Conclude(Pi(Lam), [1, 5, 19, 5, 0, 0, 0, 0, 0, 0], [22, 23, 0, 0, 0, 0, 0]),
    // 25: P >> nat : U
    Conclude(Naturals(NatU), [13, 0, 0, 0, 0, 0, 0, 0, 0, 0], [12, 0, 0, 0, 0, 0, 0]),
    // 26: P >> nat
    Conclude(Universe(TyU), [13, 5, 0, 0, 0, 0, 0, 0, 0, 0], [25, 0, 0, 0, 0, 0, 0]),
    // 27: P.nat >> var 0 : nat
    Conclude(Instances(TmVar), [13, 5, 0, 0, 0, 0, 0, 0, 0, 0], [26, 0, 0, 0, 0, 0, 0]),
    // 28: P >> same : function
    Conclude(Pi(Lam), [13, 5, 19, 5, 0, 0, 0, 0, 0, 0], [26, 27, 0, 0, 0, 0, 0]),
    Make(Op::Lam, [5, 19, 0, 0]),
    Make(Op::Pi, [5, 5, 0, 0]),
    // 31: P >> same = same : function
    Conclude(Equality(TmEqRefl), [13, 29, 30, 0, 0, 0, 0, 0, 0, 0], [28, 0, 0, 0, 0, 0, 0]),
    // 32: [] >> comp function f0 same same = comp_pi nat nat f0 same same : function
    Conclude(Composition(CompPi), [1, 5, 5, 11, 29, 29, 0, 0, 0, 0], [6, 10, 20, 24, 31, 0, 0]),
    // 33: ctx Q.nat
    Conclude(Contexts(CtxVar), [15, 5, 0, 0, 0, 0, 0, 0, 0, 0], [17, 0, 0, 0, 0, 0, 0]),
    WithVar(15, 5),
    // 35: Q.nat >> nat : U
    Conclude(Naturals(NatU), [34, 0, 0, 0, 0, 0, 0, 0, 0, 0], [33, 0, 0, 0, 0, 0, 0]),
    // 36: Q.nat >> nat
    Conclude(Universe(TyU), [34, 5, 0, 0, 0, 0, 0, 0, 0, 0], [35, 0, 0, 0, 0, 0, 0]),
    // 37: Q >> zero : nat
    Conclude(Naturals(Zero), [15, 0, 0, 0, 0, 0, 0, 0, 0, 0], [14, 0, 0, 0, 0, 0, 0]),
    Make(Op::Zero, [0, 0, 0, 0]),
    // 39: Q >> two : pairs
    Conclude(Sigma(Pair), [15, 38, 38, 5, 5, 0, 0, 0, 0, 0], [36, 37, 37, 0, 0, 0, 0]),
    // 40: ctx [].nat
    Conclude(Contexts(CtxVar), [1, 5, 0, 0, 0, 0, 0, 0, 0, 0], [22, 0, 0, 0, 0, 0, 0]),
    WithVar(1, 5),
    // 42: [].nat >> nat : U
    Conclude(Naturals(NatU), [41, 0, 0, 0, 0, 0, 0, 0, 0, 0], [40, 0, 0, 0, 0, 0, 0]),
    // 43: [].nat >> nat
    Conclude(Universe(TyU), [41, 5, 0, 0, 0, 0, 0, 0, 0, 0], [42, 0, 0, 0, 0, 0, 0]),
    // 44: [] >> zero : nat
    Conclude(Naturals(Zero), [1, 0, 0, 0, 0, 0, 0, 0, 0, 0], [0, 0, 0, 0, 0, 0, 0]),
    // 45: [] >> two : pairs
    Conclude(Sigma(Pair), [1, 38, 38, 5, 5, 0, 0, 0, 0, 0], [43, 44, 44, 0, 0, 0, 0]),
    // 46: ctx P.nat
    Conclude(Contexts(CtxVar), [13, 5, 0, 0, 0, 0, 0, 0, 0, 0], [26, 0, 0, 0, 0, 0, 0]),
    WithVar(13, 5),
    // 48: P.nat >> nat : U
    Conclude(Naturals(NatU), [47, 0, 0, 0, 0, 0, 0, 0, 0, 0], [46, 0, 0, 0, 0, 0, 0]),
    // 49: P.nat >> nat
    Conclude(Universe(TyU), [47, 5, 0, 0, 0, 0, 0, 0, 0, 0], [48, 0, 0, 0, 0, 0, 0]),
    // 50: P >> zero : nat
    Conclude(Naturals(Zero), [13, 0, 0, 0, 0, 0, 0, 0, 0, 0], [12, 0, 0, 0, 0, 0, 0]),
    // 51: P >> two : pairs
    Conclude(Sigma(Pair), [13, 38, 38, 5, 5, 0, 0, 0, 0, 0], [49, 50, 50, 0, 0, 0, 0]),
    Make(Op::Pair, [38, 38, 0, 0]),
    Make(Op::Sig, [5, 5, 0, 0]),
    // 54: P >> two = two : pairs
    Conclude(Equality(TmEqRefl), [13, 52, 53, 0, 0, 0, 0, 0, 0, 0], [51, 0, 0, 0, 0, 0, 0]),
    // 55: [] >> comp pairs f0 two two = comp_sig nat nat f0 two two : pairs
    Conclude(Composition(CompSig), [1, 5, 5, 11, 52, 52, 0, 0, 0, 0], [6, 10, 39, 45, 54, 0, 0]),
    // 56: ctx N.I
    Conclude(Contexts(CtxName), [3, 0, 0, 0, 0, 0, 0, 0, 0, 0], [2, 0, 0, 0, 0, 0, 0]),
    WithName(3),
    // 58: N.I >> nat : U
    Conclude(Naturals(NatU), [57, 0, 0, 0, 0, 0, 0, 0, 0, 0], [56, 0, 0, 0, 0, 0, 0]),
    // 59: N.I >> nat
    Conclude(Universe(TyU), [57, 5, 0, 0, 0, 0, 0, 0, 0, 0], [58, 0, 0, 0, 0, 0, 0]),
    // 60: N >> zero : nat
    Conclude(Naturals(Zero), [3, 0, 0, 0, 0, 0, 0, 0, 0, 0], [2, 0, 0, 0, 0, 0, 0]),
    // 61: ctx Q.I
    Conclude(Contexts(CtxName), [15, 0, 0, 0, 0, 0, 0, 0, 0, 0], [14, 0, 0, 0, 0, 0, 0]),
    WithName(15),
    // 63: Q.I >> zero : nat
    Conclude(Naturals(Zero), [62, 0, 0, 0, 0, 0, 0, 0, 0, 0], [61, 0, 0, 0, 0, 0, 0]),
    // 64: Q >> zero = zero : nat
    Conclude(Equality(TmEqRefl), [15, 38, 5, 0, 0, 0, 0, 0, 0, 0], [37, 0, 0, 0, 0, 0, 0]),
    // 65: Q >> still : path
    Conclude(Paths(PLam), [15, 5, 38, 38, 38, 0, 0, 0, 0, 0], [63, 64, 64, 0, 0, 0, 0]),
    // 66: [] >> zero = zero : nat
    Conclude(Equality(TmEqRefl), [1, 38, 5, 0, 0, 0, 0, 0, 0, 0], [44, 0, 0, 0, 0, 0, 0]),
    // 67: [] >> still : path
    Conclude(Paths(PLam), [1, 5, 38, 38, 38, 0, 0, 0, 0, 0], [60, 66, 66, 0, 0, 0, 0]),
    // 68: P >> zero = zero : nat
    Conclude(Equality(TmEqRefl), [13, 38, 5, 0, 0, 0, 0, 0, 0, 0], [50, 0, 0, 0, 0, 0, 0]),
    // 69: P >> still : path
    Conclude(Paths(PLam), [13, 5, 38, 38, 38, 0, 0, 0, 0, 0], [37, 68, 68, 0, 0, 0, 0]),
    Make(Op::PLam, [38, 0, 0, 0]),
    Make(Op::PathP, [5, 38, 38, 0]),
    // 72: P >> still = still : path
    Conclude(Equality(TmEqRefl), [13, 70, 71, 0, 0, 0, 0, 0, 0, 0], [69, 0, 0, 0, 0, 0, 0]),
    // 73: [] >> comp path f0 still still = comp_path nat zero zero f0 still still : path
    Conclude(Composition(CompPath), [1, 5, 38, 38, 11, 70, 70, 0, 0, 0],
        [59, 60, 60, 65, 67, 72, 0]),
    Make(Op::U, [0, 0, 0, 0]),
    // 75: P >> nat = nat : U
    Conclude(Equality(TmEqRefl), [13, 5, 74, 0, 0, 0, 0, 0, 0, 0], [25, 0, 0, 0, 0, 0, 0]),
    // 76: [] >> comp U f0 nat nat = comp_u f0 nat nat : U
    Conclude(Composition(CompU), [1, 11, 5, 5, 0, 0, 0, 0, 0, 0], [16, 21, 75, 0, 0, 0, 0]),
};

/// The rows of what it gives: functions, pairs, paths, types.
pub static COMPOSITIONS_GIVES: &[u16] = &[32, 55, 73, 76];
