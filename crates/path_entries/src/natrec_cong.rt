//! Written by tools/write_entries.py.

use recipes::Row::{Conclude, Instance, Make, Part, Premise, Push, Shift, Var, WithVar};
use recipes::{Row, table};
use theory::ContextRule::{SubId, SubVar, SubWk};
use theory::EqualityRule::{TmConv, TyEqRefl, TyEqSym, TyEqTrans};
use theory::InstanceRule::{TmSub, TmVar, TyCong, TyEqSub, TySub};
use theory::NatRule::{NatRec, NatU, Suc, Zero};
use theory::Op;
use theory::PiRule::PiTyCong;
use theory::RuleName::{Contexts, Equality, Instances, Naturals, Pi, Universe};
use theory::UniverseRule::TyU;

/// `Type` of what natrec.cong concludes. Its parts are G P Q a c b k n m.
pub static NATREC_CONG_TYPE: &[Row] = table! {
    // 0: G.nat >> P
    Premise(0),
    // 1: ctx G
    Premise(1),
    // 2: G >> n : nat
    Premise(2),
    Part(0),
    // 4: id : G to G
    Conclude(Contexts(SubId), [3, 0, 0, 0, 0, 0, 0, 0, 0, 0], [1, 0, 0, 0, 0, 0, 0]),
    // 5: G >> nat : U
    Conclude(Naturals(NatU), [3, 0, 0, 0, 0, 0, 0, 0, 0, 0], [1, 0, 0, 0, 0, 0, 0]),
    Make(Op::Nat, [0, 0, 0, 0]),
    // 7: G >> nat
    Conclude(Universe(TyU), [3, 6, 0, 0, 0, 0, 0, 0, 0, 0], [5, 0, 0, 0, 0, 0, 0]),
    Shift(0),
    Part(7),
    // 10: push id n : G to G.nat
    Conclude(Contexts(SubVar), [3, 8, 3, 6, 9, 0, 0, 0, 0, 0], [4, 7, 2, 0, 0, 0, 0]),
    Push(8, 9),
    WithVar(3, 6),
    Part(1),
    // 14: G >> P{n}
    Conclude(Instances(TySub), [3, 11, 12, 13, 0, 0, 0, 0, 0, 0], [10, 0, 0, 0, 0, 0, 0]),
};

/// `Left` of what natrec.cong concludes. Its parts are G P Q a c b k n m.
pub static NATREC_CONG_LEFT: &[Row] = table! {
    // 0: G.nat >> P
    Premise(0),
    // 1: G >> a : P{zero}
    Premise(1),
    // 2: G >> b : motive_step P
    Premise(2),
    // 3: G >> n : nat
    Premise(3),
    Part(0),
    Part(1),
    Part(3),
    Part(5),
    Part(7),
    // 9: G >> natrec P a b n : P{n}
    Conclude(Naturals(NatRec), [4, 5, 6, 7, 8, 0, 0, 0, 0, 0], [0, 1, 2, 3, 0, 0, 0]),
};

/// `Right` of what natrec.cong concludes. Its parts are G P Q a c b k n m.
pub static NATREC_CONG_RIGHT: &[Row] = table! {
    // 0: G.nat >> P = Q
    Premise(0),
    // 1: G >> n = m : nat
    Premise(1),
    // 2: ctx G.nat
    Premise(2),
    // 3: G.nat >> P
    Premise(3),
    // 4: G.nat >> Q
    Premise(4),
    // 5: ctx G
    Premise(5),
    // 6: G >> c : P{zero}
    Premise(6),
    // 7: G >> k : motive_step P
    Premise(7),
    // 8: G >> m : nat
    Premise(8),
    Part(0),
    // 10: id : G to G
    Conclude(Contexts(SubId), [9, 0, 0, 0, 0, 0, 0, 0, 0, 0], [5, 0, 0, 0, 0, 0, 0]),
    // 11: G >> nat : U
    Conclude(Naturals(NatU), [9, 0, 0, 0, 0, 0, 0, 0, 0, 0], [5, 0, 0, 0, 0, 0, 0]),
    Make(Op::Nat, [0, 0, 0, 0]),
    // 13: G >> nat
    Conclude(Universe(TyU), [9, 12, 0, 0, 0, 0, 0, 0, 0, 0], [11, 0, 0, 0, 0, 0, 0]),
    // 14: G >> zero : nat
    Conclude(Naturals(Zero), [9, 0, 0, 0, 0, 0, 0, 0, 0, 0], [5, 0, 0, 0, 0, 0, 0]),
    Shift(0),
    Make(Op::Zero, [0, 0, 0, 0]),
    // 17: push id zero : G to G.nat
    Conclude(Contexts(SubVar), [9, 15, 9, 12, 16, 0, 0, 0, 0, 0], [10, 13, 14, 0, 0, 0, 0]),
    Push(15, 16),
    WithVar(9, 12),
    Part(1),
    Part(2),
    // 22: G >> P{zero} = Q{zero}
    Conclude(Instances(TyEqSub), [9, 18, 19, 20, 21, 0, 0, 0, 0, 0], [17, 0, 0, 0, 0, 0, 0]),
    Part(4),
    Instance(20, 18),
    Instance(21, 18),
    // 26: G >> c : Q{zero}
    Conclude(Equality(TmConv), [9, 23, 24, 25, 0, 0, 0, 0, 0, 0], [6, 22, 0, 0, 0, 0, 0]),
    // 27: G >> nat = nat
    Conclude(Equality(TyEqRefl), [9, 12, 0, 0, 0, 0, 0, 0, 0, 0], [13, 0, 0, 0, 0, 0, 0]),
    // 28: up : G.nat to G
    Conclude(Contexts(SubWk), [9, 15, 9, 12, 0, 0, 0, 0, 0, 0], [10, 13, 0, 0, 0, 0, 0]),
    Shift(1),
    // 30: shift 2 : G.nat.P to G
    Conclude(Contexts(SubWk), [19, 29, 9, 20, 0, 0, 0, 0, 0, 0], [28, 3, 0, 0, 0, 0, 0]),
    // 31: G.nat >> var 0 : nat
    Conclude(Instances(TmVar), [9, 12, 0, 0, 0, 0, 0, 0, 0, 0], [13, 0, 0, 0, 0, 0, 0]),
    // 32: id : G.nat to G.nat
    Conclude(Contexts(SubId), [19, 0, 0, 0, 0, 0, 0, 0, 0, 0], [2, 0, 0, 0, 0, 0, 0]),
    // 33: up : G.nat.P to G.nat
    Conclude(Contexts(SubWk), [19, 15, 19, 20, 0, 0, 0, 0, 0, 0], [32, 3, 0, 0, 0, 0, 0]),
    WithVar(19, 20),
    Var(0),
    // 36: G.nat.P >> var 1 : nat
    Conclude(Instances(TmSub), [34, 29, 19, 35, 12, 0, 0, 0, 0, 0], [33, 31, 0, 0, 0, 0, 0]),
    Var(1),
    // 38: G.nat.P >> suc (var 1) : nat
    Conclude(Naturals(Suc), [34, 37, 0, 0, 0, 0, 0, 0, 0, 0], [36, 0, 0, 0, 0, 0, 0]),
    Shift(2),
    Make(Op::Suc, [37, 0, 0, 0]),
    // 41: push (shift 2) (suc (var 1)) : G.nat.P to G.nat
    Conclude(Contexts(SubVar), [34, 39, 9, 12, 40, 0, 0, 0, 0, 0], [30, 13, 38, 0, 0, 0, 0]),
    Push(39, 40),
    // 43: G.nat.P >> P[push (shift 2) (suc (var 1))] = Q[push (shift 2) (suc (var 1))]
    Conclude(Instances(TyEqSub), [34, 42, 19, 20, 21, 0, 0, 0, 0, 0], [41, 0, 0, 0, 0, 0, 0]),
    Instance(20, 42),
    Instance(21, 42),
    // 46: G.nat >> pi P P[push (shift 2) (suc (var 1))] = pi Q Q[push (shift 2) (suc (var 1))]
    Conclude(Pi(PiTyCong), [19, 20, 21, 44, 45, 0, 0, 0, 0, 0], [0, 43, 0, 0, 0, 0, 0]),
    Make(Op::Pi, [20, 44, 0, 0]),
    Make(Op::Pi, [21, 45, 0, 0]),
    // 49: G >> motive_step P = motive_step Q
    Conclude(Pi(PiTyCong), [9, 12, 12, 47, 48, 0, 0, 0, 0, 0], [27, 46, 0, 0, 0, 0, 0]),
    Part(6),
    Make(Op::Pi, [12, 47, 0, 0]),
    Make(Op::Pi, [12, 48, 0, 0]),
    // 53: G >> k : motive_step Q
    Conclude(Equality(TmConv), [9, 50, 51, 52, 0, 0, 0, 0, 0, 0], [7, 49, 0, 0, 0, 0, 0]),
    Part(8),
    // 55: G >> natrec Q c k m : Q{m}
    Conclude(Naturals(NatRec), [9, 21, 23, 50, 54, 0, 0, 0, 0, 0], [4, 26, 53, 8, 0, 0, 0]),
    Part(7),
    // 57: G >> P{n} = P{m}
    Conclude(Instances(TyCong), [9, 15, 9, 12, 56, 54, 20, 0, 0, 0], [10, 3, 1, 0, 0, 0, 0]),
    // 58: push id m : G to G.nat
    Conclude(Contexts(SubVar), [9, 15, 9, 12, 54, 0, 0, 0, 0, 0], [10, 13, 8, 0, 0, 0, 0]),
    Push(15, 54),
    // 60: G >> P{m} = Q{m}
    Conclude(Instances(TyEqSub), [9, 59, 19, 20, 21, 0, 0, 0, 0, 0], [58, 0, 0, 0, 0, 0, 0]),
    Push(15, 56),
    Instance(20, 61),
    Instance(20, 59),
    Instance(21, 59),
    // 65: G >> P{n} = Q{m}
    Conclude(Equality(TyEqTrans), [9, 62, 63, 64, 0, 0, 0, 0, 0, 0], [57, 60, 0, 0, 0, 0, 0]),
    // 66: G >> Q{m} = P{n}
    Conclude(Equality(TyEqSym), [9, 62, 64, 0, 0, 0, 0, 0, 0, 0], [65, 0, 0, 0, 0, 0, 0]),
    Make(Op::NatRec, [21, 23, 50, 54]),
    // 68: G >> natrec Q c k m : P{n}
    Conclude(Equality(TmConv), [9, 67, 64, 62, 0, 0, 0, 0, 0, 0], [55, 66, 0, 0, 0, 0, 0]),
};
