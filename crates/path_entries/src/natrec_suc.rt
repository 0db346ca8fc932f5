//! Written by tools/write_entries.py.

use recipes::Row::{Conclude, Instance, Make, Part, Premise, Push, Shift, Var, WithVar};
use recipes::{Row, table};
use theory::ContextRule::{SubId, SubVar};
use theory::InstanceRule::TySub;
use theory::NatRule::{NatRec, NatU, Suc};
use theory::Op;
use theory::PiRule::App;
use theory::RuleName::{Contexts, Instances, Naturals, Pi, Universe};
use theory::UniverseRule::TyU;

/// `Type` of what natrec.suc concludes. Its parts are G P a b n.
pub static NATREC_SUC_TYPE: &[Row] = table! {
    // 0: G.nat >> P
    Premise(0),
    // 1: G >> n : nat
    Premise(1),
    // 2: ctx G
    Premise(2),
    Part(0),
    Part(4),
    // 5: G >> suc n : nat
    Conclude(Naturals(Suc), [3, 4, 0, 0, 0, 0, 0, 0, 0, 0], [1, 0, 0, 0, 0, 0, 0]),
    // 6: id : G to G
    Conclude(Contexts(SubId), [3, 0, 0, 0, 0, 0, 0, 0, 0, 0], [2, 0, 0, 0, 0, 0, 0]),
    // 7: G >> nat : U
    Conclude(Naturals(NatU), [3, 0, 0, 0, 0, 0, 0, 0, 0, 0], [2, 0, 0, 0, 0, 0, 0]),
    Make(Op::Nat, [0, 0, 0, 0]),
    // 9: G >> nat
    Conclude(Universe(TyU), [3, 8, 0, 0, 0, 0, 0, 0, 0, 0], [7, 0, 0, 0, 0, 0, 0]),
    Shift(0),
    Make(Op::Suc, [4, 0, 0, 0]),
    // 12: push id (suc n) : G to G.nat
    Conclude(Contexts(SubVar), [3, 10, 3, 8, 11, 0, 0, 0, 0, 0], [6, 9, 5, 0, 0, 0, 0]),
    Push(10, 11),
    WithVar(3, 8),
    Part(1),
    // 16: G >> P{suc n}
    Conclude(Instances(TySub), [3, 13, 14, 15, 0, 0, 0, 0, 0, 0], [12, 0, 0, 0, 0, 0, 0]),
};

/// `Left` of what natrec.suc concludes. Its parts are G P a b n.
pub static NATREC_SUC_LEFT: &[Row] = table! {
    // 0: G.nat >> P
    Premise(0),
    // 1: G >> a : P{zero}
    Premise(1),
    // 2: G >> b : motive_step P
    Premise(2),
    // 3: G >> n : nat
    Premise(3),
    Part(0),
    Part(4),
    // 6: G >> suc n : nat
    Conclude(Naturals(Suc), [4, 5, 0, 0, 0, 0, 0, 0, 0, 0], [3, 0, 0, 0, 0, 0, 0]),
    Part(1),
    Part(2),
    Part(3),
    Make(Op::Suc, [5, 0, 0, 0]),
    // 11: G >> natrec P a b (suc n) : P{suc n}
    Conclude(Naturals(NatRec), [4, 7, 8, 9, 10, 0, 0, 0, 0, 0], [0, 1, 2, 6, 0, 0, 0]),
};

/// `Right` of what natrec.suc concludes. Its parts are G P a b n.
pub static NATREC_SUC_RIGHT: &[Row] = table! {
    // 0: G.nat >> P
    Premise(0),
    // 1: G >> a : P{zero}
    Premise(1),
    // 2: G >> b : motive_step P
    Premise(2),
    // 3: G >> n : nat
    Premise(3),
    Part(0),
    Part(1),
    Part(2),
    Part(3),
    Part(4),
    // 9: G >> natrec P a b n : P{n}
    Conclude(Naturals(NatRec), [4, 5, 6, 7, 8, 0, 0, 0, 0, 0], [0, 1, 2, 3, 0, 0, 0]),
    Make(Op::Nat, [0, 0, 0, 0]),
    Shift(2),
    Var(1),
    Make(Op::Suc, [12, 0, 0, 0]),
    Push(11, 13),
    Instance(5, 14),
    Make(Op::Pi, [5, 15, 0, 0]),
    // 17: G >> app b n : pi P{n} P[push up (suc n+)]
    Conclude(Pi(App), [4, 7, 8, 10, 16, 0, 0, 0, 0, 0], [2, 3, 0, 0, 0, 0, 0]),
    Make(Op::App, [7, 8, 0, 0]),
    Make(Op::NatRec, [5, 6, 7, 8]),
    Shift(0),
    Push(20, 8),
    Instance(5, 21),
    Shift(1),
    Instance(8, 23),
    Make(Op::Suc, [24, 0, 0, 0]),
    Push(23, 25),
    Instance(5, 26),
    // 28: G >> app (app b n) (natrec P a b n) : P{suc n}
    Conclude(Pi(App), [4, 18, 19, 22, 27, 0, 0, 0, 0, 0], [17, 9, 0, 0, 0, 0, 0]),
};
