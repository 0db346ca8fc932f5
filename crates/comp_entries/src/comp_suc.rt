//! Written by tools/write_entries.py.

use recipes::Row::{Conclude, Instance, Make, Part, Premise, Push, Shift, WithFace, WithName};
use recipes::{Row, table};
use theory::CompRule::Comp;
use theory::ContextRule::CtxName;
use theory::NatRule::{NatU, Suc, SucCong};
use theory::Op;
use theory::RuleName::{Composition, Contexts, Naturals, Universe};
use theory::UniverseRule::TyU;

/// `Type` of what comp.suc concludes. Its parts are G p n m.
pub static COMP_SUC_TYPE: &[Row] = table! {
    // 0: ctx G
    Premise(0),
    Part(0),
    // 2: G >> nat : U
    Conclude(Naturals(NatU), [1, 0, 0, 0, 0, 0, 0, 0, 0, 0], [0, 0, 0, 0, 0, 0, 0]),
    Make(Op::Nat, [0, 0, 0, 0]),
    // 4: G >> nat
    Conclude(Universe(TyU), [1, 3, 0, 0, 0, 0, 0, 0, 0, 0], [2, 0, 0, 0, 0, 0, 0]),
};

/// `Left` of what comp.suc concludes. Its parts are G p n m.
pub static COMP_SUC_LEFT: &[Row] = table! {
    // 0: G.{p}.I >> n : nat
    Premise(0),
    // 1: G >> m : nat
    Premise(1),
    // 2: G.{p} >> m = n{0} : nat
    Premise(2),
    // 3: ctx G
    Premise(3),
    Part(0),
    // 5: ctx G.I
    Conclude(Contexts(CtxName), [4, 0, 0, 0, 0, 0, 0, 0, 0, 0], [3, 0, 0, 0, 0, 0, 0]),
    WithName(4),
    // 7: G.I >> nat : U
    Conclude(Naturals(NatU), [6, 0, 0, 0, 0, 0, 0, 0, 0, 0], [5, 0, 0, 0, 0, 0, 0]),
    Make(Op::Nat, [0, 0, 0, 0]),
    // 9: G.I >> nat
    Conclude(Universe(TyU), [6, 8, 0, 0, 0, 0, 0, 0, 0, 0], [7, 0, 0, 0, 0, 0, 0]),
    Part(1),
    WithFace(4, 10),
    WithName(11),
    Part(2),
    // 14: G.{p}.I >> suc n : nat
    Conclude(Naturals(Suc), [12, 13, 0, 0, 0, 0, 0, 0, 0, 0], [0, 0, 0, 0, 0, 0, 0]),
    Part(3),
    // 16: G >> suc m : nat
    Conclude(Naturals(Suc), [4, 15, 0, 0, 0, 0, 0, 0, 0, 0], [1, 0, 0, 0, 0, 0, 0]),
    Shift(0),
    Make(Op::I0, [0, 0, 0, 0]),
    Push(17, 18),
    Instance(13, 19),
    // 21: G.{p} >> suc m = suc n{0} : nat
    Conclude(Naturals(SucCong), [11, 15, 20, 0, 0, 0, 0, 0, 0, 0], [2, 0, 0, 0, 0, 0, 0]),
    Make(Op::Suc, [13, 0, 0, 0]),
    Make(Op::Suc, [15, 0, 0, 0]),
    // 24: G >> comp nat p (suc n) (suc m) : nat
    Conclude(Composition(Comp), [4, 8, 10, 22, 23, 0, 0, 0, 0, 0], [9, 14, 16, 21, 0, 0, 0]),
};

/// `Right` of what comp.suc concludes. Its parts are G p n m.
pub static COMP_SUC_RIGHT: &[Row] = table! {
    // 0: G.{p}.I >> n : nat
    Premise(0),
    // 1: G >> m : nat
    Premise(1),
    // 2: G.{p} >> m = n{0} : nat
    Premise(2),
    // 3: ctx G
    Premise(3),
    Part(0),
    // 5: ctx G.I
    Conclude(Contexts(CtxName), [4, 0, 0, 0, 0, 0, 0, 0, 0, 0], [3, 0, 0, 0, 0, 0, 0]),
    WithName(4),
    // 7: G.I >> nat : U
    Conclude(Naturals(NatU), [6, 0, 0, 0, 0, 0, 0, 0, 0, 0], [5, 0, 0, 0, 0, 0, 0]),
    Make(Op::Nat, [0, 0, 0, 0]),
    // 9: G.I >> nat
    Conclude(Universe(TyU), [6, 8, 0, 0, 0, 0, 0, 0, 0, 0], [7, 0, 0, 0, 0, 0, 0]),
    Part(1),
    Part(2),
    Part(3),
    // 13: G >> comp nat p n m : nat
    Conclude(Composition(Comp), [4, 8, 10, 11, 12, 0, 0, 0, 0, 0], [9, 0, 1, 2, 0, 0, 0]),
    Make(Op::Comp, [8, 10, 11, 12]),
    // 15: G >> suc (comp nat p n m) : nat
    Conclude(Naturals(Suc), [4, 14, 0, 0, 0, 0, 0, 0, 0, 0], [13, 0, 0, 0, 0, 0, 0]),
};
