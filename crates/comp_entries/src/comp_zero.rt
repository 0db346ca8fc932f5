//! Written by tools/write_entries.py.

use recipes::Row::{Conclude, Make, Part, Premise, Shift, WithFace, WithName};
use recipes::{Row, table};
use theory::CompRule::Comp;
use theory::ContextRule::{CtxName, SubId, SubWkFace, SubWkName};
use theory::EqualityRule::TmEqRefl;
use theory::InstanceRule::TmSub;
use theory::NatRule::{NatU, Zero};
use theory::Op;
use theory::RuleName::{Composition, Contexts, Equality, Instances, Naturals, Universe};
use theory::UniverseRule::TyU;

/// `Type` of what comp.zero concludes. Its parts are G p.
pub static COMP_ZERO_TYPE: &[Row] = table! {
    // 0: ctx G
    Premise(0),
    Part(0),
    // 2: G >> nat : U
    Conclude(Naturals(NatU), [1, 0, 0, 0, 0, 0, 0, 0, 0, 0], [0, 0, 0, 0, 0, 0, 0]),
    Make(Op::Nat, [0, 0, 0, 0]),
    // 4: G >> nat
    Conclude(Universe(TyU), [1, 3, 0, 0, 0, 0, 0, 0, 0, 0], [2, 0, 0, 0, 0, 0, 0]),
};

/// `Left` of what comp.zero concludes. Its parts are G p.
pub static COMP_ZERO_LEFT: &[Row] = table! {
    // 0: ctx G
    Premise(0),
    Part(0),
    // 2: G >> zero : nat
    Conclude(Naturals(Zero), [1, 0, 0, 0, 0, 0, 0, 0, 0, 0], [0, 0, 0, 0, 0, 0, 0]),
    // 3: ctx G.I
    Conclude(Contexts(CtxName), [1, 0, 0, 0, 0, 0, 0, 0, 0, 0], [0, 0, 0, 0, 0, 0, 0]),
    WithName(1),
    // 5: G.I >> nat : U
    Conclude(Naturals(NatU), [4, 0, 0, 0, 0, 0, 0, 0, 0, 0], [3, 0, 0, 0, 0, 0, 0]),
    Make(Op::Nat, [0, 0, 0, 0]),
    // 7: G.I >> nat
    Conclude(Universe(TyU), [4, 6, 0, 0, 0, 0, 0, 0, 0, 0], [5, 0, 0, 0, 0, 0, 0]),
    // 8: id : G to G
    Conclude(Contexts(SubId), [1, 0, 0, 0, 0, 0, 0, 0, 0, 0], [0, 0, 0, 0, 0, 0, 0]),
    Shift(0),
    Part(1),
    // 11: id : G.{p} to G
    Conclude(Contexts(SubWkFace), [1, 9, 1, 10, 0, 0, 0, 0, 0, 0], [8, 0, 0, 0, 0, 0, 0]),
    WithFace(1, 10),
    // 13: up : G.{p}.I to G
    Conclude(Contexts(SubWkName), [12, 9, 1, 0, 0, 0, 0, 0, 0, 0], [11, 0, 0, 0, 0, 0, 0]),
    WithName(12),
    Shift(1),
    Make(Op::Zero, [0, 0, 0, 0]),
    // 17: G.{p}.I >> zero : nat
    Conclude(Instances(TmSub), [14, 15, 1, 16, 6, 0, 0, 0, 0, 0], [13, 2, 0, 0, 0, 0, 0]),
    // 18: G.{p} >> zero : nat
    Conclude(Instances(TmSub), [12, 9, 1, 16, 6, 0, 0, 0, 0, 0], [11, 2, 0, 0, 0, 0, 0]),
    // 19: G.{p} >> zero = zero : nat
    Conclude(Equality(TmEqRefl), [12, 16, 6, 0, 0, 0, 0, 0, 0, 0], [18, 0, 0, 0, 0, 0, 0]),
    // 20: G >> comp nat p zero zero : nat
    Conclude(Composition(Comp), [1, 6, 10, 16, 16, 0, 0, 0, 0, 0], [7, 17, 2, 19, 0, 0, 0]),
};

/// `Right` of what comp.zero concludes. Its parts are G p.
pub static COMP_ZERO_RIGHT: &[Row] = table! {
    // 0: ctx G
    Premise(0),
    Part(0),
    // 2: G >> zero : nat
    Conclude(Naturals(Zero), [1, 0, 0, 0, 0, 0, 0, 0, 0, 0], [0, 0, 0, 0, 0, 0, 0]),
};
