//! Written by tools/write_entries.py.

use recipes::Row::{Conclude, Make, Part, Premise, Push, Shift, WithVar};
use recipes::{Row, table};
use theory::ContextRule::{SubId, SubVar};
use theory::InstanceRule::TySub;
use theory::NatRule::NatU;
use theory::Op;
use theory::RuleName::{Contexts, Instances, Naturals, Universe};
use theory::UniverseRule::TyU;

/// `Type` of what natrec concludes. Its parts are G P a b n.
pub static NATREC_TYPE: &[Row] = table! {
    // 0: G.nat >> P
    Premise(0),
    // 1: G >> n : nat
    Premise(1),
    // 2: ctx G
    Premise(2),
    Part(0),
    // 4: id : G to G
    Conclude(Contexts(SubId), [3, 0, 0, 0, 0, 0, 0, 0, 0, 0], [2, 0, 0, 0, 0, 0, 0]),
    // 5: G >> nat : U
    Conclude(Naturals(NatU), [3, 0, 0, 0, 0, 0, 0, 0, 0, 0], [2, 0, 0, 0, 0, 0, 0]),
    Make(Op::Nat, [0, 0, 0, 0]),
    // 7: G >> nat
    Conclude(Universe(TyU), [3, 6, 0, 0, 0, 0, 0, 0, 0, 0], [5, 0, 0, 0, 0, 0, 0]),
    Shift(0),
    Part(4),
    // 10: push id n : G to G.nat
    Conclude(Contexts(SubVar), [3, 8, 3, 6, 9, 0, 0, 0, 0, 0], [4, 7, 1, 0, 0, 0, 0]),
    Push(8, 9),
    WithVar(3, 6),
    Part(1),
    // 14: G >> P{n}
    Conclude(Instances(TySub), [3, 11, 12, 13, 0, 0, 0, 0, 0, 0], [10, 0, 0, 0, 0, 0, 0]),
};
