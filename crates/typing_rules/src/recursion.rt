//! Written by tools/write_recipes.py.

use recipes::Row::{Conclude, Field, Make, Premise, Shift};
use recipes::{Row, table};
use theory::ContextRule::{SubId, SubVar};
use theory::NatRule::{NatRec, NatU};
use theory::Op;
use theory::RuleName::{Contexts, Naturals, Universe};
use theory::UniverseRule::TyU;

/// A recursion, and the substitution that takes its motive to the type.
/// Its parts are H P a b n.
pub static RECURSION: &[Row] = table! {
    // 0: ctx H
    Premise(0),
    // 1: H.nat >> P
    Premise(1),
    // 2: H >> a : P{zero}
    Premise(2),
    // 3: H >> b : pi nat (pi P P[next])
    Premise(3),
    // 4: H >> n : nat
    Premise(4),
    Field(0, 0),
    Field(1, 1),
    Field(2, 1),
    Field(3, 1),
    Field(4, 1),
    // 10: H >> natrec P a b n : P{n}
    Conclude(Naturals(NatRec), [5, 6, 7, 8, 9, 0, 0, 0, 0, 0], [1, 2, 3, 4, 0, 0, 0]),
    // 11: H >> nat : U
    Conclude(Naturals(NatU), [5, 0, 0, 0, 0, 0, 0, 0, 0, 0], [0, 0, 0, 0, 0, 0, 0]),
    Make(Op::Nat, [0, 0, 0, 0]),
    // 13: H >> nat
    Conclude(Universe(TyU), [5, 12, 0, 0, 0, 0, 0, 0, 0, 0], [11, 0, 0, 0, 0, 0, 0]),
    // 14: id : H to H
    Conclude(Contexts(SubId), [5, 0, 0, 0, 0, 0, 0, 0, 0, 0], [0, 0, 0, 0, 0, 0, 0]),
    Shift(0),
    // 16: push id n : H to H.nat
    Conclude(Contexts(SubVar), [5, 15, 5, 12, 9, 0, 0, 0, 0, 0], [14, 13, 4, 0, 0, 0, 0]),
};

/// The rows of what it gives: term, pushed.
pub static RECURSION_GIVES: &[u16] = &[10, 16];
