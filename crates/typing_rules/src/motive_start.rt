//! Written by tools/write_recipes.py.

use recipes::Row::{Conclude, Field, Make, Premise, Shift};
use recipes::{Row, table};
use theory::ContextRule::{SubId, SubVar};
use theory::NatRule::{NatU, Zero};
use theory::Op;
use theory::RuleName::{Contexts, Naturals, Universe};
use theory::UniverseRule::TyU;

/// The substitution that takes a motive to zero.
/// Its parts are H.
pub static MOTIVE_START: &[Row] = table! {
    // 0: ctx H
    Premise(0),
    Field(0, 0),
    // 2: H >> nat : U
    Conclude(Naturals(NatU), [1, 0, 0, 0, 0, 0, 0, 0, 0, 0], [0, 0, 0, 0, 0, 0, 0]),
    Make(Op::Nat, [0, 0, 0, 0]),
    // 4: H >> nat
    Conclude(Universe(TyU), [1, 3, 0, 0, 0, 0, 0, 0, 0, 0], [2, 0, 0, 0, 0, 0, 0]),
    // 5: H >> zero : nat
    Conclude(Naturals(Zero), [1, 0, 0, 0, 0, 0, 0, 0, 0, 0], [0, 0, 0, 0, 0, 0, 0]),
    // 6: id : H to H
    Conclude(Contexts(SubId), [1, 0, 0, 0, 0, 0, 0, 0, 0, 0], [0, 0, 0, 0, 0, 0, 0]),
    Shift(0),
    Make(Op::Zero, [0, 0, 0, 0]),
    // 9: push id zero : H to H.nat
    Conclude(Contexts(SubVar), [1, 7, 1, 3, 8, 0, 0, 0, 0, 0], [6, 4, 5, 0, 0, 0, 0]),
};

/// The rows of what it gives: pushed.
pub static MOTIVE_START_GIVES: &[u16] = &[9];
