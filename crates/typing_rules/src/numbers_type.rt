//! Written by tools/write_recipes.py.

use recipes::Row::{Conclude, Field, Make, Premise};
use recipes::{Row, table};
use theory::NatRule::NatU;
use theory::Op;
use theory::RuleName::{Naturals, Universe};
use theory::UniverseRule::TyU;

/// The numbers are a type.
/// Its parts are H.
pub static NUMBERS_TYPE: &[Row] = table! {
    // 0: ctx H
    Premise(0),
    Field(0, 0),
    // 2: H >> nat : U
    Conclude(Naturals(NatU), [1, 0, 0, 0, 0, 0, 0, 0, 0, 0], [0, 0, 0, 0, 0, 0, 0]),
    Make(Op::Nat, [0, 0, 0, 0]),
    // 4: H >> nat
    Conclude(Universe(TyU), [1, 3, 0, 0, 0, 0, 0, 0, 0, 0], [2, 0, 0, 0, 0, 0, 0]),
};

/// The rows of what it gives: term, type.
pub static NUMBERS_TYPE_GIVES: &[u16] = &[2, 4];
