//! Written by tools/write_recipes.py.

use recipes::Row::{Conclude, Field, Premise};
use recipes::{Row, table};
use theory::NatRule::SucCong;
use theory::RuleName::Naturals;

/// Successors of equal numbers.
/// Its parts are H n m.
pub static SUC_EQUAL: &[Row] = table! {
    // 0: H >> n = m : nat
    Premise(0),
    Field(0, 0),
    Field(0, 1),
    Field(0, 2),
    // 4: H >> suc n = suc m : nat
    Conclude(Naturals(SucCong), [1, 2, 3, 0, 0, 0, 0, 0, 0, 0], [0, 0, 0, 0, 0, 0, 0]),
};

/// The rows of what it gives: equal.
pub static SUC_EQUAL_GIVES: &[u16] = &[4];
