//! Written by tools/write_recipes.py.

use recipes::Row::{Conclude, Field, Premise};
use recipes::{Row, table};
use theory::NatRule::{Suc, SucCong};
use theory::RuleName::Naturals;

/// The successor of what equals a number.
/// Its parts are H m n.
pub static SUC_NORMAL: &[Row] = table! {
    // 0: H >> m = n : nat
    Premise(0),
    // 1: H >> n : nat
    Premise(1),
    Field(0, 0),
    Field(0, 1),
    Field(0, 2),
    // 5: H >> suc m = suc n : nat
    Conclude(Naturals(SucCong), [2, 3, 4, 0, 0, 0, 0, 0, 0, 0], [0, 0, 0, 0, 0, 0, 0]),
    // 6: H >> suc n : nat
    Conclude(Naturals(Suc), [2, 4, 0, 0, 0, 0, 0, 0, 0, 0], [1, 0, 0, 0, 0, 0, 0]),
};

/// The rows of what it gives: equal, term.
pub static SUC_NORMAL_GIVES: &[u16] = &[5, 6];
