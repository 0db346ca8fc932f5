//! Written by tools/write_recipes.py.

use recipes::Row::{Conclude, Field, Premise};
use recipes::{Row, table};
use theory::NatRule::NatRecCong;
use theory::RuleName::Naturals;

/// Recursions of equal parts.
/// Its parts are H P Q a c b k n m.
pub static NATREC_EQUAL: &[Row] = table! {
    // 0: H.nat >> P = Q
    Premise(0),
    // 1: H >> a = c : P{zero}
    Premise(1),
    // 2: H >> b = k : pi nat (pi P P[next])
    Premise(2),
    // 3: H >> n = m : nat
    Premise(3),
    Field(1, 0),
    Field(0, 1),
    Field(0, 2),
    Field(1, 1),
    Field(1, 2),
    Field(2, 1),
    Field(2, 2),
    Field(3, 1),
    Field(3, 2),
    // 13: H >> natrec P a b n = natrec Q c k m : P{n}
    Conclude(Naturals(NatRecCong), [4, 5, 6, 7, 8, 9, 10, 11, 12, 0], [0, 1, 2, 3, 0, 0, 0]),
};

/// The rows of what it gives: equal.
pub static NATREC_EQUAL_GIVES: &[u16] = &[13];
