//! Written by tools/write_recipes.py.

use recipes::Row::{Conclude, Field, Premise};
use recipes::{Row, table};
use theory::NatRule::Suc;
use theory::RuleName::Naturals;

/// The successor of a number is one.
/// Its parts are H n.
pub static SUCCESSOR_TERM: &[Row] = table! {
    // 0: H >> n : nat
    Premise(0),
    Field(0, 0),
    Field(0, 1),
    // 3: H >> suc n : nat
    Conclude(Naturals(Suc), [1, 2, 0, 0, 0, 0, 0, 0, 0, 0], [0, 0, 0, 0, 0, 0, 0]),
};

/// The rows of what it gives: term.
pub static SUCCESSOR_TERM_GIVES: &[u16] = &[3];
