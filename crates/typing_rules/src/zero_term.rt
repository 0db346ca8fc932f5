//! Written by tools/write_recipes.py.

use recipes::Row::{Conclude, Field, Premise};
use recipes::{Row, table};
use theory::NatRule::Zero;
use theory::RuleName::Naturals;

/// Zero is a number.
/// Its parts are H.
pub static ZERO_TERM: &[Row] = table! {
    // 0: ctx H
    Premise(0),
    Field(0, 0),
    // 2: H >> zero : nat
    Conclude(Naturals(Zero), [1, 0, 0, 0, 0, 0, 0, 0, 0, 0], [0, 0, 0, 0, 0, 0, 0]),
};

/// The rows of what it gives: term.
pub static ZERO_TERM_GIVES: &[u16] = &[2];
