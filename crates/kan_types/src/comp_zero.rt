//! Written by tools/write_recipes.py.

use recipes::Row::{Conclude, Part, Premise};
use recipes::{Row, table};
use theory::CompRule::CompZero;
use theory::NatRule::Zero;
use theory::RuleName::{Composition, Naturals};

/// Composition of zeros, as in the paper by Cohen et al., section 4.5.
/// Its parts are G p.
pub static COMP_ZERO: &[Row] = table! {
    Premise(0),
    Part(0),
    // 2: zero : nat
    Conclude(Naturals(Zero), [1, 0, 0, 0, 0, 0, 0, 0, 0, 0], [0, 0, 0, 0, 0, 0, 0]),
    Part(1),
    // 4: comp (i. nat) p (i. zero) zero = zero : nat
    Conclude(Composition(CompZero), [1, 3, 0, 0, 0, 0, 0, 0, 0, 0], [0, 0, 0, 0, 0, 0, 0]),
};

/// The rows of what it gives: typing, equal.
pub static COMP_ZERO_GIVES: &[u16] = &[2, 4];
