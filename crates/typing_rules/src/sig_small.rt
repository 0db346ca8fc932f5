//! Written by tools/write_recipes.py.

use recipes::Row::{Conclude, Field, Premise};
use recipes::{Row, table};
use theory::RuleName::Sigma;
use theory::SigmaRule::SigU;

/// A type of pairs in the universe.
/// Its parts are H A B.
pub static SIG_SMALL: &[Row] = table! {
    // 0: H >> A : U
    Premise(0),
    // 1: H.A >> B : U
    Premise(1),
    Field(0, 0),
    Field(0, 1),
    Field(1, 1),
    // 5: H >> sig A B : U
    Conclude(Sigma(SigU), [2, 3, 4, 0, 0, 0, 0, 0, 0, 0], [0, 1, 0, 0, 0, 0, 0]),
};

/// The rows of what it gives: term.
pub static SIG_SMALL_GIVES: &[u16] = &[5];
