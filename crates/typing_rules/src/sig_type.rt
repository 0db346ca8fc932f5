//! Written by tools/write_recipes.py.

use recipes::Row::{Conclude, Field, Premise};
use recipes::{Row, table};
use theory::RuleName::Sigma;
use theory::SigmaRule::SigTy;

/// A type of pairs.
/// Its parts are H A B.
pub static SIG_TYPE: &[Row] = table! {
    // 0: H >> A
    Premise(0),
    // 1: H.A >> B
    Premise(1),
    Field(0, 0),
    Field(0, 1),
    Field(1, 1),
    // 5: H >> sig A B
    Conclude(Sigma(SigTy), [2, 3, 4, 0, 0, 0, 0, 0, 0, 0], [0, 1, 0, 0, 0, 0, 0]),
};

/// The rows of what it gives: type.
pub static SIG_TYPE_GIVES: &[u16] = &[5];
