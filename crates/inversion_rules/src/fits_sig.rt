//! Written by tools/write_recipes.py.

use recipes::Row::{Conclude, Field, Premise};
use recipes::{Row, table};
use theory::RuleName::Sigma;
use theory::SigmaRule::SigTy;

/// A type of pairs that equals a type, from its parts.
/// Its parts are G A B T.
pub static FITS_SIG: &[Row] = table! {
    // 0: G >> sig A B = T
    Premise(0),
    // 1: G >> A
    Premise(1),
    // 2: G.A >> B
    Premise(2),
    Field(0, 0),
    Field(1, 1),
    Field(2, 1),
    // 6: G >> sig A B
    Conclude(Sigma(SigTy), [3, 4, 5, 0, 0, 0, 0, 0, 0, 0], [1, 2, 0, 0, 0, 0, 0]),
};

/// The rows of what it gives: type.
pub static FITS_SIG_GIVES: &[u16] = &[6];
