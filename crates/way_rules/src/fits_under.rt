//! Written by tools/write_recipes.py.

use recipes::Row::{Conclude, Field, Premise};
use recipes::{Row, table};
use theory::InstanceRule::TyEqSub;
use theory::RuleName::Instances;

/// An equation of types under a substitution.
/// Its parts are H d G B A.
pub static FITS_UNDER: &[Row] = table! {
    // 0: d : H to G
    Premise(0),
    // 1: G >> B = A
    Premise(1),
    Field(0, 0),
    Field(0, 1),
    Field(0, 2),
    Field(1, 1),
    Field(1, 2),
    // 7: H >> B[d] = A[d]
    Conclude(Instances(TyEqSub), [2, 3, 4, 5, 6, 0, 0, 0, 0, 0], [0, 1, 0, 0, 0, 0, 0]),
};

/// The rows of what it gives: fits.
pub static FITS_UNDER_GIVES: &[u16] = &[7];
