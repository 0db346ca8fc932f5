//! Written by tools/write_recipes.py.

use recipes::Row::{Conclude, Field, Premise};
use recipes::{Row, table};
use theory::InstanceRule::TyEqSub;
use theory::RuleName::Instances;

/// An equation of types under a substitution.
/// Its parts are H d G A B.
pub static EQUATION_INSTANCE: &[Row] = table! {
    // 0: d : H to G
    Premise(0),
    // 1: G >> A = B
    Premise(1),
    Field(0, 0),
    Field(0, 1),
    Field(0, 2),
    Field(1, 1),
    Field(1, 2),
    // 7: H >> A[d] = B[d]
    Conclude(Instances(TyEqSub), [2, 3, 4, 5, 6, 0, 0, 0, 0, 0], [0, 1, 0, 0, 0, 0, 0]),
};

/// The rows of what it gives: equation.
pub static EQUATION_INSTANCE_GIVES: &[u16] = &[7];
