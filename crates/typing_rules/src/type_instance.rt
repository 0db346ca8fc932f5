//! Written by tools/write_recipes.py.

use recipes::Row::{Conclude, Field, Premise};
use recipes::{Row, table};
use theory::InstanceRule::TySub;
use theory::RuleName::Instances;

/// A type under a substitution.
/// Its parts are H d G A.
pub static TYPE_INSTANCE: &[Row] = table! {
    // 0: d : H to G
    Premise(0),
    // 1: G >> A
    Premise(1),
    Field(0, 0),
    Field(0, 1),
    Field(0, 2),
    Field(1, 1),
    // 6: H >> A[d]
    Conclude(Instances(TySub), [2, 3, 4, 5, 0, 0, 0, 0, 0, 0], [0, 1, 0, 0, 0, 0, 0]),
};

/// The rows of what it gives: type.
pub static TYPE_INSTANCE_GIVES: &[u16] = &[6];
