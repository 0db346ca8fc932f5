//! Written by tools/write_recipes.py.

use recipes::Row::{Conclude, Field, Instance, Premise};
use recipes::{Row, table};
use theory::EqualityRule::TyEqRefl;
use theory::InstanceRule::TySub;
use theory::RuleName::{Equality, Instances};

/// A type under a substitution equals itself.
/// Its parts are H d G A.
pub static WAY_BEGUN_TYPE: &[Row] = table! {
    // 0: d : H to G
    Premise(0),
    // 1: G >> A
    Premise(1),
    Field(0, 0),
    Field(0, 1),
    Field(0, 2),
    Field(1, 1),
    // 6: H >> A[d]
    Conclude(Instances(TySub), [2, 3, 4, 5, 0, 0, 0, 0, 0, 0], [0, 1, 0, 0, 0, 0, 0]),
    Instance(5, 3),
    // 8: H >> A[d] = A[d]
    Conclude(Equality(TyEqRefl), [2, 7, 0, 0, 0, 0, 0, 0, 0, 0], [6, 0, 0, 0, 0, 0, 0]),
};

/// The rows of what it gives: equal.
pub static WAY_BEGUN_TYPE_GIVES: &[u16] = &[8];
