//! Written by tools/write_recipes.py.

use recipes::Row::{Conclude, Field, Instance, Premise};
use recipes::{Row, table};
use theory::EqualityRule::TmEqRefl;
use theory::InstanceRule::TmSub;
use theory::RuleName::{Equality, Instances};

/// A term under a substitution, and that it equals itself.
/// Its parts are H d G t A.
pub static WAY_BEGUN: &[Row] = table! {
    // 0: d : H to G
    Premise(0),
    // 1: G >> t : A
    Premise(1),
    Field(0, 0),
    Field(0, 1),
    Field(0, 2),
    Field(1, 1),
    Field(1, 2),
    // 7: H >> t[d] : A[d]
    Conclude(Instances(TmSub), [2, 3, 4, 5, 6, 0, 0, 0, 0, 0], [0, 1, 0, 0, 0, 0, 0]),
    Instance(5, 3),
    Instance(6, 3),
    // 10: H >> t[d] = t[d] : A[d]
    Conclude(Equality(TmEqRefl), [2, 8, 9, 0, 0, 0, 0, 0, 0, 0], [7, 0, 0, 0, 0, 0, 0]),
};

/// The rows of what it gives: equal.
pub static WAY_BEGUN_GIVES: &[u16] = &[10];
