//! Written by tools/write_recipes.py.

use recipes::Row::{Conclude, Field, Premise};
use recipes::{Row, table};
use theory::InstanceRule::TmSub;
use theory::RuleName::Instances;

/// A term under a substitution.
/// Its parts are H d G a A.
pub static TERM_INSTANCE: &[Row] = table! {
    // 0: d : H to G
    Premise(0),
    // 1: G >> a : A
    Premise(1),
    Field(0, 0),
    Field(0, 1),
    Field(0, 2),
    Field(1, 1),
    Field(1, 2),
    // 7: H >> a[d] : A[d]
    Conclude(Instances(TmSub), [2, 3, 4, 5, 6, 0, 0, 0, 0, 0], [0, 1, 0, 0, 0, 0, 0]),
};

/// The rows of what it gives: term.
pub static TERM_INSTANCE_GIVES: &[u16] = &[7];
