//! Written by tools/write_recipes.py.

use recipes::Row::{Conclude, Field, Premise};
use recipes::{Row, table};
use theory::PathRule::PathUCong;
use theory::RuleName::Paths;

/// Types of paths of equal parts, in the universe.
/// Its parts are H A B u x v y.
pub static PATH_SMALL_EQUAL: &[Row] = table! {
    // 0: H.I >> A = B : U
    Premise(0),
    // 1: H >> u = x : A{i0}
    Premise(1),
    // 2: H >> v = y : A{i1}
    Premise(2),
    Field(1, 0),
    Field(0, 1),
    Field(0, 2),
    Field(1, 1),
    Field(1, 2),
    Field(2, 1),
    Field(2, 2),
    // 10: H >> pathp A u v = pathp B x y : U
    Conclude(Paths(PathUCong), [3, 4, 5, 6, 7, 8, 9, 0, 0, 0], [0, 1, 2, 0, 0, 0, 0]),
};

/// The rows of what it gives: equal.
pub static PATH_SMALL_EQUAL_GIVES: &[u16] = &[10];
