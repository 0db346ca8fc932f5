//! Written by tools/write_recipes.py.

use recipes::Row::{Conclude, Field, Premise};
use recipes::{Row, table};
use theory::PathRule::PathTy;
use theory::RuleName::Paths;

/// A type of paths.
/// Its parts are H A u v.
pub static PATH_TYPE: &[Row] = table! {
    // 0: H.I >> A
    Premise(0),
    // 1: H >> u : A{i0}
    Premise(1),
    // 2: H >> v : A{i1}
    Premise(2),
    Field(1, 0),
    Field(0, 1),
    Field(1, 1),
    Field(2, 1),
    // 7: H >> pathp A u v
    Conclude(Paths(PathTy), [3, 4, 5, 6, 0, 0, 0, 0, 0, 0], [0, 1, 2, 0, 0, 0, 0]),
};

/// The rows of what it gives: type.
pub static PATH_TYPE_GIVES: &[u16] = &[7];
