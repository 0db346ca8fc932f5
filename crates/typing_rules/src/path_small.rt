//! Written by tools/write_recipes.py.

use recipes::Row::{Conclude, Field, Premise};
use recipes::{Row, table};
use theory::PathRule::PathU;
use theory::RuleName::Paths;

/// A type of paths in the universe.
/// Its parts are H A u v.
pub static PATH_SMALL: &[Row] = table! {
    // 0: H.I >> A : U
    Premise(0),
    // 1: H >> u : A{i0}
    Premise(1),
    // 2: H >> v : A{i1}
    Premise(2),
    Field(1, 0),
    Field(0, 1),
    Field(1, 1),
    Field(2, 1),
    // 7: H >> pathp A u v : U
    Conclude(Paths(PathU), [3, 4, 5, 6, 0, 0, 0, 0, 0, 0], [0, 1, 2, 0, 0, 0, 0]),
};

/// The rows of what it gives: term.
pub static PATH_SMALL_GIVES: &[u16] = &[7];
