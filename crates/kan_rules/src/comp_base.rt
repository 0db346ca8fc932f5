//! Written by tools/write_recipes.py.

use recipes::Row::{Conclude, Field, Part, Premise};
use recipes::{Row, table};
use theory::CompRule::Comp;
use theory::RuleName::Composition;

/// A composition of what equals another base.
/// Its parts are p H A b a c.
pub static COMP_BASE: &[Row] = table! {
    // 0: H.I >> A
    Premise(0),
    // 1: H.{p}.I >> b : A
    Premise(1),
    // 2: H >> a : A{i0}
    Premise(2),
    // 3: H.{p} >> a = b{i0} : A{i0}
    Premise(3),
    Field(2, 0),
    Field(0, 1),
    Part(0),
    Field(1, 1),
    Field(2, 1),
    // 9: H >> comp A p b a : A{i1}
    Conclude(Composition(Comp), [4, 5, 6, 7, 8, 0, 0, 0, 0, 0], [0, 1, 2, 3, 0, 0, 0]),
};

/// The rows of what it gives: term.
pub static COMP_BASE_GIVES: &[u16] = &[9];
