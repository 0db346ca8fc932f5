//! Written by tools/write_recipes.py.

use recipes::Row::{Conclude, Field, Part, Premise};
use recipes::{Row, table};
use theory::CompRule::CompCong;
use theory::RuleName::Composition;

/// Compositions of equal parts, at faces that are the same.
/// Its parts are p q H A B b c a k.
pub static COMP_EQUAL: &[Row] = table! {
    // 0: H.I >> A = B
    Premise(0),
    // 1: H.{p}.I >> b : A
    Premise(1),
    // 2: H.{p}.I >> b = c : A
    Premise(2),
    // 3: H >> a : A{i0}
    Premise(3),
    // 4: H >> a = k : A{i0}
    Premise(4),
    // 5: H.{p} >> a = b{i0} : A{i0}
    Premise(5),
    Field(3, 0),
    Field(0, 1),
    Field(0, 2),
    Part(0),
    Part(1),
    Field(1, 1),
    Field(2, 2),
    Field(3, 1),
    Field(4, 2),
    // 15: H >> comp A p b a = comp B q c k : A{i1}
    Conclude(Composition(CompCong), [6, 7, 8, 9, 10, 11, 12, 13, 14, 0], [0, 1, 3, 5, 2, 4, 0]),
};

/// The rows of what it gives: equal.
pub static COMP_EQUAL_GIVES: &[u16] = &[15];
