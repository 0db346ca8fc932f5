//! Written by tools/write_recipes.py.

use recipes::Row::{Conclude, Field, Instance, Part, Premise, Push, Shift, Then, Var};
use recipes::{Row, table};
use theory::PathRule::PAppCong;
use theory::RuleName::Paths;

/// Paths that are equal, at one formula.
/// Its parts are r d A u v H c k.
pub static PAPP_EQUAL: &[Row] = table! {
    // 0: H >> c = k : pathp A[over] u[d] v[d]
    Premise(0),
    Field(0, 0),
    Field(0, 1),
    Field(0, 2),
    Part(0),
    Part(2),
    Part(1),
    Shift(1),
    Then(6, 7),
    Var(0),
    Push(8, 9),
    Instance(5, 10),
    Part(3),
    Instance(12, 6),
    Part(4),
    Instance(14, 6),
    // 16: H >> papp c r = papp k r : A[push d r]
    Conclude(Paths(PAppCong), [1, 2, 3, 4, 11, 13, 15, 0, 0, 0], [0, 0, 0, 0, 0, 0, 0]),
};

/// The rows of what it gives: equal.
pub static PAPP_EQUAL_GIVES: &[u16] = &[16];
