//! Written by tools/write_recipes.py.

use recipes::Row::{Conclude, Field, Instance, Part, Premise, Push, Shift, Then, Var};
use recipes::{Row, table};
use theory::PathRule::{PApp, PAppCong};
use theory::RuleName::Paths;

/// A path that equals another, at a formula.
/// Its parts are r d A u v H G c n.
pub static PAPP_STAYS: &[Row] = table! {
    // 0: H >> c = n : pathp A[over] u[d] v[d]
    Premise(0),
    // 1: H >> n : pathp A[over] u[d] v[d]
    Premise(1),
    Field(0, 0),
    Field(0, 1),
    Field(0, 2),
    Part(0),
    Part(2),
    Part(1),
    Shift(1),
    Then(7, 8),
    Var(0),
    Push(9, 10),
    Instance(6, 11),
    Part(3),
    Instance(13, 7),
    Part(4),
    Instance(15, 7),
    // 17: H >> papp c r = papp n r : A[push d r]
    Conclude(Paths(PAppCong), [2, 3, 4, 5, 12, 14, 16, 0, 0, 0], [0, 0, 0, 0, 0, 0, 0]),
    // 18: H >> papp n r : A[push d r]
    Conclude(Paths(PApp), [2, 4, 5, 12, 14, 16, 0, 0, 0, 0], [1, 0, 0, 0, 0, 0, 0]),
};

/// The rows of what it gives: equal, term.
pub static PAPP_STAYS_GIVES: &[u16] = &[17, 18];
