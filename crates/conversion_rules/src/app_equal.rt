//! Written by tools/write_recipes.py.

use recipes::Row::{Conclude, Field, Instance, Part, Premise, Push, Shift, Then, Var};
use recipes::{Row, table};
use theory::PiRule::AppCong;
use theory::RuleName::Pi;

/// Applications of equal parts.
/// Its parts are d A B H f g a b.
pub static APP_EQUAL: &[Row] = table! {
    // 0: H >> f = g : pi A[d] B[over]
    Premise(0),
    // 1: H >> a = b : A[d]
    Premise(1),
    Field(0, 0),
    Field(0, 1),
    Field(0, 2),
    Field(1, 1),
    Field(1, 2),
    Part(1),
    Part(0),
    Instance(7, 8),
    Part(2),
    Shift(1),
    Then(8, 11),
    Var(0),
    Push(12, 13),
    Instance(10, 14),
    // 16: H >> app f a = app g b : B[push d a]
    Conclude(Pi(AppCong), [2, 3, 4, 5, 6, 9, 15, 0, 0, 0], [0, 1, 0, 0, 0, 0, 0]),
};

/// The rows of what it gives: equal.
pub static APP_EQUAL_GIVES: &[u16] = &[16];
