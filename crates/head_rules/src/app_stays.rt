//! Written by tools/write_recipes.py.

use recipes::Row::{Conclude, Field, Instance, Part, Premise, Push, Shift, Then, Var};
use recipes::{Row, table};
use theory::EqualityRule::TmEqRefl;
use theory::PiRule::{App, AppCong};
use theory::RuleName::{Equality, Pi};

/// An application whose function equals another.
/// Its parts are d B H G A a f u.
pub static APP_STAYS: &[Row] = table! {
    // 0: H >> a : A
    Premise(0),
    // 1: H >> f = u : pi A B[over]
    Premise(1),
    // 2: H >> u : pi A B[over]
    Premise(2),
    Field(0, 0),
    Field(0, 1),
    Field(0, 2),
    // 6: H >> a = a : A
    Conclude(Equality(TmEqRefl), [3, 4, 5, 0, 0, 0, 0, 0, 0, 0], [0, 0, 0, 0, 0, 0, 0]),
    Field(1, 1),
    Field(1, 2),
    Part(1),
    Part(0),
    Shift(1),
    Then(10, 11),
    Var(0),
    Push(12, 13),
    Instance(9, 14),
    // 16: H >> app f a = app u a : B[push d a]
    Conclude(Pi(AppCong), [3, 7, 8, 4, 4, 5, 15, 0, 0, 0], [1, 6, 0, 0, 0, 0, 0]),
    // 17: H >> app u a : B[push d a]
    Conclude(Pi(App), [3, 8, 4, 5, 15, 0, 0, 0, 0, 0], [2, 0, 0, 0, 0, 0, 0]),
};

/// The rows of what it gives: equal, term.
pub static APP_STAYS_GIVES: &[u16] = &[16, 17];
