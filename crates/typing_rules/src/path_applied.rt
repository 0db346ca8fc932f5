//! Written by tools/write_recipes.py.

use recipes::Row::{Conclude, Field, Instance, Part, Premise, Push, Shift, Then, Var};
use recipes::{Row, table};
use theory::ContextRule::SubForm;
use theory::PathRule::PApp;
use theory::RuleName::{Contexts, Paths};

/// A path under a substitution, at a formula, and the substitution that takes its line to the type.
/// Its parts are r H d G A u v c.
pub static PATH_APPLIED: &[Row] = table! {
    // 0: d : H to G
    Premise(0),
    // 1: G.I >> A
    Premise(1),
    // 2: G >> u : A{i0}
    Premise(2),
    // 3: G >> v : A{i1}
    Premise(3),
    // 4: H >> c : pathp A[over] u[d] v[d]
    Premise(4),
    Field(0, 0),
    Field(4, 1),
    Part(0),
    Field(1, 1),
    Field(0, 1),
    Shift(1),
    Then(9, 10),
    Var(0),
    Push(11, 12),
    Instance(8, 13),
    Field(2, 1),
    Instance(15, 9),
    Field(3, 1),
    Instance(17, 9),
    // 19: H >> papp c r : A[push d r]
    Conclude(Paths(PApp), [5, 6, 7, 14, 16, 18, 0, 0, 0, 0], [4, 0, 0, 0, 0, 0, 0]),
    Field(0, 2),
    // 21: push d r : H to G.I
    Conclude(Contexts(SubForm), [5, 9, 20, 7, 0, 0, 0, 0, 0, 0], [0, 0, 0, 0, 0, 0, 0]),
};

/// The rows of what it gives: term, pushed.
pub static PATH_APPLIED_GIVES: &[u16] = &[19, 21];
