//! Written by tools/write_recipes.py.

use recipes::Row::{Conclude, Field, Instance, Premise, Push, Shift, Then, Var};
use recipes::{Row, table};
use theory::ContextRule::SubVar;
use theory::PiRule::App;
use theory::RuleName::{Contexts, Pi};

/// A function under a substitution, applied, and the substitution that takes its codomain there.
/// Its parts are H d G A B f a.
pub static APPLIED: &[Row] = table! {
    // 0: d : H to G
    Premise(0),
    // 1: G >> A
    Premise(1),
    // 2: G.A >> B
    Premise(2),
    // 3: H >> f : pi A[d] B[over]
    Premise(3),
    // 4: H >> a : A[d]
    Premise(4),
    Field(0, 0),
    Field(3, 1),
    Field(4, 1),
    Field(1, 1),
    Field(0, 1),
    Instance(8, 9),
    Field(2, 1),
    Shift(1),
    Then(9, 12),
    Var(0),
    Push(13, 14),
    Instance(11, 15),
    // 17: H >> app f a : B[push d a]
    Conclude(Pi(App), [5, 6, 7, 10, 16, 0, 0, 0, 0, 0], [3, 4, 0, 0, 0, 0, 0]),
    Field(0, 2),
    // 19: push d a : H to G.A
    Conclude(Contexts(SubVar), [5, 9, 18, 8, 7, 0, 0, 0, 0, 0], [0, 1, 4, 0, 0, 0, 0]),
};

/// The rows of what it gives: term, pushed.
pub static APPLIED_GIVES: &[u16] = &[17, 19];
