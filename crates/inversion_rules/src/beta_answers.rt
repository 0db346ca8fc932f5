//! Written by tools/write_recipes.py.

use recipes::Row::{Conclude, Field, Instance, Make, Part, Premise, Push, Shift};
use recipes::{Row, table};
use theory::EqualityRule::TmEqConv;
use theory::Op;
use theory::PiRule::PiBeta;
use theory::RuleName::{Equality, Pi};

/// A function that is applied at another domain is its body at the argument.
/// Its parts are G C b E A B a.
pub static BETA_ANSWERS: &[Row] = table! {
    // 0: G.C >> b : E
    Premise(0),
    // 1: G >> a : C
    Premise(1),
    // 2: G >> E{a} = B{a}
    Premise(2),
    Field(1, 0),
    Field(1, 2),
    Field(0, 1),
    Field(1, 1),
    Field(0, 2),
    // 8: G >> app (lam C b) a = b{a} : E{a}
    Conclude(Pi(PiBeta), [3, 4, 5, 6, 7, 0, 0, 0, 0, 0], [0, 1, 0, 0, 0, 0, 0]),
    Make(Op::Lam, [4, 5, 0, 0]),
    Make(Op::App, [9, 6, 0, 0]),
    Shift(0),
    Push(11, 6),
    Instance(5, 12),
    Instance(7, 12),
    Part(5),
    Instance(15, 12),
    // 17: G >> app (lam C b) a = b{a} : B{a}
    Conclude(Equality(TmEqConv), [3, 10, 13, 14, 16, 0, 0, 0, 0, 0], [8, 2, 0, 0, 0, 0, 0]),
};

/// The rows of what it gives: equal.
pub static BETA_ANSWERS_GIVES: &[u16] = &[17];
