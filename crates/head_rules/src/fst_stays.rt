//! Written by tools/write_recipes.py.

use recipes::Row::{Conclude, Field, Instance, Part, Premise, Push, Shift, Then, Var};
use recipes::{Row, table};
use theory::RuleName::Sigma;
use theory::SigmaRule::{Fst, FstCong};

/// The first half of what equals another pair.
/// Its parts are d A B G H c u.
pub static FST_STAYS: &[Row] = table! {
    // 0: H >> c = u : sig A[d] B[over]
    Premise(0),
    // 1: H >> u : sig A[d] B[over]
    Premise(1),
    Field(0, 0),
    Field(0, 1),
    Field(0, 2),
    Part(1),
    Part(0),
    Instance(5, 6),
    Part(2),
    Shift(1),
    Then(6, 9),
    Var(0),
    Push(10, 11),
    Instance(8, 12),
    // 14: H >> fst c = fst u : A[d]
    Conclude(Sigma(FstCong), [2, 3, 4, 7, 13, 0, 0, 0, 0, 0], [0, 0, 0, 0, 0, 0, 0]),
    // 15: H >> fst u : A[d]
    Conclude(Sigma(Fst), [2, 4, 7, 13, 0, 0, 0, 0, 0, 0], [1, 0, 0, 0, 0, 0, 0]),
};

/// The rows of what it gives: equal, term.
pub static FST_STAYS_GIVES: &[u16] = &[14, 15];
