//! Written by tools/write_recipes.py.

use recipes::Row::{Conclude, Field, Instance, Part, Premise, Push, Shift, Then, Var};
use recipes::{Row, table};
use theory::RuleName::Sigma;
use theory::SigmaRule::SndCong;

/// Second halves of equal pairs.
/// Its parts are d A B H c k.
pub static SND_EQUAL: &[Row] = table! {
    // 0: H >> c = k : sig A[d] B[over]
    Premise(0),
    Field(0, 0),
    Field(0, 1),
    Field(0, 2),
    Part(1),
    Part(0),
    Instance(4, 5),
    Part(2),
    Shift(1),
    Then(5, 8),
    Var(0),
    Push(9, 10),
    Instance(7, 11),
    // 13: H >> snd c = snd k : B[push d (fst c)]
    Conclude(Sigma(SndCong), [1, 2, 3, 6, 12, 0, 0, 0, 0, 0], [0, 0, 0, 0, 0, 0, 0]),
};

/// The rows of what it gives: equal.
pub static SND_EQUAL_GIVES: &[u16] = &[13];
