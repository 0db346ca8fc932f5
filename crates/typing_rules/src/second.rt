//! Written by tools/write_recipes.py.

use recipes::Row::{Conclude, Field, Instance, Make, Premise, Push, Shift, Then, Var};
use recipes::{Row, table};
use theory::ContextRule::SubVar;
use theory::Op;
use theory::RuleName::{Contexts, Sigma};
use theory::SigmaRule::{Fst, Snd};

/// The second component of a pair under a substitution, and the one that takes its type there.
/// Its parts are H d G A B c.
pub static SECOND: &[Row] = table! {
    // 0: d : H to G
    Premise(0),
    // 1: G >> A
    Premise(1),
    // 2: G.A >> B
    Premise(2),
    // 3: H >> c : sig A[d] B[over]
    Premise(3),
    Field(0, 0),
    Field(3, 1),
    Field(1, 1),
    Field(0, 1),
    Instance(6, 7),
    Field(2, 1),
    Shift(1),
    Then(7, 10),
    Var(0),
    Push(11, 12),
    Instance(9, 13),
    // 15: H >> fst c : A[d]
    Conclude(Sigma(Fst), [4, 5, 8, 14, 0, 0, 0, 0, 0, 0], [3, 0, 0, 0, 0, 0, 0]),
    // 16: H >> snd c : B[push d (fst c)]
    Conclude(Sigma(Snd), [4, 5, 8, 14, 0, 0, 0, 0, 0, 0], [3, 0, 0, 0, 0, 0, 0]),
    Field(0, 2),
    Make(Op::Fst, [5, 0, 0, 0]),
    // 19: push d (fst c) : H to G.A
    Conclude(Contexts(SubVar), [4, 7, 17, 6, 18, 0, 0, 0, 0, 0], [0, 1, 15, 0, 0, 0, 0]),
};

/// The rows of what it gives: term, pushed.
pub static SECOND_GIVES: &[u16] = &[16, 19];
