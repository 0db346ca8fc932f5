//! Written by tools/write_recipes.py.

use recipes::Row::{Conclude, Field, Instance, Premise, Push, Shift, Then, Var, WithVar};
use recipes::{Row, table};
use theory::ContextRule::{SubVar, SubWk};
use theory::InstanceRule::{TmVar, TySub};
use theory::RuleName::{Contexts, Instances, Sigma};
use theory::SigmaRule::Pair;

/// A pair under a substitution.
/// Its parts are H d G A B a b.
pub static PAIR_TERM: &[Row] = table! {
    // 0: d : H to G
    Premise(0),
    // 1: G >> A
    Premise(1),
    // 2: G.A >> B
    Premise(2),
    // 3: H >> a : A[d]
    Premise(3),
    // 4: H >> b : B[push d a]
    Premise(4),
    Field(0, 0),
    Field(0, 1),
    Field(0, 2),
    Field(1, 1),
    // 9: H >> A[d]
    Conclude(Instances(TySub), [5, 6, 7, 8, 0, 0, 0, 0, 0, 0], [0, 1, 0, 0, 0, 0, 0]),
    Instance(8, 6),
    // 11: d then up : H.A[d] to G
    Conclude(Contexts(SubWk), [5, 6, 7, 10, 0, 0, 0, 0, 0, 0], [0, 9, 0, 0, 0, 0, 0]),
    // 12: H.A[d] >> var 0 : A[d then up]
    Conclude(Instances(TmVar), [5, 10, 0, 0, 0, 0, 0, 0, 0, 0], [9, 0, 0, 0, 0, 0, 0]),
    WithVar(5, 10),
    Shift(1),
    Then(6, 14),
    Var(0),
    // 17: over : H.A[d] to G.A
    Conclude(Contexts(SubVar), [13, 15, 7, 8, 16, 0, 0, 0, 0, 0], [11, 1, 12, 0, 0, 0, 0]),
    Push(15, 16),
    WithVar(7, 8),
    Field(2, 1),
    // 21: H.A[d] >> B[over]
    Conclude(Instances(TySub), [13, 18, 19, 20, 0, 0, 0, 0, 0, 0], [17, 2, 0, 0, 0, 0, 0]),
    Field(3, 1),
    Field(4, 1),
    Instance(20, 18),
    // 25: H >> pair a b : (sig A B)[d]
    Conclude(Sigma(Pair), [5, 22, 23, 10, 24, 0, 0, 0, 0, 0], [21, 3, 4, 0, 0, 0, 0]),
};

/// The rows of what it gives: term.
pub static PAIR_TERM_GIVES: &[u16] = &[25];
