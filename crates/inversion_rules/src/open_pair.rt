//! Written by tools/write_recipes.py.

use recipes::Row::{Conclude, Field, Instance, Premise, Push, Shift, Then, Var, WithVar};
use recipes::{Row, table};
use theory::ContextRule::{SubVar, SubWk};
use theory::InstanceRule::{TmSub, TmVar, TySub};
use theory::RuleName::{Contexts, Instances};

/// The parts of a pair, under a substitution.
/// Its parts are H d G a b A B.
pub static OPEN_PAIR: &[Row] = table! {
    // 0: d : H to G
    Premise(0),
    // 1: G >> A
    Premise(1),
    // 2: G.A >> B
    Premise(2),
    // 3: G >> a : A
    Premise(3),
    // 4: G >> b : B{a}
    Premise(4),
    Field(0, 0),
    Field(0, 1),
    Field(0, 2),
    Field(1, 1),
    // 9: H >> A[d]
    Conclude(Instances(TySub), [5, 6, 7, 8, 0, 0, 0, 0, 0, 0], [0, 1, 0, 0, 0, 0, 0]),
    Instance(8, 6),
    // 11: d then up : H.A[d] to G
    Conclude(Contexts(SubWk), [5, 6, 7, 10, 0, 0, 0, 0, 0, 0], [0, 9, 0, 0, 0, 0, 0]),
    // 12: H.A[d] >> var 0 : A[d then up]
    Conclude(Instances(TmVar), [5, 10, 0, 0, 0, 0, 0, 0, 0, 0], [9, 0, 0, 0, 0, 0, 0]),
    WithVar(5, 10),
    Shift(1),
    Then(6, 14),
    Var(0),
    // 17: push (d then up) (var 0) : H.A[d] to G.A
    Conclude(Contexts(SubVar), [13, 15, 7, 8, 16, 0, 0, 0, 0, 0], [11, 1, 12, 0, 0, 0, 0]),
    Push(15, 16),
    WithVar(7, 8),
    Field(2, 1),
    // 21: H.A[d] >> B[push (d then up) (var 0)]
    Conclude(Instances(TySub), [13, 18, 19, 20, 0, 0, 0, 0, 0, 0], [17, 2, 0, 0, 0, 0, 0]),
    Field(3, 1),
    // 23: H >> a[d] : A[d]
    Conclude(Instances(TmSub), [5, 6, 7, 22, 8, 0, 0, 0, 0, 0], [0, 3, 0, 0, 0, 0, 0]),
    Field(4, 1),
    Shift(0),
    Push(25, 22),
    Instance(20, 26),
    // 28: H >> b[d] : B[push d a[d]]
    Conclude(Instances(TmSub), [5, 6, 7, 24, 27, 0, 0, 0, 0, 0], [0, 4, 0, 0, 0, 0, 0]),
};

/// The rows of what it gives: domain, codomain, first, second.
pub static OPEN_PAIR_GIVES: &[u16] = &[9, 21, 23, 28];
