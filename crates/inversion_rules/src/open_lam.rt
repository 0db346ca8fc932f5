//! Written by tools/write_recipes.py.

use recipes::Row::{Conclude, Field, Instance, Premise, Push, Shift, Then, Var, WithVar};
use recipes::{Row, table};
use theory::ContextRule::{SubVar, SubWk};
use theory::InstanceRule::{TmSub, TmVar, TySub};
use theory::RuleName::{Contexts, Instances};

/// The parts of a function, under a substitution.
/// Its parts are H d G A b B.
pub static OPEN_LAM: &[Row] = table! {
    // 0: d : H to G
    Premise(0),
    // 1: G >> A
    Premise(1),
    // 2: G.A >> b : B
    Premise(2),
    Field(0, 0),
    Field(0, 1),
    Field(0, 2),
    Field(1, 1),
    // 7: H >> A[d]
    Conclude(Instances(TySub), [3, 4, 5, 6, 0, 0, 0, 0, 0, 0], [0, 1, 0, 0, 0, 0, 0]),
    Instance(6, 4),
    // 9: d then up : H.A[d] to G
    Conclude(Contexts(SubWk), [3, 4, 5, 8, 0, 0, 0, 0, 0, 0], [0, 7, 0, 0, 0, 0, 0]),
    // 10: H.A[d] >> var 0 : A[d then up]
    Conclude(Instances(TmVar), [3, 8, 0, 0, 0, 0, 0, 0, 0, 0], [7, 0, 0, 0, 0, 0, 0]),
    WithVar(3, 8),
    Shift(1),
    Then(4, 12),
    Var(0),
    // 15: push (d then up) (var 0) : H.A[d] to G.A
    Conclude(Contexts(SubVar), [11, 13, 5, 6, 14, 0, 0, 0, 0, 0], [9, 1, 10, 0, 0, 0, 0]),
    Push(13, 14),
    WithVar(5, 6),
    Field(2, 1),
    Field(2, 2),
    // 20: H.A[d] >> b[push (d then up) (var 0)] : B[push (d then up) (var 0)]
    Conclude(Instances(TmSub), [11, 16, 17, 18, 19, 0, 0, 0, 0, 0], [15, 2, 0, 0, 0, 0, 0]),
};

/// The rows of what it gives: domain, body.
pub static OPEN_LAM_GIVES: &[u16] = &[7, 20];
