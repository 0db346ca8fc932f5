//! Written by tools/write_recipes.py.

use recipes::Row::{Conclude, Instance, Part, Premise, Shift, Then, Var, WithVar};
use recipes::{Row, table};
use theory::ContextRule::{SubVar, SubWk};
use theory::InstanceRule::{TmVar, TySub};
use theory::RuleName::{Contexts, Instances};

/// A substitution under a variable.
/// Its parts are H d G A.
pub static LIFT_VAR: &[Row] = table! {
    // 0: d : H to G
    Premise(0),
    // 1: G >> A
    Premise(1),
    Part(0),
    Part(1),
    Part(2),
    Part(3),
    // 6: H >> A[d]
    Conclude(Instances(TySub), [2, 3, 4, 5, 0, 0, 0, 0, 0, 0], [0, 1, 0, 0, 0, 0, 0]),
    Instance(5, 3),
    // 8: d then up : H.A[d] to G
    Conclude(Contexts(SubWk), [2, 3, 4, 7, 0, 0, 0, 0, 0, 0], [0, 6, 0, 0, 0, 0, 0]),
    // 9: H.A[d] >> var 0 : A[d then up]
    Conclude(Instances(TmVar), [2, 7, 0, 0, 0, 0, 0, 0, 0, 0], [6, 0, 0, 0, 0, 0, 0]),
    WithVar(2, 7),
    Shift(1),
    Then(3, 11),
    Var(0),
    // 14: push (d then up) (var 0) : H.A[d] to G.A
    Conclude(Contexts(SubVar), [10, 12, 4, 5, 13, 0, 0, 0, 0, 0], [8, 1, 9, 0, 0, 0, 0]),
};

/// The rows of what it gives: lifted.
pub static LIFT_VAR_GIVES: &[u16] = &[14];
