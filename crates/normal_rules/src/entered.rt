//! Written by tools/write_recipes.py.

use recipes::Row::{Conclude, Field, Instance, Premise, Shift, Then, Var, WithVar};
use recipes::{Row, table};
use theory::ContextRule::{CtxVar, SubVar, SubWk};
use theory::InstanceRule::{TmVar, TySub};
use theory::RuleName::{Contexts, Instances};

/// A context with a variable of a type under a substitution, and the substitution there.
/// Its parts are H d G A.
pub static ENTERED: &[Row] = table! {
    // 0: d : H to G
    Premise(0),
    // 1: G >> A
    Premise(1),
    Field(0, 0),
    Field(0, 1),
    Field(0, 2),
    Field(1, 1),
    // 6: H >> A[d]
    Conclude(Instances(TySub), [2, 3, 4, 5, 0, 0, 0, 0, 0, 0], [0, 1, 0, 0, 0, 0, 0]),
    Instance(5, 3),
    // 8: d then up : H.A[d] to G
    Conclude(Contexts(SubWk), [2, 3, 4, 7, 0, 0, 0, 0, 0, 0], [0, 6, 0, 0, 0, 0, 0]),
    // 9: H.A[d] >> var 0 : A[d then up]
    Conclude(Instances(TmVar), [2, 7, 0, 0, 0, 0, 0, 0, 0, 0], [6, 0, 0, 0, 0, 0, 0]),
    WithVar(2, 7),
    Shift(1),
    Then(3, 11),
    Var(0),
    // 14: over : H.A[d] to G.A
    Conclude(Contexts(SubVar), [10, 12, 4, 5, 13, 0, 0, 0, 0, 0], [8, 1, 9, 0, 0, 0, 0]),
    // 15: ctx H.A[d]
    Conclude(Contexts(CtxVar), [2, 7, 0, 0, 0, 0, 0, 0, 0, 0], [6, 0, 0, 0, 0, 0, 0]),
};

/// The rows of what it gives: domain, within, lifted.
pub static ENTERED_GIVES: &[u16] = &[6, 15, 14];
