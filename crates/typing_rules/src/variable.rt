//! Written by tools/write_recipes.py.

use recipes::Row::{Conclude, Field, Instance, Premise, Shift, Var, WithVar};
use recipes::{Row, table};
use theory::InstanceRule::{TmSub, TmVar};
use theory::RuleName::Instances;

/// The innermost variable under a substitution.
/// Its parts are H d G A.
pub static VARIABLE: &[Row] = table! {
    // 0: d : H to G.A
    Premise(0),
    // 1: G >> A
    Premise(1),
    Field(1, 0),
    Field(1, 1),
    // 4: G.A >> var 0 : A+
    Conclude(Instances(TmVar), [2, 3, 0, 0, 0, 0, 0, 0, 0, 0], [1, 0, 0, 0, 0, 0, 0]),
    Field(0, 0),
    Field(0, 1),
    WithVar(2, 3),
    Var(0),
    Shift(1),
    Instance(3, 9),
    // 11: H >> (var 0)[d] : A+[d]
    Conclude(Instances(TmSub), [5, 6, 7, 8, 10, 0, 0, 0, 0, 0], [0, 4, 0, 0, 0, 0, 0]),
};

/// The rows of what it gives: term.
pub static VARIABLE_GIVES: &[u16] = &[11];
