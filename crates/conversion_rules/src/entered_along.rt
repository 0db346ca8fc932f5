//! Written by tools/write_recipes.py.

use recipes::Row::{Conclude, Field, Instance, Premise, Shift, Then, Var, WithVar};
use recipes::{Row, table};
use theory::ContextRule::{SubId, SubVar, SubWk};
use theory::EqualityRule::TmConv;
use theory::InstanceRule::{TmVar, TyEqSub};
use theory::RuleName::{Contexts, Equality, Instances};

/// The substitution under a variable of a type that equals the one it is for.
/// Its parts are H d G A C.
pub static ENTERED_ALONG: &[Row] = table! {
    // 0: ctx H
    Premise(0),
    // 1: d : H to G
    Premise(1),
    // 2: G >> A
    Premise(2),
    // 3: H >> C
    Premise(3),
    // 4: H >> C = A[d]
    Premise(4),
    Field(0, 0),
    // 6: id : H to H
    Conclude(Contexts(SubId), [5, 0, 0, 0, 0, 0, 0, 0, 0, 0], [0, 0, 0, 0, 0, 0, 0]),
    Shift(0),
    Field(3, 1),
    // 9: up : H.C to H
    Conclude(Contexts(SubWk), [5, 7, 5, 8, 0, 0, 0, 0, 0, 0], [6, 3, 0, 0, 0, 0, 0]),
    WithVar(5, 8),
    Shift(1),
    Field(2, 1),
    Field(1, 1),
    Instance(12, 13),
    // 15: H.C >> C+ = A[d then up]
    Conclude(Instances(TyEqSub), [10, 11, 5, 8, 14, 0, 0, 0, 0, 0], [9, 4, 0, 0, 0, 0, 0]),
    // 16: H.C >> var 0 : C+
    Conclude(Instances(TmVar), [5, 8, 0, 0, 0, 0, 0, 0, 0, 0], [3, 0, 0, 0, 0, 0, 0]),
    Var(0),
    Instance(8, 11),
    Then(13, 11),
    Instance(12, 19),
    // 21: H.C >> var 0 : A[d then up]
    Conclude(Equality(TmConv), [10, 17, 18, 20, 0, 0, 0, 0, 0, 0], [16, 15, 0, 0, 0, 0, 0]),
    Field(1, 2),
    // 23: d then up : H.C to G
    Conclude(Contexts(SubWk), [5, 13, 22, 8, 0, 0, 0, 0, 0, 0], [1, 3, 0, 0, 0, 0, 0]),
    // 24: over : H.C to G.A
    Conclude(Contexts(SubVar), [10, 19, 22, 12, 17, 0, 0, 0, 0, 0], [23, 2, 21, 0, 0, 0, 0]),
};

/// The rows of what it gives: lifted.
pub static ENTERED_ALONG_GIVES: &[u16] = &[24];
