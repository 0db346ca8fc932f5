//! Written by tools/write_recipes.py.

use recipes::Row::{Conclude, Make, Part, Premise, Push, Shift, Var, WithFace, WithName};
use recipes::{Row, table};
use theory::ContextRule::{SubForm, SubId, SubWkFace, SubWkName};
use theory::InstanceRule::TyInt;
use theory::Op;
use theory::RuleName::{Contexts, Instances};

/// Where a name is 0, a type is the type at that end.
/// Its parts are G A.
pub static RESTRICT_TY0: &[Row] = table! {
    // 0: ctx G
    Premise(0),
    // 1: G.I >> A
    Premise(1),
    Part(0),
    // 3: id : G to G
    Conclude(Contexts(SubId), [2, 0, 0, 0, 0, 0, 0, 0, 0, 0], [0, 0, 0, 0, 0, 0, 0]),
    Shift(0),
    // 5: up : G.I to G
    Conclude(Contexts(SubWkName), [2, 4, 2, 0, 0, 0, 0, 0, 0, 0], [3, 0, 0, 0, 0, 0, 0]),
    WithName(2),
    Shift(1),
    Var(0),
    Make(Op::Eq0, [8, 0, 0, 0]),
    // 10: up : G.I.{eq0 (var 0)} to G
    Conclude(Contexts(SubWkFace), [6, 7, 2, 9, 0, 0, 0, 0, 0, 0], [5, 0, 0, 0, 0, 0, 0]),
    WithFace(6, 9),
    // 12: push up (var 0) : G.I.{eq0 (var 0)} to G.I
    Conclude(Contexts(SubForm), [11, 7, 2, 8, 0, 0, 0, 0, 0, 0], [10, 0, 0, 0, 0, 0, 0]),
    Make(Op::I0, [0, 0, 0, 0]),
    // 14: push up i0 : G.I.{eq0 (var 0)} to G.I
    Conclude(Contexts(SubForm), [11, 7, 2, 13, 0, 0, 0, 0, 0, 0], [10, 0, 0, 0, 0, 0, 0]),
    Push(7, 8),
    Push(7, 13),
    Part(1),
    // 18: G.I.{eq0 (var 0)} >> A = A[push up i0]
    Conclude(Instances(TyInt), [11, 15, 16, 6, 17, 0, 0, 0, 0, 0], [12, 14, 1, 0, 0, 0, 0]),
};

/// The rows of what it gives: equal.
pub static RESTRICT_TY0_GIVES: &[u16] = &[18];
