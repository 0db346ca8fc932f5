//! Written by tools/write_recipes.py.

use recipes::Row::{Conclude, Make, Part, Premise, Push, Shift, Var, WithFace, WithName};
use recipes::{Row, table};
use theory::ContextRule::{SubForm, SubId, SubWkFace, SubWkName};
use theory::InstanceRule::TmInt;
use theory::Op;
use theory::RuleName::{Contexts, Instances};

/// Where a name is 0, a term is the term at that end.
/// Its parts are G a A.
pub static RESTRICT_TM0: &[Row] = table! {
    // 0: ctx G
    Premise(0),
    // 1: G.I >> a : A
    Premise(2),
    Part(0),
    // 3: id : G to G
    Conclude(Contexts(SubId), [2, 0, 0, 0, 0, 0, 0, 0, 0, 0], [0, 0, 0, 0, 0, 0, 0]),
    Shift(0),
    // 5: up : G.I to G
    Conclude(Contexts(SubWkName), [2, 4, 2, 0, 0, 0, 0, 0, 0, 0], [3, 0, 0, 0, 0, 0, 0]),
    WithName(2),
    Shift(1),
    Var(0),
    Make(Op::Eq0, [8, 0, 0, 0]),
    // 10: up : G.I.{eq0 (var 0)} to G
    Conclude(Contexts(SubWkFace), [6, 7, 2, 9, 0, 0, 0, 0, 0, 0], [5, 0, 0, 0, 0, 0, 0]),
    WithFace(6, 9),
    // 12: push up (var 0) : G.I.{eq0 (var 0)} to G.I
    Conclude(Contexts(SubForm), [11, 7, 2, 8, 0, 0, 0, 0, 0, 0], [10, 0, 0, 0, 0, 0, 0]),
    Make(Op::I0, [0, 0, 0, 0]),
    // 14: push up i0 : G.I.{eq0 (var 0)} to G.I
    Conclude(Contexts(SubForm), [11, 7, 2, 13, 0, 0, 0, 0, 0, 0], [10, 0, 0, 0, 0, 0, 0]),
    Push(7, 8),
    Push(7, 13),
    Part(1),
    Part(2),
    // 19: G.I.{eq0 (var 0)} >> a = a[push up i0] : A
    Conclude(Instances(TmInt), [11, 15, 16, 6, 17, 18, 0, 0, 0, 0], [12, 14, 1, 0, 0, 0, 0]),
};

/// The rows of what it gives: equal.
pub static RESTRICT_TM0_GIVES: &[u16] = &[19];
