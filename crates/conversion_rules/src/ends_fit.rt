//! Written by tools/write_recipes.py.

use recipes::Row::{Conclude, Field, Make, Premise, Push, Shift, WithName};
use recipes::{Row, table};
use theory::ContextRule::{SubForm, SubId};
use theory::InstanceRule::TyEqSub;
use theory::Op;
use theory::RuleName::{Contexts, Instances};

/// The types of the ends of equal lines.
/// Its parts are H A B.
pub static ENDS_FIT: &[Row] = table! {
    // 0: ctx H
    Premise(0),
    // 1: H.I >> A = B
    Premise(1),
    Field(0, 0),
    // 3: id : H to H
    Conclude(Contexts(SubId), [2, 0, 0, 0, 0, 0, 0, 0, 0, 0], [0, 0, 0, 0, 0, 0, 0]),
    Shift(0),
    Make(Op::I0, [0, 0, 0, 0]),
    // 6: push id i0 : H to H.I
    Conclude(Contexts(SubForm), [2, 4, 2, 5, 0, 0, 0, 0, 0, 0], [3, 0, 0, 0, 0, 0, 0]),
    Make(Op::I1, [0, 0, 0, 0]),
    // 8: push id i1 : H to H.I
    Conclude(Contexts(SubForm), [2, 4, 2, 7, 0, 0, 0, 0, 0, 0], [3, 0, 0, 0, 0, 0, 0]),
    Push(4, 5),
    WithName(2),
    Field(1, 1),
    Field(1, 2),
    // 13: H >> A{i0} = B{i0}
    Conclude(Instances(TyEqSub), [2, 9, 10, 11, 12, 0, 0, 0, 0, 0], [6, 1, 0, 0, 0, 0, 0]),
    Push(4, 7),
    // 15: H >> A{i1} = B{i1}
    Conclude(Instances(TyEqSub), [2, 14, 10, 11, 12, 0, 0, 0, 0, 0], [8, 1, 0, 0, 0, 0, 0]),
};

/// The rows of what it gives: start, end.
pub static ENDS_FIT_GIVES: &[u16] = &[13, 15];
