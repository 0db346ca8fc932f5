//! Written by tools/write_recipes.py.

use recipes::Row::{Conclude, Field, Make, Premise, Shift};
use recipes::{Row, table};
use theory::ContextRule::{SubForm, SubId};
use theory::Op;
use theory::RuleName::Contexts;

/// The substitutions that take a line to its ends.
/// Its parts are H.
pub static LINE_ENDS: &[Row] = table! {
    // 0: ctx H
    Premise(0),
    Field(0, 0),
    // 2: id : H to H
    Conclude(Contexts(SubId), [1, 0, 0, 0, 0, 0, 0, 0, 0, 0], [0, 0, 0, 0, 0, 0, 0]),
    Shift(0),
    Make(Op::I0, [0, 0, 0, 0]),
    // 5: push id i0 : H to H.I
    Conclude(Contexts(SubForm), [1, 3, 1, 4, 0, 0, 0, 0, 0, 0], [2, 0, 0, 0, 0, 0, 0]),
    Make(Op::I1, [0, 0, 0, 0]),
    // 7: push id i1 : H to H.I
    Conclude(Contexts(SubForm), [1, 3, 1, 6, 0, 0, 0, 0, 0, 0], [2, 0, 0, 0, 0, 0, 0]),
};

/// The rows of what it gives: start, end.
pub static LINE_ENDS_GIVES: &[u16] = &[5, 7];
