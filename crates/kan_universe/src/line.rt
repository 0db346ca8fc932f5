//! Written by tools/write_recipes.py.

use recipes::Row::{Conclude, Derive, Field, Make, Part, Premise, Shift, Var};
use recipes::{Row, table};
use theory::ContextRule::{SubForm, SubId, SubWkFace, SubWkName};
use theory::EqualityRule::TmEqAbsurd;
use theory::InstanceRule::{TmSub, TySub};
use theory::Op;
use theory::RuleName::{Contexts, Equality, Instances, Systems};
use theory::SystemRule::EmptyTm;

/// An element carried forwards along a line of types: the functions f and u of the equivalence in
/// the paper by Cohen et al., section 7.1.
/// Its parts are G A x r.
pub static LINE: &[Row] = table! {
    Premise(0),
    Premise(1),
    Premise(2),
    Part(0),
    Conclude(Contexts(SubId), [3, 0, 0, 0, 0, 0, 0, 0, 0, 0], [0, 0, 0, 0, 0, 0, 0]),
    Shift(0),
    Make(Op::F0, [0, 0, 0, 0]),
    Conclude(Contexts(SubWkFace), [3, 5, 3, 6, 0, 0, 0, 0, 0, 0], [4, 0, 0, 0, 0, 0, 0]),
    Field(7, 0),
    Conclude(Contexts(SubWkName), [8, 5, 3, 0, 0, 0, 0, 0, 0, 0], [7, 0, 0, 0, 0, 0, 0]),
    Field(9, 0),
    Shift(1),
    Var(0),
    Conclude(Contexts(SubForm), [10, 11, 3, 12, 0, 0, 0, 0, 0, 0], [9, 0, 0, 0, 0, 0, 0]),
    Field(13, 1),
    Field(1, 0),
    Part(1),
    Conclude(Instances(TySub), [10, 14, 15, 16, 0, 0, 0, 0, 0, 0], [13, 1, 0, 0, 0, 0, 0]),
    Conclude(Systems(EmptyTm), [10, 16, 0, 0, 0, 0, 0, 0, 0, 0], [17, 0, 0, 0, 0, 0, 0]),
    Part(2),
    Field(2, 2),
    Conclude(Instances(TmSub), [8, 5, 3, 19, 20, 0, 0, 0, 0, 0], [7, 2, 0, 0, 0, 0, 0]),
    Make(Op::I0, [0, 0, 0, 0]),
    Conclude(Contexts(SubForm), [8, 5, 3, 22, 0, 0, 0, 0, 0, 0], [7, 0, 0, 0, 0, 0, 0]),
    Field(23, 1),
    Conclude(Instances(TySub), [8, 24, 15, 16, 0, 0, 0, 0, 0, 0], [23, 1, 0, 0, 0, 0, 0]),
    Conclude(Systems(EmptyTm), [8, 20, 0, 0, 0, 0, 0, 0, 0, 0], [25, 0, 0, 0, 0, 0, 0]),
    Field(18, 1),
    Conclude(Equality(TmEqAbsurd), [8, 19, 27, 20, 0, 0, 0, 0, 0, 0], [21, 26, 0, 0, 0, 0, 0]),
    Part(3),
    // 30: fill
    Derive(0, [3, 16, 6, 27, 19, 29, 0, 0, 0, 0],
        [0, 1, 18, 2, 28, 0, 0, 0, 0, 0, 0, 0, 0, 0, 0, 0]),
};

/// The rows of what it gives: typing, zero, one.
pub static LINE_GIVES: &[u16] = &[30, 31, 32];
