//! Written by tools/write_recipes.py.

use recipes::Row::{Conclude, Derive, Field, Make, Part, Premise, Shift, Var};
use recipes::{Row, table};
use theory::ContextRule::{SubFace, SubForm, SubId, SubWkFace, SubWkName};
use theory::EqualityRule::{TmConv, TmEqAbsurd, TmEqConv};
use theory::InstanceRule::{TmEqSub, TmSub, TyInt, TySub};
use theory::Op;
use theory::RuleName::{Contexts, Equality, Instances, Systems};
use theory::SystemRule::EmptyTm;

/// An element carried backwards along a line of types: the functions g and v of the equivalence in
/// the paper by Cohen et al., section 7.1.
/// Its parts are G A y r.
pub static BACK: &[Row] = table! {
    Premise(0),
    Premise(1),
    Premise(2),
    Part(0),
    Conclude(Contexts(SubId), [3, 0, 0, 0, 0, 0, 0, 0, 0, 0], [0, 0, 0, 0, 0, 0, 0]),
    Shift(0),
    Conclude(Contexts(SubWkName), [3, 5, 3, 0, 0, 0, 0, 0, 0, 0], [4, 0, 0, 0, 0, 0, 0]),
    Field(1, 0),
    Shift(1),
    Var(0),
    Make(Op::Neg, [9, 0, 0, 0]),
    Conclude(Contexts(SubForm), [7, 8, 3, 10, 0, 0, 0, 0, 0, 0], [6, 0, 0, 0, 0, 0, 0]),
    Field(11, 1),
    Part(1),
    Conclude(Instances(TySub), [7, 12, 7, 13, 0, 0, 0, 0, 0, 0], [11, 1, 0, 0, 0, 0, 0]),
    Make(Op::F0, [0, 0, 0, 0]),
    Conclude(Contexts(SubWkFace), [3, 5, 3, 15, 0, 0, 0, 0, 0, 0], [4, 0, 0, 0, 0, 0, 0]),
    Field(16, 0),
    Conclude(Contexts(SubWkName), [17, 5, 3, 0, 0, 0, 0, 0, 0, 0], [16, 0, 0, 0, 0, 0, 0]),
    Field(18, 0),
    Conclude(Contexts(SubForm), [19, 8, 3, 10, 0, 0, 0, 0, 0, 0], [18, 0, 0, 0, 0, 0, 0]),
    Conclude(Instances(TySub), [19, 12, 7, 13, 0, 0, 0, 0, 0, 0], [20, 1, 0, 0, 0, 0, 0]),
    Field(14, 1),
    Conclude(Systems(EmptyTm), [19, 22, 0, 0, 0, 0, 0, 0, 0, 0], [21, 0, 0, 0, 0, 0, 0]),
    Make(Op::I1, [0, 0, 0, 0]),
    Conclude(Contexts(SubForm), [3, 5, 3, 24, 0, 0, 0, 0, 0, 0], [4, 0, 0, 0, 0, 0, 0]),
    Make(Op::I0, [0, 0, 0, 0]),
    Make(Op::Neg, [26, 0, 0, 0]),
    Conclude(Contexts(SubForm), [3, 5, 3, 27, 0, 0, 0, 0, 0, 0], [4, 0, 0, 0, 0, 0, 0]),
    Field(25, 1),
    Field(28, 1),
    Conclude(Instances(TyInt), [3, 29, 30, 7, 13, 0, 0, 0, 0, 0], [25, 28, 1, 0, 0, 0, 0]),
    Part(2),
    Field(2, 2),
    Field(31, 2),
    Conclude(Equality(TmConv), [3, 32, 33, 34, 0, 0, 0, 0, 0, 0], [2, 31, 0, 0, 0, 0, 0]),
    Conclude(Instances(TmSub), [17, 5, 3, 32, 34, 0, 0, 0, 0, 0], [16, 35, 0, 0, 0, 0, 0]),
    Conclude(Contexts(SubForm), [17, 5, 3, 27, 0, 0, 0, 0, 0, 0], [16, 0, 0, 0, 0, 0, 0]),
    Conclude(Instances(TySub), [17, 30, 7, 13, 0, 0, 0, 0, 0, 0], [37, 1, 0, 0, 0, 0, 0]),
    Conclude(Systems(EmptyTm), [17, 34, 0, 0, 0, 0, 0, 0, 0, 0], [38, 0, 0, 0, 0, 0, 0]),
    Field(23, 1),
    Conclude(Equality(TmEqAbsurd), [17, 32, 40, 34, 0, 0, 0, 0, 0, 0], [36, 39, 0, 0, 0, 0, 0]),
    Part(3),
    Make(Op::Neg, [42, 0, 0, 0]),
    // 44: fill
    Derive(0, [3, 22, 15, 40, 32, 43, 0, 0, 0, 0],
        [0, 14, 23, 35, 41, 0, 0, 0, 0, 0, 0, 0, 0, 0, 0, 0]),
    Make(Op::Neg, [43, 0, 0, 0]),
    Conclude(Contexts(SubForm), [3, 5, 3, 48, 0, 0, 0, 0, 0, 0], [4, 0, 0, 0, 0, 0, 0]),
    Conclude(Contexts(SubForm), [3, 5, 3, 42, 0, 0, 0, 0, 0, 0], [4, 0, 0, 0, 0, 0, 0]),
    Field(49, 1),
    Field(50, 1),
    Conclude(Instances(TyInt), [3, 51, 52, 7, 13, 0, 0, 0, 0, 0], [49, 50, 1, 0, 0, 0, 0]),
    Field(44, 1),
    Field(44, 2),
    Field(53, 2),
    // 57: carried_back : A(r)
    Conclude(Equality(TmConv), [3, 54, 55, 56, 0, 0, 0, 0, 0, 0], [44, 53, 0, 0, 0, 0, 0]),
    Make(Op::Eq1, [42, 0, 0, 0]),
    Conclude(Contexts(SubWkFace), [3, 5, 3, 58, 0, 0, 0, 0, 0, 0], [4, 0, 0, 0, 0, 0, 0]),
    Field(59, 0),
    Make(Op::Eq0, [43, 0, 0, 0]),
    Conclude(Contexts(SubFace), [60, 5, 3, 61, 0, 0, 0, 0, 0, 0], [59, 0, 0, 0, 0, 0, 0]),
    Field(45, 0),
    Conclude(Instances(TmEqSub), [60, 5, 63, 54, 32, 55, 0, 0, 0, 0], [62, 45, 0, 0, 0, 0, 0]),
    Conclude(Contexts(SubForm), [60, 5, 3, 48, 0, 0, 0, 0, 0, 0], [59, 0, 0, 0, 0, 0, 0]),
    Conclude(Contexts(SubForm), [60, 5, 3, 42, 0, 0, 0, 0, 0, 0], [59, 0, 0, 0, 0, 0, 0]),
    Conclude(Instances(TyInt), [60, 51, 52, 7, 13, 0, 0, 0, 0, 0], [65, 66, 1, 0, 0, 0, 0]),
    // 68: carried_back = y : A(r)
    Conclude(Equality(TmEqConv), [60, 54, 32, 55, 56, 0, 0, 0, 0, 0], [64, 67, 0, 0, 0, 0, 0]),
};

/// The rows of what it gives: typing, one.
pub static BACK_GIVES: &[u16] = &[57, 68];
