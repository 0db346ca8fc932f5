//! Written by tools/write_recipes.py.

use recipes::Row::{
    Conclude, Field, Instance, Make, Premise, Push, Shift, Var, WithFace, WithName,
};
use recipes::{Row, table};
use theory::CompRule::Comp;
use theory::ContextRule::{CtxFace, SubForm, SubId, SubWkFace, SubWkName};
use theory::EqualityRule::TmEqAbsurd;
use theory::InstanceRule::{TmSub, TySub};
use theory::Op;
use theory::RuleName::{Composition, Contexts, Equality, Instances, Systems};
use theory::SystemRule::EmptyTm;

/// A composition without sides, and the substitution that takes its line to the type.
/// Its parts are H A a.
pub static TRANSPORTED: &[Row] = table! {
    // 0: ctx H
    Premise(0),
    // 1: H.I >> A
    Premise(1),
    // 2: H >> a : A{i0}
    Premise(2),
    Field(0, 0),
    // 4: id : H to H
    Conclude(Contexts(SubId), [3, 0, 0, 0, 0, 0, 0, 0, 0, 0], [0, 0, 0, 0, 0, 0, 0]),
    Shift(0),
    Make(Op::F0, [0, 0, 0, 0]),
    // 7: id : none to H
    Conclude(Contexts(SubWkFace), [3, 5, 3, 6, 0, 0, 0, 0, 0, 0], [4, 0, 0, 0, 0, 0, 0]),
    WithFace(3, 6),
    // 9: up : none.I to H
    Conclude(Contexts(SubWkName), [8, 5, 3, 0, 0, 0, 0, 0, 0, 0], [7, 0, 0, 0, 0, 0, 0]),
    WithName(8),
    Shift(1),
    Var(0),
    // 13: aside : none.I to H.I
    Conclude(Contexts(SubForm), [10, 11, 3, 12, 0, 0, 0, 0, 0, 0], [9, 0, 0, 0, 0, 0, 0]),
    Push(11, 12),
    WithName(3),
    Field(1, 1),
    // 17: none.I >> A
    Conclude(Instances(TySub), [10, 14, 15, 16, 0, 0, 0, 0, 0, 0], [13, 1, 0, 0, 0, 0, 0]),
    // 18: none.I >> empty : A
    Conclude(Systems(EmptyTm), [10, 16, 0, 0, 0, 0, 0, 0, 0, 0], [17, 0, 0, 0, 0, 0, 0]),
    Field(2, 1),
    Make(Op::I0, [0, 0, 0, 0]),
    Push(5, 20),
    Instance(16, 21),
    // 23: none >> a : A{i0}
    Conclude(Instances(TmSub), [8, 5, 3, 19, 22, 0, 0, 0, 0, 0], [7, 2, 0, 0, 0, 0, 0]),
    // 24: ctx none
    Conclude(Contexts(CtxFace), [3, 6, 0, 0, 0, 0, 0, 0, 0, 0], [0, 0, 0, 0, 0, 0, 0]),
    // 25: id : none to none
    Conclude(Contexts(SubId), [8, 0, 0, 0, 0, 0, 0, 0, 0, 0], [24, 0, 0, 0, 0, 0, 0]),
    // 26: push id i0 : none to none.I
    Conclude(Contexts(SubForm), [8, 5, 8, 20, 0, 0, 0, 0, 0, 0], [25, 0, 0, 0, 0, 0, 0]),
    Make(Op::Empty, [0, 0, 0, 0]),
    // 28: none >> empty : A{i0}
    Conclude(Instances(TmSub), [8, 21, 10, 27, 16, 0, 0, 0, 0, 0], [26, 18, 0, 0, 0, 0, 0]),
    // 29: none >> a = empty : A{i0}
    Conclude(Equality(TmEqAbsurd), [8, 19, 27, 22, 0, 0, 0, 0, 0, 0], [23, 28, 0, 0, 0, 0, 0]),
    // 30: H >> comp A f0 empty a : A{i1}
    Conclude(Composition(Comp), [3, 16, 6, 27, 19, 0, 0, 0, 0, 0], [1, 18, 2, 29, 0, 0, 0]),
    Make(Op::I1, [0, 0, 0, 0]),
    // 32: push id i1 : H to H.I
    Conclude(Contexts(SubForm), [3, 5, 3, 31, 0, 0, 0, 0, 0, 0], [4, 0, 0, 0, 0, 0, 0]),
};

/// The rows of what it gives: term, pushed.
pub static TRANSPORTED_GIVES: &[u16] = &[30, 32];
