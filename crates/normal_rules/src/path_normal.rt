//! Written by tools/write_recipes.py.

use recipes::Row::{Conclude, Field, Instance, Make, Premise, Push, Shift, WithName};
use recipes::{Row, table};
use theory::ContextRule::{SubForm, SubId};
use theory::EqualityRule::TmConv;
use theory::InstanceRule::TyEqSub;
use theory::Op;
use theory::PathRule::{PathTy, PathTyCong};
use theory::RuleName::{Contexts, Equality, Instances, Paths};

/// A type of paths whose parts are in normal form.
/// Its parts are H A B u x v y.
pub static PATH_NORMAL: &[Row] = table! {
    // 0: ctx H
    Premise(0),
    // 1: H.I >> A = B
    Premise(1),
    // 2: H.I >> B
    Premise(2),
    // 3: H >> u = x : A{i0}
    Premise(3),
    // 4: H >> x : A{i0}
    Premise(4),
    // 5: H >> v = y : A{i1}
    Premise(5),
    // 6: H >> y : A{i1}
    Premise(6),
    Field(0, 0),
    Field(1, 1),
    Field(1, 2),
    Field(3, 1),
    Field(3, 2),
    Field(5, 1),
    Field(5, 2),
    // 14: H >> pathp A u v = pathp B x y
    Conclude(Paths(PathTyCong), [7, 8, 9, 10, 11, 12, 13, 0, 0, 0], [1, 3, 5, 0, 0, 0, 0]),
    // 15: id : H to H
    Conclude(Contexts(SubId), [7, 0, 0, 0, 0, 0, 0, 0, 0, 0], [0, 0, 0, 0, 0, 0, 0]),
    Shift(0),
    Make(Op::I0, [0, 0, 0, 0]),
    // 18: push id i0 : H to H.I
    Conclude(Contexts(SubForm), [7, 16, 7, 17, 0, 0, 0, 0, 0, 0], [15, 0, 0, 0, 0, 0, 0]),
    Make(Op::I1, [0, 0, 0, 0]),
    // 20: push id i1 : H to H.I
    Conclude(Contexts(SubForm), [7, 16, 7, 19, 0, 0, 0, 0, 0, 0], [15, 0, 0, 0, 0, 0, 0]),
    Push(16, 17),
    WithName(7),
    // 23: H >> A{i0} = B{i0}
    Conclude(Instances(TyEqSub), [7, 21, 22, 8, 9, 0, 0, 0, 0, 0], [18, 1, 0, 0, 0, 0, 0]),
    Push(16, 19),
    // 25: H >> A{i1} = B{i1}
    Conclude(Instances(TyEqSub), [7, 24, 22, 8, 9, 0, 0, 0, 0, 0], [20, 1, 0, 0, 0, 0, 0]),
    Instance(8, 21),
    Instance(9, 21),
    // 28: H >> x : B{i0}
    Conclude(Equality(TmConv), [7, 11, 26, 27, 0, 0, 0, 0, 0, 0], [4, 23, 0, 0, 0, 0, 0]),
    Instance(8, 24),
    Instance(9, 24),
    // 31: H >> y : B{i1}
    Conclude(Equality(TmConv), [7, 13, 29, 30, 0, 0, 0, 0, 0, 0], [6, 25, 0, 0, 0, 0, 0]),
    // 32: H >> pathp B x y
    Conclude(Paths(PathTy), [7, 9, 11, 13, 0, 0, 0, 0, 0, 0], [2, 28, 31, 0, 0, 0, 0]),
};

/// The rows of what it gives: equal, term.
pub static PATH_NORMAL_GIVES: &[u16] = &[14, 32];
