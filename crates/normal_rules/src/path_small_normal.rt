//! Written by tools/write_recipes.py.

use recipes::Row::{Conclude, Field, Instance, Make, Premise, Push, Shift, WithName};
use recipes::{Row, table};
use theory::ContextRule::{SubForm, SubId};
use theory::EqualityRule::TmConv;
use theory::InstanceRule::TyEqSub;
use theory::Op;
use theory::PathRule::{PathU, PathUCong};
use theory::RuleName::{Contexts, Equality, Instances, Paths, Universe};
use theory::UniverseRule::TyEqU;

/// A type of paths in the universe whose parts are in normal form.
/// Its parts are H A B u x v y.
pub static PATH_SMALL_NORMAL: &[Row] = table! {
    // 0: ctx H
    Premise(0),
    // 1: H.I >> A = B : U
    Premise(1),
    // 2: H.I >> B : U
    Premise(2),
    // 3: H >> u = x : A{i0}
    Premise(3),
    // 4: H >> x : A{i0}
    Premise(4),
    // 5: H >> v = y : A{i1}
    Premise(5),
    // 6: H >> y : A{i1}
    Premise(6),
    Field(0, 0),
    Field(1, 1),
    Field(1, 2),
    Field(3, 1),
    Field(3, 2),
    Field(5, 1),
    Field(5, 2),
    // 14: H >> pathp A u v = pathp B x y : U
    Conclude(Paths(PathUCong), [7, 8, 9, 10, 11, 12, 13, 0, 0, 0], [1, 3, 5, 0, 0, 0, 0]),
    // 15: id : H to H
    Conclude(Contexts(SubId), [7, 0, 0, 0, 0, 0, 0, 0, 0, 0], [0, 0, 0, 0, 0, 0, 0]),
    Shift(0),
    Make(Op::I0, [0, 0, 0, 0]),
    // 18: push id i0 : H to H.I
    Conclude(Contexts(SubForm), [7, 16, 7, 17, 0, 0, 0, 0, 0, 0], [15, 0, 0, 0, 0, 0, 0]),
    Make(Op::I1, [0, 0, 0, 0]),
    // 20: push id i1 : H to H.I
    Conclude(Contexts(SubForm), [7, 16, 7, 19, 0, 0, 0, 0, 0, 0], [15, 0, 0, 0, 0, 0, 0]),
    WithName(7),
    // 22: H.I >> A = B
    Conclude(Universe(TyEqU), [21, 8, 9, 0, 0, 0, 0, 0, 0, 0], [1, 0, 0, 0, 0, 0, 0]),
    Push(16, 17),
    // 24: H >> A{i0} = B{i0}
    Conclude(Instances(TyEqSub), [7, 23, 21, 8, 9, 0, 0, 0, 0, 0], [18, 22, 0, 0, 0, 0, 0]),
    Push(16, 19),
    // 26: H >> A{i1} = B{i1}
    Conclude(Instances(TyEqSub), [7, 25, 21, 8, 9, 0, 0, 0, 0, 0], [20, 22, 0, 0, 0, 0, 0]),
    Instance(8, 23),
    Instance(9, 23),
    // 29: H >> x : B{i0}
    Conclude(Equality(TmConv), [7, 11, 27, 28, 0, 0, 0, 0, 0, 0], [4, 24, 0, 0, 0, 0, 0]),
    Instance(8, 25),
    Instance(9, 25),
    // 32: H >> y : B{i1}
    Conclude(Equality(TmConv), [7, 13, 30, 31, 0, 0, 0, 0, 0, 0], [6, 26, 0, 0, 0, 0, 0]),
    // 33: H >> pathp B x y : U
    Conclude(Paths(PathU), [7, 9, 11, 13, 0, 0, 0, 0, 0, 0], [2, 29, 32, 0, 0, 0, 0]),
};

/// The rows of what it gives: equal, term.
pub static PATH_SMALL_NORMAL_GIVES: &[u16] = &[14, 33];
