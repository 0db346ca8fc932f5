//! Written by tools/write_recipes.py.

use recipes::Row::{Conclude, Field, Instance, Premise, Push, Shift};
use recipes::{Row, table};
use theory::ContextRule::SubId;
use theory::EqualityRule::{TmConv, TyEqSym};
use theory::InstanceRule::TyCong;
use theory::RuleName::{Contexts, Equality, Instances};

/// What has the type of a second half, at the type that it has over an equal first half.
/// Its parts are H A B a b v.
pub static AT_FIRST: &[Row] = table! {
    // 0: ctx H
    Premise(0),
    // 1: H.A >> B
    Premise(1),
    // 2: H >> a = b : A
    Premise(2),
    // 3: H >> v : B{b}
    Premise(3),
    Field(0, 0),
    // 5: id : H to H
    Conclude(Contexts(SubId), [4, 0, 0, 0, 0, 0, 0, 0, 0, 0], [0, 0, 0, 0, 0, 0, 0]),
    Shift(0),
    Field(2, 3),
    Field(2, 1),
    Field(2, 2),
    Field(1, 1),
    // 11: H >> B{a} = B{b}
    Conclude(Instances(TyCong), [4, 6, 4, 7, 8, 9, 10, 0, 0, 0], [5, 1, 2, 0, 0, 0, 0]),
    Push(6, 8),
    Instance(10, 12),
    Push(6, 9),
    Instance(10, 14),
    // 16: H >> B{b} = B{a}
    Conclude(Equality(TyEqSym), [4, 13, 15, 0, 0, 0, 0, 0, 0, 0], [11, 0, 0, 0, 0, 0, 0]),
    Field(3, 1),
    // 18: H >> v : B{a}
    Conclude(Equality(TmConv), [4, 17, 15, 13, 0, 0, 0, 0, 0, 0], [3, 16, 0, 0, 0, 0, 0]),
};

/// The rows of what it gives: term.
pub static AT_FIRST_GIVES: &[u16] = &[18];
