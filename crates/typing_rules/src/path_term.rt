//! Written by tools/write_recipes.py.

use recipes::Row::{Conclude, Field, Instance, Make, Premise, Push, Shift, WithName};
use recipes::{Row, table};
use theory::ContextRule::{SubForm, SubId};
use theory::EqualityRule::TmEqRefl;
use theory::InstanceRule::TmSub;
use theory::Op;
use theory::PathRule::PLam;
use theory::RuleName::{Contexts, Equality, Instances, Paths};

/// A path, between the ends of what it is over its name.
/// Its parts are H A b.
pub static PATH_TERM: &[Row] = table! {
    // 0: ctx H
    Premise(0),
    // 1: H.I >> b : A
    Premise(1),
    Field(0, 0),
    // 3: id : H to H
    Conclude(Contexts(SubId), [2, 0, 0, 0, 0, 0, 0, 0, 0, 0], [0, 0, 0, 0, 0, 0, 0]),
    Shift(0),
    Make(Op::I0, [0, 0, 0, 0]),
    // 6: push id i0 : H to H.I
    Conclude(Contexts(SubForm), [2, 4, 2, 5, 0, 0, 0, 0, 0, 0], [3, 0, 0, 0, 0, 0, 0]),
    Make(Op::I1, [0, 0, 0, 0]),
    // 8: push id i1 : H to H.I
    Conclude(Contexts(SubForm), [2, 4, 2, 7, 0, 0, 0, 0, 0, 0], [3, 0, 0, 0, 0, 0, 0]),
    Push(4, 5),
    WithName(2),
    Field(1, 1),
    Field(1, 2),
    // 13: H >> b{i0} : A{i0}
    Conclude(Instances(TmSub), [2, 9, 10, 11, 12, 0, 0, 0, 0, 0], [6, 1, 0, 0, 0, 0, 0]),
    Push(4, 7),
    // 15: H >> b{i1} : A{i1}
    Conclude(Instances(TmSub), [2, 14, 10, 11, 12, 0, 0, 0, 0, 0], [8, 1, 0, 0, 0, 0, 0]),
    Instance(11, 9),
    Instance(12, 9),
    // 18: H >> b{i0} = b{i0} : A{i0}
    Conclude(Equality(TmEqRefl), [2, 16, 17, 0, 0, 0, 0, 0, 0, 0], [13, 0, 0, 0, 0, 0, 0]),
    Instance(11, 14),
    Instance(12, 14),
    // 21: H >> b{i1} = b{i1} : A{i1}
    Conclude(Equality(TmEqRefl), [2, 19, 20, 0, 0, 0, 0, 0, 0, 0], [15, 0, 0, 0, 0, 0, 0]),
    // 22: H >> plam b : pathp A b{i0} b{i1}
    Conclude(Paths(PLam), [2, 12, 11, 16, 19, 0, 0, 0, 0, 0], [1, 18, 21, 0, 0, 0, 0]),
};

/// The rows of what it gives: term.
pub static PATH_TERM_GIVES: &[u16] = &[22];
