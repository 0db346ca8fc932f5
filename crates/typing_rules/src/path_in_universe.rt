//! Written by tools/write_recipes.py.

use recipes::Row::{Conclude, Field, Instance, Make, Part, Premise, Shift, Var, WithName};
use recipes::{Row, table};
use theory::ContextRule::{SubId, SubWkName};
use theory::InstanceRule::TmSub;
use theory::Op;
use theory::PathRule::PApp;
use theory::RuleName::{Contexts, Instances, Paths};

/// A path of types, at a new name.
/// Its parts are u v H c.
pub static PATH_IN_UNIVERSE: &[Row] = table! {
    // 0: ctx H
    Premise(0),
    // 1: H >> c : pathp U u v
    Premise(1),
    Field(0, 0),
    // 3: id : H to H
    Conclude(Contexts(SubId), [2, 0, 0, 0, 0, 0, 0, 0, 0, 0], [0, 0, 0, 0, 0, 0, 0]),
    Shift(0),
    // 5: up : H.I to H
    Conclude(Contexts(SubWkName), [2, 4, 2, 0, 0, 0, 0, 0, 0, 0], [3, 0, 0, 0, 0, 0, 0]),
    WithName(2),
    Shift(1),
    Field(1, 1),
    Make(Op::U, [0, 0, 0, 0]),
    Part(0),
    Part(1),
    Make(Op::PathP, [9, 10, 11, 0]),
    // 13: H.I >> c+ : pathp U u+ v+
    Conclude(Instances(TmSub), [6, 7, 2, 8, 12, 0, 0, 0, 0, 0], [5, 1, 0, 0, 0, 0, 0]),
    Instance(8, 7),
    Var(0),
    Instance(10, 7),
    Instance(11, 7),
    // 18: H.I >> papp c+ (var 0) : U
    Conclude(Paths(PApp), [6, 14, 15, 9, 16, 17, 0, 0, 0, 0], [13, 0, 0, 0, 0, 0, 0]),
};

/// The rows of what it gives: term.
pub static PATH_IN_UNIVERSE_GIVES: &[u16] = &[18];
