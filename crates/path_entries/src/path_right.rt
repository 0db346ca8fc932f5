//! Written by tools/write_entries.py.

use recipes::Row::{Conclude, Make, Part, Premise, Push, Shift, WithName};
use recipes::{Row, table};
use theory::ContextRule::{SubForm, SubId};
use theory::InstanceRule::TySub;
use theory::Op;
use theory::PathRule::PApp;
use theory::RuleName::{Contexts, Instances, Paths};

/// `Type` of what path.right concludes. Its parts are G c A u v.
pub static PATH_RIGHT_TYPE: &[Row] = table! {
    // 0: ctx G
    Premise(0),
    // 1: G.I >> A
    Premise(1),
    Part(0),
    // 3: id : G to G
    Conclude(Contexts(SubId), [2, 0, 0, 0, 0, 0, 0, 0, 0, 0], [0, 0, 0, 0, 0, 0, 0]),
    Shift(0),
    Make(Op::I1, [0, 0, 0, 0]),
    // 6: push id i1 : G to G.I
    Conclude(Contexts(SubForm), [2, 4, 2, 5, 0, 0, 0, 0, 0, 0], [3, 0, 0, 0, 0, 0, 0]),
    Push(4, 5),
    WithName(2),
    Part(2),
    // 10: G >> A{1}
    Conclude(Instances(TySub), [2, 7, 8, 9, 0, 0, 0, 0, 0, 0], [6, 1, 0, 0, 0, 0, 0]),
};

/// `Left` of what path.right concludes. Its parts are G c A u v.
pub static PATH_RIGHT_LEFT: &[Row] = table! {
    // 0: G >> c : pathp A u v
    Premise(0),
    Part(0),
    Part(1),
    Make(Op::I1, [0, 0, 0, 0]),
    Part(2),
    Part(3),
    Part(4),
    // 7: G >> papp c i1 : A{1}
    Conclude(Paths(PApp), [1, 2, 3, 4, 5, 6, 0, 0, 0, 0], [0, 0, 0, 0, 0, 0, 0]),
};
