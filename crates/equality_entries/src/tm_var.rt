//! Written by tools/write_entries.py.

use recipes::Row::{Conclude, Part, Premise, Shift, WithVar};
use recipes::{Row, table};
use theory::ContextRule::{CtxVar, SubId, SubWk};
use theory::InstanceRule::TySub;
use theory::RuleName::{Contexts, Instances};

/// `Context` of what tm.var concludes. Its parts are G A.
pub static TM_VAR_CONTEXT: &[Row] = table! {
    // 0: G >> A
    Premise(0),
    Part(0),
    Part(1),
    // 3: ctx G.A
    Conclude(Contexts(CtxVar), [1, 2, 0, 0, 0, 0, 0, 0, 0, 0], [0, 0, 0, 0, 0, 0, 0]),
};

/// `Type` of what tm.var concludes. Its parts are G A.
pub static TM_VAR_TYPE: &[Row] = table! {
    // 0: G >> A
    Premise(0),
    // 1: ctx G
    Premise(1),
    Part(0),
    // 3: id : G to G
    Conclude(Contexts(SubId), [2, 0, 0, 0, 0, 0, 0, 0, 0, 0], [1, 0, 0, 0, 0, 0, 0]),
    Shift(0),
    Part(1),
    // 6: up : G.A to G
    Conclude(Contexts(SubWk), [2, 4, 2, 5, 0, 0, 0, 0, 0, 0], [3, 0, 0, 0, 0, 0, 0]),
    WithVar(2, 5),
    Shift(1),
    // 9: G.A >> A+
    Conclude(Instances(TySub), [7, 8, 2, 5, 0, 0, 0, 0, 0, 0], [6, 0, 0, 0, 0, 0, 0]),
};
