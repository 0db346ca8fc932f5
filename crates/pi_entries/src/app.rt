//! Written by tools/write_entries.py.

use recipes::Row::{Conclude, Part, Premise, Push, Shift, WithVar};
use recipes::{Row, table};
use theory::ContextRule::{SubId, SubVar};
use theory::InstanceRule::TySub;
use theory::RuleName::{Contexts, Instances};

/// `Type` of what app concludes. Its parts are G f a A B.
pub static APP_TYPE: &[Row] = table! {
    // 0: G >> a : A
    Premise(0),
    // 1: ctx G
    Premise(1),
    // 2: G >> A
    Premise(2),
    // 3: G.A >> B
    Premise(3),
    Part(0),
    // 5: id : G to G
    Conclude(Contexts(SubId), [4, 0, 0, 0, 0, 0, 0, 0, 0, 0], [1, 0, 0, 0, 0, 0, 0]),
    Shift(0),
    Part(3),
    Part(2),
    // 9: push id a : G to G.A
    Conclude(Contexts(SubVar), [4, 6, 4, 7, 8, 0, 0, 0, 0, 0], [5, 2, 0, 0, 0, 0, 0]),
    Push(6, 8),
    WithVar(4, 7),
    Part(4),
    // 13: G >> B{a}
    Conclude(Instances(TySub), [4, 10, 11, 12, 0, 0, 0, 0, 0, 0], [9, 3, 0, 0, 0, 0, 0]),
};
