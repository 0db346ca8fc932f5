//! Written by tools/write_entries.py.

use recipes::Row::{Conclude, Make, Part, Premise, Push, Shift, WithName};
use recipes::{Row, table};
use theory::ContextRule::{SubForm, SubId};
use theory::InstanceRule::TySub;
use theory::Op;
use theory::RuleName::{Contexts, Instances};

/// `Type` of what comp concludes. Its parts are G A p b a.
pub static COMP_TYPE: &[Row] = table! {
    // 0: G.I >> A
    Premise(0),
    // 1: ctx G
    Premise(1),
    Part(0),
    // 3: id : G to G
    Conclude(Contexts(SubId), [2, 0, 0, 0, 0, 0, 0, 0, 0, 0], [1, 0, 0, 0, 0, 0, 0]),
    Shift(0),
    Make(Op::I1, [0, 0, 0, 0]),
    // 6: push id i1 : G to G.I
    Conclude(Contexts(SubForm), [2, 4, 2, 5, 0, 0, 0, 0, 0, 0], [3, 0, 0, 0, 0, 0, 0]),
    Push(4, 5),
    WithName(2),
    Part(1),
    // 10: G >> A{1}
    Conclude(Instances(TySub), [2, 7, 8, 9, 0, 0, 0, 0, 0, 0], [6, 0, 0, 0, 0, 0, 0]),
};
