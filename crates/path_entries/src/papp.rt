//! Written by tools/write_entries.py.

use recipes::Row::{Conclude, Part, Premise, Push, Shift, WithName};
use recipes::{Row, table};
use theory::ContextRule::{SubForm, SubId};
use theory::InstanceRule::TySub;
use theory::RuleName::{Contexts, Instances};

/// `Type` of what papp concludes. Its parts are G c r A u v.
pub static PAPP_TYPE: &[Row] = table! {
    // 0: ctx G
    Premise(0),
    // 1: G.I >> A
    Premise(1),
    Part(0),
    // 3: id : G to G
    Conclude(Contexts(SubId), [2, 0, 0, 0, 0, 0, 0, 0, 0, 0], [0, 0, 0, 0, 0, 0, 0]),
    Shift(0),
    Part(2),
    // 6: push id r : G to G.I
    Conclude(Contexts(SubForm), [2, 4, 2, 5, 0, 0, 0, 0, 0, 0], [3, 0, 0, 0, 0, 0, 0]),
    Push(4, 5),
    WithName(2),
    Part(3),
    // 10: G >> A{r}
    Conclude(Instances(TySub), [2, 7, 8, 9, 0, 0, 0, 0, 0, 0], [6, 1, 0, 0, 0, 0, 0]),
};
