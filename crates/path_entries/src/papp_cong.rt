//! Written by tools/write_entries.py.

use recipes::Row::{Conclude, Part, Premise, Push, Shift, WithName};
use recipes::{Row, table};
use theory::ContextRule::{SubForm, SubId};
use theory::InstanceRule::TySub;
use theory::PathRule::PApp;
use theory::RuleName::{Contexts, Instances, Paths};

/// `Type` of what papp.cong concludes. Its parts are G c k r A u v.
pub static PAPP_CONG_TYPE: &[Row] = table! {
    // 0: ctx G
    Premise(0),
    // 1: G.I >> A
    Premise(1),
    Part(0),
    // 3: id : G to G
    Conclude(Contexts(SubId), [2, 0, 0, 0, 0, 0, 0, 0, 0, 0], [0, 0, 0, 0, 0, 0, 0]),
    Shift(0),
    Part(3),
    // 6: push id r : G to G.I
    Conclude(Contexts(SubForm), [2, 4, 2, 5, 0, 0, 0, 0, 0, 0], [3, 0, 0, 0, 0, 0, 0]),
    Push(4, 5),
    WithName(2),
    Part(4),
    // 10: G >> A{r}
    Conclude(Instances(TySub), [2, 7, 8, 9, 0, 0, 0, 0, 0, 0], [6, 1, 0, 0, 0, 0, 0]),
};

/// `Left` of what papp.cong concludes. Its parts are G c k r A u v.
pub static PAPP_CONG_LEFT: &[Row] = table! {
    // 0: G >> c : pathp A u v
    Premise(0),
    Part(0),
    Part(1),
    Part(3),
    Part(4),
    Part(5),
    Part(6),
    // 7: G >> papp c r : A{r}
    Conclude(Paths(PApp), [1, 2, 3, 4, 5, 6, 0, 0, 0, 0], [0, 0, 0, 0, 0, 0, 0]),
};

/// `Right` of what papp.cong concludes. Its parts are G c k r A u v.
pub static PAPP_CONG_RIGHT: &[Row] = table! {
    // 0: G >> k : pathp A u v
    Premise(0),
    Part(0),
    Part(2),
    Part(3),
    Part(4),
    Part(5),
    Part(6),
    // 7: G >> papp k r : A{r}
    Conclude(Paths(PApp), [1, 2, 3, 4, 5, 6, 0, 0, 0, 0], [0, 0, 0, 0, 0, 0, 0]),
};
