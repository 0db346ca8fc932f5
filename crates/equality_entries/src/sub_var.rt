//! Written by tools/write_entries.py.

use recipes::Row::{Conclude, Part, Premise};
use recipes::{Row, table};
use theory::ContextRule::CtxVar;
use theory::RuleName::Contexts;

/// `To` of what sub.var concludes. Its parts are H d G A a.
pub static SUB_VAR_TO: &[Row] = table! {
    // 0: G >> A
    Premise(0),
    Part(2),
    Part(3),
    // 3: ctx G.A
    Conclude(Contexts(CtxVar), [1, 2, 0, 0, 0, 0, 0, 0, 0, 0], [0, 0, 0, 0, 0, 0, 0]),
};
