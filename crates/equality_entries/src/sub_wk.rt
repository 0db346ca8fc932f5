//! Written by tools/write_entries.py.

use recipes::Row::{Conclude, Part, Premise};
use recipes::{Row, table};
use theory::ContextRule::CtxVar;
use theory::RuleName::Contexts;

/// `From` of what sub.wk concludes. Its parts are H d G A.
pub static SUB_WK_FROM: &[Row] = table! {
    // 0: H >> A
    Premise(0),
    Part(0),
    Part(3),
    // 3: ctx H.A
    Conclude(Contexts(CtxVar), [1, 2, 0, 0, 0, 0, 0, 0, 0, 0], [0, 0, 0, 0, 0, 0, 0]),
};
