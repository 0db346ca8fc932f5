//! Written by tools/write_entries.py.

use recipes::Row::{Conclude, Part, Premise};
use recipes::{Row, table};
use theory::ContextRule::CtxName;
use theory::RuleName::Contexts;

/// `From` of what sub.wkname concludes. Its parts are H d G.
pub static SUB_WKNAME_FROM: &[Row] = table! {
    // 0: ctx H
    Premise(0),
    Part(0),
    // 2: ctx H.I
    Conclude(Contexts(CtxName), [1, 0, 0, 0, 0, 0, 0, 0, 0, 0], [0, 0, 0, 0, 0, 0, 0]),
};
