//! Written by tools/write_entries.py.

use recipes::Row::{Conclude, Part, Premise};
use recipes::{Row, table};
use theory::ContextRule::CtxFace;
use theory::RuleName::Contexts;

/// `From` of what sub.wkface concludes. Its parts are H d G p.
pub static SUB_WKFACE_FROM: &[Row] = table! {
    // 0: ctx H
    Premise(0),
    Part(0),
    Part(3),
    // 3: ctx H.{p}
    Conclude(Contexts(CtxFace), [1, 2, 0, 0, 0, 0, 0, 0, 0, 0], [0, 0, 0, 0, 0, 0, 0]),
};
