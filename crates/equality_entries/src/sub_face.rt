//! Written by tools/write_entries.py.

use recipes::Row::{Conclude, Part, Premise};
use recipes::{Row, table};
use theory::ContextRule::CtxFace;
use theory::RuleName::Contexts;

/// `To` of what sub.face concludes. Its parts are H d G p.
pub static SUB_FACE_TO: &[Row] = table! {
    // 0: ctx G
    Premise(0),
    Part(2),
    Part(3),
    // 3: ctx G.{p}
    Conclude(Contexts(CtxFace), [1, 2, 0, 0, 0, 0, 0, 0, 0, 0], [0, 0, 0, 0, 0, 0, 0]),
};
