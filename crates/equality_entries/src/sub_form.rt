//! Written by tools/write_entries.py.

use recipes::Row::{Conclude, Part, Premise};
use recipes::{Row, table};
use theory::ContextRule::CtxName;
use theory::RuleName::Contexts;

/// `To` of what sub.form concludes. Its parts are H d G r.
pub static SUB_FORM_TO: &[Row] = table! {
    // 0: ctx G
    Premise(0),
    Part(2),
    // 2: ctx G.I
    Conclude(Contexts(CtxName), [1, 0, 0, 0, 0, 0, 0, 0, 0, 0], [0, 0, 0, 0, 0, 0, 0]),
};
