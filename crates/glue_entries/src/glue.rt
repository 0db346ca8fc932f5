//! Written by tools/write_entries.py.

use recipes::Row::{Conclude, Part, Premise};
use recipes::{Row, table};
use theory::GlueRule::GlueTy;
use theory::RuleName::Gluing;

/// `Type` of what glue concludes. Its parts are G A p T w c a.
pub static GLUE_TYPE: &[Row] = table! {
    // 0: G >> A
    Premise(0),
    // 1: G.{p} >> T
    Premise(1),
    // 2: G.{p} >> w : equiv T A
    Premise(2),
    Part(0),
    Part(1),
    Part(2),
    Part(3),
    Part(4),
    // 8: G >> Glue A p T w
    Conclude(Gluing(GlueTy), [3, 4, 5, 6, 7, 0, 0, 0, 0, 0], [0, 1, 2, 0, 0, 0, 0]),
};
