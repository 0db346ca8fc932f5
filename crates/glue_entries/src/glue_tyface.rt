//! Written by tools/write_entries.py.

use recipes::Row::{Conclude, Make, Part, Premise, Shift, WithFace};
use recipes::{Row, table};
use theory::ContextRule::{SubId, SubWkFace};
use theory::GlueRule::GlueTy;
use theory::InstanceRule::TySub;
use theory::Op;
use theory::RuleName::{Contexts, Gluing, Instances};

/// `Left` of what glue.tyface concludes. Its parts are G A p T w.
pub static GLUE_TYFACE_LEFT: &[Row] = table! {
    // 0: G >> A
    Premise(0),
    // 1: G.{p} >> T
    Premise(1),
    // 2: G.{p} >> w : equiv T A
    Premise(2),
    // 3: ctx G
    Premise(3),
    Part(0),
    Part(1),
    Part(2),
    Part(3),
    Part(4),
    // 9: G >> Glue A p T w
    Conclude(Gluing(GlueTy), [4, 5, 6, 7, 8, 0, 0, 0, 0, 0], [0, 1, 2, 0, 0, 0, 0]),
    // 10: id : G to G
    Conclude(Contexts(SubId), [4, 0, 0, 0, 0, 0, 0, 0, 0, 0], [3, 0, 0, 0, 0, 0, 0]),
    Shift(0),
    // 12: id : G.{p} to G
    Conclude(Contexts(SubWkFace), [4, 11, 4, 6, 0, 0, 0, 0, 0, 0], [10, 0, 0, 0, 0, 0, 0]),
    WithFace(4, 6),
    Make(Op::GlueType, [5, 6, 7, 8]),
    // 15: G.{p} >> Glue A p T w
    Conclude(Instances(TySub), [13, 11, 4, 14, 0, 0, 0, 0, 0, 0], [12, 9, 0, 0, 0, 0, 0]),
};
