//! Written by tools/write_entries.py.

use recipes::Row::{Conclude, Make, Part, Premise, Shift, WithFace};
use recipes::{Row, table};
use theory::ContextRule::{SubId, SubWkFace};
use theory::GlueRule::GlueU;
use theory::InstanceRule::TmSub;
use theory::Op;
use theory::RuleName::{Contexts, Gluing, Instances, Universe};
use theory::UniverseRule::TyUniv;

/// `Type` of what glue.uface concludes. Its parts are G A p T w.
pub static GLUE_UFACE_TYPE: &[Row] = table! {
    // 0: ctx G.{p}
    Premise(0),
    Part(0),
    Part(2),
    WithFace(1, 2),
    // 4: G.{p} >> U
    Conclude(Universe(TyUniv), [3, 0, 0, 0, 0, 0, 0, 0, 0, 0], [0, 0, 0, 0, 0, 0, 0]),
};

/// `Left` of what glue.uface concludes. Its parts are G A p T w.
pub static GLUE_UFACE_LEFT: &[Row] = table! {
    // 0: G >> A : U
    Premise(0),
    // 1: G.{p} >> T : U
    Premise(1),
    // 2: G.{p} >> w : equiv T A
    Premise(2),
    // 3: ctx G
    Premise(3),
    Part(0),
    Part(1),
    Part(2),
    Part(3),
    Part(4),
    // 9: G >> Glue A p T w : U
    Conclude(Gluing(GlueU), [4, 5, 6, 7, 8, 0, 0, 0, 0, 0], [0, 1, 2, 0, 0, 0, 0]),
    // 10: id : G to G
    Conclude(Contexts(SubId), [4, 0, 0, 0, 0, 0, 0, 0, 0, 0], [3, 0, 0, 0, 0, 0, 0]),
    Shift(0),
    // 12: id : G.{p} to G
    Conclude(Contexts(SubWkFace), [4, 11, 4, 6, 0, 0, 0, 0, 0, 0], [10, 0, 0, 0, 0, 0, 0]),
    WithFace(4, 6),
    Make(Op::GlueType, [5, 6, 7, 8]),
    Make(Op::U, [0, 0, 0, 0]),
    // 16: G.{p} >> Glue A p T w : U
    Conclude(Instances(TmSub), [13, 11, 4, 14, 15, 0, 0, 0, 0, 0], [12, 9, 0, 0, 0, 0, 0]),
};
