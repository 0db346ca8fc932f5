//! Written by tools/write_entries.py.

use recipes::Row::{Conclude, Make, Part, Premise, Shift, WithFace};
use recipes::{Row, table};
use theory::ContextRule::{SubId, SubWkFace};
use theory::EqualityRule::TmConv;
use theory::GlueRule::{Glue, GlueTyFace};
use theory::InstanceRule::TmSub;
use theory::Op;
use theory::RuleName::{Contexts, Equality, Gluing, Instances};

/// `Left` of what glue.face concludes. Its parts are G A p T w c a.
pub static GLUE_FACE_LEFT: &[Row] = table! {
    // 0: G >> A
    Premise(0),
    // 1: G.{p} >> T
    Premise(1),
    // 2: G.{p} >> w : equiv T A
    Premise(2),
    // 3: G.{p} >> c : T
    Premise(3),
    // 4: G >> a : A
    Premise(4),
    // 5: G.{p} >> app (fst w) c = a : A
    Premise(5),
    // 6: ctx G
    Premise(6),
    Part(0),
    Part(1),
    Part(2),
    Part(3),
    Part(4),
    Part(5),
    Part(6),
    // 14: G >> glue p c a : Glue A p T w
    Conclude(Gluing(Glue), [7, 8, 9, 10, 11, 12, 13, 0, 0, 0], [0, 1, 2, 3, 4, 5, 0]),
    // 15: id : G to G
    Conclude(Contexts(SubId), [7, 0, 0, 0, 0, 0, 0, 0, 0, 0], [6, 0, 0, 0, 0, 0, 0]),
    Shift(0),
    // 17: id : G.{p} to G
    Conclude(Contexts(SubWkFace), [7, 16, 7, 9, 0, 0, 0, 0, 0, 0], [15, 0, 0, 0, 0, 0, 0]),
    WithFace(7, 9),
    Make(Op::Glue, [9, 12, 13, 0]),
    Make(Op::GlueType, [8, 9, 10, 11]),
    // 21: G.{p} >> glue p c a : Glue A p T w
    Conclude(Instances(TmSub), [18, 16, 7, 19, 20, 0, 0, 0, 0, 0], [17, 14, 0, 0, 0, 0, 0]),
    // 22: G.{p} >> Glue A p T w = T
    Conclude(Gluing(GlueTyFace), [7, 8, 9, 10, 11, 0, 0, 0, 0, 0], [0, 1, 2, 0, 0, 0, 0]),
    // 23: G.{p} >> glue p c a : T
    Conclude(Equality(TmConv), [18, 19, 20, 10, 0, 0, 0, 0, 0, 0], [21, 22, 0, 0, 0, 0, 0]),
};
