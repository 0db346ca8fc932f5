//! Written by tools/write_entries.py.

use recipes::Row::{Conclude, Instance, Make, Part, Premise, Shift, Var, WithFace};
use recipes::{Row, table};
use theory::ContextRule::{SubFace, SubId, SubWkFace};
use theory::EqualityRule::TmConv;
use theory::GlueRule::{GlueTyFace, Unglue};
use theory::InstanceRule::{TmSub, TyEqSub, TySub};
use theory::Op;
use theory::PiRule::App;
use theory::RuleName::{Contexts, Equality, Gluing, Instances, Pi, Sigma};
use theory::SigmaRule::Fst;

/// `Type` of what unglue.face concludes. Its parts are G A p T w b.
pub static UNGLUE_FACE_TYPE: &[Row] = table! {
    // 0: G >> A
    Premise(0),
    // 1: ctx G
    Premise(1),
    Part(0),
    // 3: id : G to G
    Conclude(Contexts(SubId), [2, 0, 0, 0, 0, 0, 0, 0, 0, 0], [1, 0, 0, 0, 0, 0, 0]),
    Shift(0),
    Part(2),
    // 6: id : G.{p} to G
    Conclude(Contexts(SubWkFace), [2, 4, 2, 5, 0, 0, 0, 0, 0, 0], [3, 0, 0, 0, 0, 0, 0]),
    WithFace(2, 5),
    Part(1),
    // 9: G.{p} >> A
    Conclude(Instances(TySub), [7, 4, 2, 8, 0, 0, 0, 0, 0, 0], [6, 0, 0, 0, 0, 0, 0]),
};

/// `Left` of what unglue.face concludes. Its parts are G A p T w b.
pub static UNGLUE_FACE_LEFT: &[Row] = table! {
    // 0: G >> A
    Premise(0),
    // 1: G.{p} >> T
    Premise(1),
    // 2: G.{p} >> w : equiv T A
    Premise(2),
    // 3: G >> b : Glue A p T w
    Premise(3),
    // 4: ctx G
    Premise(4),
    Part(0),
    Part(1),
    Part(2),
    Part(3),
    Part(4),
    Part(5),
    // 11: G >> unglue p T w b : A
    Conclude(Gluing(Unglue), [5, 6, 7, 8, 9, 10, 0, 0, 0, 0], [0, 1, 2, 3, 0, 0, 0]),
    // 12: id : G to G
    Conclude(Contexts(SubId), [5, 0, 0, 0, 0, 0, 0, 0, 0, 0], [4, 0, 0, 0, 0, 0, 0]),
    Shift(0),
    // 14: id : G.{p} to G
    Conclude(Contexts(SubWkFace), [5, 13, 5, 7, 0, 0, 0, 0, 0, 0], [12, 0, 0, 0, 0, 0, 0]),
    WithFace(5, 7),
    Make(Op::Unglue, [7, 8, 9, 10]),
    // 17: G.{p} >> unglue p T w b : A
    Conclude(Instances(TmSub), [15, 13, 5, 16, 6, 0, 0, 0, 0, 0], [14, 11, 0, 0, 0, 0, 0]),
};

/// `Right` of what unglue.face concludes. Its parts are G A p T w b.
pub static UNGLUE_FACE_RIGHT: &[Row] = table! {
    // 0: G >> A
    Premise(0),
    // 1: G.{p} >> T
    Premise(1),
    // 2: G.{p} >> w : equiv T A
    Premise(2),
    // 3: G >> b : Glue A p T w
    Premise(3),
    // 4: ctx G
    Premise(4),
    // 5: ctx G.{p}
    Premise(5),
    Part(0),
    // 7: id : G to G
    Conclude(Contexts(SubId), [6, 0, 0, 0, 0, 0, 0, 0, 0, 0], [4, 0, 0, 0, 0, 0, 0]),
    Shift(0),
    Part(2),
    // 10: id : G.{p} to G
    Conclude(Contexts(SubWkFace), [6, 8, 6, 9, 0, 0, 0, 0, 0, 0], [7, 0, 0, 0, 0, 0, 0]),
    WithFace(6, 9),
    Part(1),
    // 13: G.{p} >> A
    Conclude(Instances(TySub), [11, 8, 6, 12, 0, 0, 0, 0, 0, 0], [10, 0, 0, 0, 0, 0, 0]),
    Part(4),
    Part(3),
    Shift(1),
    Instance(12, 16),
    Make(Op::Pi, [15, 17, 0, 0]),
    Shift(2),
    Instance(15, 19),
    Shift(4),
    Instance(12, 21),
    Var(1),
    Var(2),
    Var(0),
    Make(Op::App, [24, 25, 0, 0]),
    Make(Op::PathP, [22, 23, 26, 0]),
    Make(Op::Sig, [20, 27, 0, 0]),
    Shift(3),
    Instance(15, 29),
    Shift(5),
    Instance(12, 31),
    Var(3),
    Make(Op::App, [33, 25, 0, 0]),
    Make(Op::PathP, [32, 24, 34, 0]),
    Make(Op::Sig, [30, 35, 0, 0]),
    Instance(15, 31),
    Shift(7),
    Instance(12, 38),
    Var(4),
    Var(5),
    Make(Op::App, [41, 25, 0, 0]),
    Make(Op::PathP, [39, 40, 42, 0]),
    Make(Op::Sig, [37, 43, 0, 0]),
    Make(Op::PathP, [44, 23, 25, 0]),
    Make(Op::Pi, [36, 45, 0, 0]),
    Make(Op::Sig, [28, 46, 0, 0]),
    Make(Op::Pi, [17, 47, 0, 0]),
    // 49: G.{p} >> fst w : pi T A+
    Conclude(Sigma(Fst), [11, 14, 18, 48, 0, 0, 0, 0, 0, 0], [2, 0, 0, 0, 0, 0, 0]),
    Part(5),
    Make(Op::GlueType, [12, 9, 15, 14]),
    // 52: G.{p} >> b : Glue A p T w
    Conclude(Instances(TmSub), [11, 8, 6, 50, 51, 0, 0, 0, 0, 0], [10, 3, 0, 0, 0, 0, 0]),
    // 53: id : G.{p} to G.{p}
    Conclude(Contexts(SubId), [11, 0, 0, 0, 0, 0, 0, 0, 0, 0], [5, 0, 0, 0, 0, 0, 0]),
    // 54: id : G.{p}.{p} to G.{p}
    Conclude(Contexts(SubWkFace), [11, 8, 11, 9, 0, 0, 0, 0, 0, 0], [53, 0, 0, 0, 0, 0, 0]),
    WithFace(11, 9),
    // 56: G.{p}.{p} >> T
    Conclude(Instances(TySub), [55, 8, 11, 15, 0, 0, 0, 0, 0, 0], [54, 1, 0, 0, 0, 0, 0]),
    Instance(28, 16),
    Instance(28, 29),
    Make(Op::PathP, [58, 23, 25, 0]),
    Make(Op::Pi, [57, 59, 0, 0]),
    Make(Op::Sig, [28, 60, 0, 0]),
    Make(Op::Pi, [17, 61, 0, 0]),
    Make(Op::Sig, [18, 62, 0, 0]),
    // 64: G.{p}.{p} >> w : equiv T A
    Conclude(Instances(TmSub), [55, 8, 11, 14, 63, 0, 0, 0, 0, 0], [54, 2, 0, 0, 0, 0, 0]),
    // 65: G.{p}.{p} >> Glue A p T w = T
    Conclude(Gluing(GlueTyFace), [11, 12, 9, 15, 14, 0, 0, 0, 0, 0], [13, 56, 64, 0, 0, 0, 0]),
    // 66: id : G.{p} to G.{p}.{p}
    Conclude(Contexts(SubFace), [11, 8, 11, 9, 0, 0, 0, 0, 0, 0], [53, 0, 0, 0, 0, 0, 0]),
    // 67: G.{p} >> Glue A p T w = T
    Conclude(Instances(TyEqSub), [11, 8, 55, 51, 15, 0, 0, 0, 0, 0], [66, 65, 0, 0, 0, 0, 0]),
    // 68: G.{p} >> b : T
    Conclude(Equality(TmConv), [11, 50, 51, 15, 0, 0, 0, 0, 0, 0], [52, 67, 0, 0, 0, 0, 0]),
    Make(Op::Fst, [14, 0, 0, 0]),
    // 70: G.{p} >> app (fst w) b : A
    Conclude(Pi(App), [11, 69, 50, 15, 17, 0, 0, 0, 0, 0], [49, 68, 0, 0, 0, 0, 0]),
};
