//! Written by tools/write_entries.py.

use recipes::Row::{Conclude, Derive, Instance, Make, Part, Premise, Shift, Var, WithFace};
use recipes::{Row, table};
use theory::ContextRule::{SubFace, SubId, SubWkFace};
use theory::EqualityRule::TmConv;
use theory::GlueRule::GlueTy;
use theory::InstanceRule::{TmSub, TyEqSub, TySub};
use theory::Op;
use theory::RuleName::{Contexts, Equality, Gluing, Instances};

/// `Left` of what glue.tycong concludes. Its parts are G A B p q T V w z.
pub static GLUE_TYCONG_LEFT: &[Row] = table! {
    // 0: G >> A
    Premise(0),
    // 1: G.{p} >> T
    Premise(1),
    // 2: G.{p} >> w : equiv T A
    Premise(2),
    Part(0),
    Part(1),
    Part(3),
    Part(5),
    Part(7),
    // 8: G >> Glue A p T w
    Conclude(Gluing(GlueTy), [3, 4, 5, 6, 7, 0, 0, 0, 0, 0], [0, 1, 2, 0, 0, 0, 0]),
};

/// `Right` of what glue.tycong concludes. Its parts are G A B p q T V w z.
pub static GLUE_TYCONG_RIGHT: &[Row] = table! {
    // 0: G >> A = B
    Premise(0),
    // 1: G.{p} >> T = V
    Premise(1),
    // 2: ctx G
    Premise(2),
    // 3: G >> A
    Premise(3),
    // 4: G >> B
    Premise(4),
    // 5: ctx G.{p}
    Premise(5),
    // 6: G.{p} >> T
    Premise(6),
    // 7: G.{p} >> V
    Premise(7),
    // 8: G.{p} >> z : equiv T A
    Premise(8),
    Part(0),
    // 10: id : G to G
    Conclude(Contexts(SubId), [9, 0, 0, 0, 0, 0, 0, 0, 0, 0], [2, 0, 0, 0, 0, 0, 0]),
    Shift(0),
    Part(3),
    // 13: id : G.{p} to G
    Conclude(Contexts(SubWkFace), [9, 11, 9, 12, 0, 0, 0, 0, 0, 0], [10, 0, 0, 0, 0, 0, 0]),
    WithFace(9, 12),
    Part(1),
    // 16: G.{p} >> A
    Conclude(Instances(TySub), [14, 11, 9, 15, 0, 0, 0, 0, 0, 0], [13, 3, 0, 0, 0, 0, 0]),
    Part(2),
    // 18: G.{p} >> B
    Conclude(Instances(TySub), [14, 11, 9, 17, 0, 0, 0, 0, 0, 0], [13, 4, 0, 0, 0, 0, 0]),
    // 19: G.{p} >> A = B
    Conclude(Instances(TyEqSub), [14, 11, 9, 15, 17, 0, 0, 0, 0, 0], [13, 0, 0, 0, 0, 0, 0]),
    Part(5),
    Part(6),
    // 22: equiv_tycong
    Derive(0, [14, 20, 15, 21, 17, 0, 0, 0, 0, 0],
        [5, 6, 16, 7, 18, 1, 19, 0, 0, 0, 0, 0, 0, 0, 0, 0]),
    Part(4),
    // 24: id : G.{q} to G
    Conclude(Contexts(SubWkFace), [9, 11, 9, 23, 0, 0, 0, 0, 0, 0], [10, 0, 0, 0, 0, 0, 0]),
    WithFace(9, 23),
    // 26: id : G.{q} to G.{p}
    Conclude(Contexts(SubFace), [25, 11, 9, 12, 0, 0, 0, 0, 0, 0], [24, 0, 0, 0, 0, 0, 0]),
    // 27: G.{q} >> V
    Conclude(Instances(TySub), [25, 11, 14, 21, 0, 0, 0, 0, 0, 0], [26, 7, 0, 0, 0, 0, 0]),
    Part(8),
    Shift(1),
    Instance(15, 29),
    Make(Op::Pi, [20, 30, 0, 0]),
    Shift(2),
    Instance(20, 32),
    Shift(4),
    Instance(15, 34),
    Var(1),
    Var(2),
    Var(0),
    Make(Op::App, [37, 38, 0, 0]),
    Make(Op::PathP, [35, 36, 39, 0]),
    Make(Op::Sig, [33, 40, 0, 0]),
    Instance(41, 29),
    Shift(3),
    Instance(41, 43),
    Make(Op::PathP, [44, 36, 38, 0]),
    Make(Op::Pi, [42, 45, 0, 0]),
    Make(Op::Sig, [41, 46, 0, 0]),
    Make(Op::Pi, [30, 47, 0, 0]),
    Make(Op::Sig, [31, 48, 0, 0]),
    // 50: G.{q} >> z : equiv T A
    Conclude(Instances(TmSub), [25, 11, 14, 28, 49, 0, 0, 0, 0, 0], [26, 8, 0, 0, 0, 0, 0]),
    Instance(17, 29),
    Make(Op::Pi, [21, 51, 0, 0]),
    Instance(21, 32),
    Instance(17, 34),
    Make(Op::PathP, [54, 36, 39, 0]),
    Make(Op::Sig, [53, 55, 0, 0]),
    Instance(56, 29),
    Instance(56, 43),
    Make(Op::PathP, [58, 36, 38, 0]),
    Make(Op::Pi, [57, 59, 0, 0]),
    Make(Op::Sig, [56, 60, 0, 0]),
    Make(Op::Pi, [51, 61, 0, 0]),
    Make(Op::Sig, [52, 62, 0, 0]),
    // 64: G.{q} >> equiv T A = equiv V B
    Conclude(Instances(TyEqSub), [25, 11, 14, 49, 63, 0, 0, 0, 0, 0], [26, 22, 0, 0, 0, 0, 0]),
    // 65: G.{q} >> z : equiv V B
    Conclude(Equality(TmConv), [25, 28, 49, 63, 0, 0, 0, 0, 0, 0], [50, 64, 0, 0, 0, 0, 0]),
    // 66: G >> Glue B q V z
    Conclude(Gluing(GlueTy), [9, 17, 23, 21, 28, 0, 0, 0, 0, 0], [4, 27, 65, 0, 0, 0, 0]),
};
