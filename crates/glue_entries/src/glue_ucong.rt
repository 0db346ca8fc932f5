//! Written by tools/write_entries.py.

use recipes::Row::{Conclude, Derive, Instance, Make, Part, Premise, Shift, Var, WithFace};
use recipes::{Row, table};
use theory::ContextRule::{SubFace, SubId, SubWkFace};
use theory::EqualityRule::TmConv;
use theory::GlueRule::GlueU;
use theory::InstanceRule::{TmSub, TyEqSub};
use theory::Op;
use theory::RuleName::{Contexts, Equality, Gluing, Instances, Universe};
use theory::UniverseRule::{TyEqU, TyU, TyUniv};

/// `Type` of what glue.ucong concludes. Its parts are G A B p q T V w z.
pub static GLUE_UCONG_TYPE: &[Row] = table! {
    // 0: ctx G
    Premise(0),
    Part(0),
    // 2: G >> U
    Conclude(Universe(TyUniv), [1, 0, 0, 0, 0, 0, 0, 0, 0, 0], [0, 0, 0, 0, 0, 0, 0]),
};

/// `Left` of what glue.ucong concludes. Its parts are G A B p q T V w z.
pub static GLUE_UCONG_LEFT: &[Row] = table! {
    // 0: G >> A : U
    Premise(0),
    // 1: G.{p} >> T : U
    Premise(1),
    // 2: G.{p} >> w : equiv T A
    Premise(2),
    Part(0),
    Part(1),
    Part(3),
    Part(5),
    Part(7),
    // 8: G >> Glue A p T w : U
    Conclude(Gluing(GlueU), [3, 4, 5, 6, 7, 0, 0, 0, 0, 0], [0, 1, 2, 0, 0, 0, 0]),
};

/// `Right` of what glue.ucong concludes. Its parts are G A B p q T V w z.
pub static GLUE_UCONG_RIGHT: &[Row] = table! {
    // 0: G >> A = B : U
    Premise(0),
    // 1: G.{p} >> T = V : U
    Premise(1),
    // 2: ctx G
    Premise(2),
    // 3: G >> A : U
    Premise(3),
    // 4: G >> B : U
    Premise(4),
    // 5: ctx G.{p}
    Premise(5),
    // 6: G.{p} >> T : U
    Premise(6),
    // 7: G.{p} >> V : U
    Premise(7),
    // 8: G.{p} >> z : equiv T A
    Premise(8),
    Part(0),
    Part(3),
    WithFace(9, 10),
    Part(5),
    Part(6),
    // 14: G.{p} >> T = V
    Conclude(Universe(TyEqU), [11, 12, 13, 0, 0, 0, 0, 0, 0, 0], [1, 0, 0, 0, 0, 0, 0]),
    Part(1),
    Part(2),
    // 17: G >> A = B
    Conclude(Universe(TyEqU), [9, 15, 16, 0, 0, 0, 0, 0, 0, 0], [0, 0, 0, 0, 0, 0, 0]),
    // 18: G.{p} >> T
    Conclude(Universe(TyU), [11, 12, 0, 0, 0, 0, 0, 0, 0, 0], [6, 0, 0, 0, 0, 0, 0]),
    // 19: id : G to G
    Conclude(Contexts(SubId), [9, 0, 0, 0, 0, 0, 0, 0, 0, 0], [2, 0, 0, 0, 0, 0, 0]),
    Shift(0),
    // 21: id : G.{p} to G
    Conclude(Contexts(SubWkFace), [9, 20, 9, 10, 0, 0, 0, 0, 0, 0], [19, 0, 0, 0, 0, 0, 0]),
    Make(Op::U, [0, 0, 0, 0]),
    // 23: G.{p} >> A : U
    Conclude(Instances(TmSub), [11, 20, 9, 15, 22, 0, 0, 0, 0, 0], [21, 3, 0, 0, 0, 0, 0]),
    // 24: G.{p} >> A
    Conclude(Universe(TyU), [11, 15, 0, 0, 0, 0, 0, 0, 0, 0], [23, 0, 0, 0, 0, 0, 0]),
    // 25: G.{p} >> V
    Conclude(Universe(TyU), [11, 13, 0, 0, 0, 0, 0, 0, 0, 0], [7, 0, 0, 0, 0, 0, 0]),
    // 26: G.{p} >> B : U
    Conclude(Instances(TmSub), [11, 20, 9, 16, 22, 0, 0, 0, 0, 0], [21, 4, 0, 0, 0, 0, 0]),
    // 27: G.{p} >> B
    Conclude(Universe(TyU), [11, 16, 0, 0, 0, 0, 0, 0, 0, 0], [26, 0, 0, 0, 0, 0, 0]),
    // 28: G.{p} >> A = B
    Conclude(Instances(TyEqSub), [11, 20, 9, 15, 16, 0, 0, 0, 0, 0], [21, 17, 0, 0, 0, 0, 0]),
    // 29: equiv_tycong
    Derive(0, [11, 12, 15, 13, 16, 0, 0, 0, 0, 0],
        [5, 18, 24, 25, 27, 14, 28, 0, 0, 0, 0, 0, 0, 0, 0, 0]),
    Part(4),
    // 31: id : G.{q} to G
    Conclude(Contexts(SubWkFace), [9, 20, 9, 30, 0, 0, 0, 0, 0, 0], [19, 0, 0, 0, 0, 0, 0]),
    WithFace(9, 30),
    // 33: id : G.{q} to G.{p}
    Conclude(Contexts(SubFace), [32, 20, 9, 10, 0, 0, 0, 0, 0, 0], [31, 0, 0, 0, 0, 0, 0]),
    // 34: G.{q} >> V : U
    Conclude(Instances(TmSub), [32, 20, 11, 13, 22, 0, 0, 0, 0, 0], [33, 7, 0, 0, 0, 0, 0]),
    Part(8),
    Shift(1),
    Instance(15, 36),
    Make(Op::Pi, [12, 37, 0, 0]),
    Shift(2),
    Instance(12, 39),
    Shift(4),
    Instance(15, 41),
    Var(1),
    Var(2),
    Var(0),
    Make(Op::App, [44, 45, 0, 0]),
    Make(Op::PathP, [42, 43, 46, 0]),
    Make(Op::Sig, [40, 47, 0, 0]),
    Instance(48, 36),
    Shift(3),
    Instance(48, 50),
    Make(Op::PathP, [51, 43, 45, 0]),
    Make(Op::Pi, [49, 52, 0, 0]),
    Make(Op::Sig, [48, 53, 0, 0]),
    Make(Op::Pi, [37, 54, 0, 0]),
    Make(Op::Sig, [38, 55, 0, 0]),
    // 57: G.{q} >> z : equiv T A
    Conclude(Instances(TmSub), [32, 20, 11, 35, 56, 0, 0, 0, 0, 0], [33, 8, 0, 0, 0, 0, 0]),
    Instance(16, 36),
    Make(Op::Pi, [13, 58, 0, 0]),
    Instance(13, 39),
    Instance(16, 41),
    Make(Op::PathP, [61, 43, 46, 0]),
    Make(Op::Sig, [60, 62, 0, 0]),
    Instance(63, 36),
    Instance(63, 50),
    Make(Op::PathP, [65, 43, 45, 0]),
    Make(Op::Pi, [64, 66, 0, 0]),
    Make(Op::Sig, [63, 67, 0, 0]),
    Make(Op::Pi, [58, 68, 0, 0]),
    Make(Op::Sig, [59, 69, 0, 0]),
    // 71: G.{q} >> equiv T A = equiv V B
    Conclude(Instances(TyEqSub), [32, 20, 11, 56, 70, 0, 0, 0, 0, 0], [33, 29, 0, 0, 0, 0, 0]),
    // 72: G.{q} >> z : equiv V B
    Conclude(Equality(TmConv), [32, 35, 56, 70, 0, 0, 0, 0, 0, 0], [57, 71, 0, 0, 0, 0, 0]),
    // 73: G >> Glue B q V z : U
    Conclude(Gluing(GlueU), [9, 16, 30, 13, 35, 0, 0, 0, 0, 0], [4, 34, 72, 0, 0, 0, 0]),
};
