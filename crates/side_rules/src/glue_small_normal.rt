//! Written by tools/write_recipes.py.

use recipes::Row::{Conclude, Field, Instance, Make, Part, Premise, Shift, Var, WithFace};
use recipes::{Row, table};
use theory::ContextRule::{SubFace, SubId, SubWkFace};
use theory::EqualityRule::TmConv;
use theory::GlueRule::{GlueU, GlueUCong};
use theory::InstanceRule::TmEqSub;
use theory::Op;
use theory::RuleName::{Contexts, Equality, Gluing, Instances};

/// A glued type in the universe whose parts are in normal form, at a face that is the same as its
/// own. Its parts are p q H A B T V w z.
pub static GLUE_SMALL_NORMAL: &[Row] = table! {
    // 0: ctx H
    Premise(0),
    // 1: H >> A = B : U
    Premise(1),
    // 2: H >> B : U
    Premise(2),
    // 3: H.{q} >> T = V : U
    Premise(3),
    // 4: H.{q} >> V : U
    Premise(4),
    // 5: H.{q} >> w = z : equiv T A
    Premise(5),
    // 6: H.{q} >> z : equiv T A
    Premise(6),
    // 7: H.{q} >> equiv T A = equiv V B
    Premise(7),
    Field(0, 0),
    // 9: id : H to H
    Conclude(Contexts(SubId), [8, 0, 0, 0, 0, 0, 0, 0, 0, 0], [0, 0, 0, 0, 0, 0, 0]),
    Shift(0),
    Part(0),
    // 12: id : H.{p} to H
    Conclude(Contexts(SubWkFace), [8, 10, 8, 11, 0, 0, 0, 0, 0, 0], [9, 0, 0, 0, 0, 0, 0]),
    WithFace(8, 11),
    Part(1),
    // 15: id : H.{p} to H.{q}
    Conclude(Contexts(SubFace), [13, 10, 8, 14, 0, 0, 0, 0, 0, 0], [12, 0, 0, 0, 0, 0, 0]),
    WithFace(8, 14),
    Field(3, 1),
    Field(3, 2),
    Make(Op::U, [0, 0, 0, 0]),
    // 20: H.{p} >> T = V : U
    Conclude(Instances(TmEqSub), [13, 10, 16, 17, 18, 19, 0, 0, 0, 0], [15, 3, 0, 0, 0, 0, 0]),
    Field(5, 1),
    Field(5, 2),
    Field(1, 1),
    Shift(1),
    Instance(23, 24),
    Make(Op::Pi, [17, 25, 0, 0]),
    Shift(2),
    Instance(17, 27),
    Shift(4),
    Instance(23, 29),
    Var(1),
    Var(2),
    Var(0),
    Make(Op::App, [32, 33, 0, 0]),
    Make(Op::PathP, [30, 31, 34, 0]),
    Make(Op::Sig, [28, 35, 0, 0]),
    Instance(36, 24),
    Shift(3),
    Instance(36, 38),
    Make(Op::PathP, [39, 31, 33, 0]),
    Make(Op::Pi, [37, 40, 0, 0]),
    Make(Op::Sig, [36, 41, 0, 0]),
    Make(Op::Pi, [25, 42, 0, 0]),
    Make(Op::Sig, [26, 43, 0, 0]),
    // 45: H.{p} >> w = z : equiv T A
    Conclude(Instances(TmEqSub), [13, 10, 16, 21, 22, 44, 0, 0, 0, 0], [15, 5, 0, 0, 0, 0, 0]),
    Field(1, 2),
    // 47: H >> Glue A p T w = Glue B q V z : U
    Conclude(Gluing(GlueUCong), [8, 23, 46, 11, 14, 17, 18, 21, 22, 0], [1, 20, 45, 0, 0, 0, 0]),
    Instance(46, 24),
    Make(Op::Pi, [18, 48, 0, 0]),
    Instance(18, 27),
    Instance(46, 29),
    Make(Op::PathP, [51, 31, 34, 0]),
    Make(Op::Sig, [50, 52, 0, 0]),
    Instance(53, 24),
    Instance(53, 38),
    Make(Op::PathP, [55, 31, 33, 0]),
    Make(Op::Pi, [54, 56, 0, 0]),
    Make(Op::Sig, [53, 57, 0, 0]),
    Make(Op::Pi, [48, 58, 0, 0]),
    Make(Op::Sig, [49, 59, 0, 0]),
    // 61: H.{q} >> z : equiv V B
    Conclude(Equality(TmConv), [16, 22, 44, 60, 0, 0, 0, 0, 0, 0], [6, 7, 0, 0, 0, 0, 0]),
    // 62: H >> Glue B q V z : U
    Conclude(Gluing(GlueU), [8, 46, 14, 18, 22, 0, 0, 0, 0, 0], [2, 4, 61, 0, 0, 0, 0]),
};

/// The rows of what it gives: equal, term.
pub static GLUE_SMALL_NORMAL_GIVES: &[u16] = &[47, 62];
