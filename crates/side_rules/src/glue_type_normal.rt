//! Written by tools/write_recipes.py.

use recipes::Row::{Conclude, Field, Instance, Make, Part, Premise, Shift, Var, WithFace};
use recipes::{Row, table};
use theory::ContextRule::{SubFace, SubId, SubWkFace};
use theory::EqualityRule::TmConv;
use theory::GlueRule::{GlueTy, GlueTyCong};
use theory::InstanceRule::{TmEqSub, TyEqSub};
use theory::Op;
use theory::RuleName::{Contexts, Equality, Gluing, Instances};

/// A glued type whose parts are in normal form, at a face that is the same as its own.
/// Its parts are p q H A B T V w z.
pub static GLUE_TYPE_NORMAL: &[Row] = table! {
    // 0: ctx H
    Premise(0),
    // 1: H >> A
    Premise(1),
    // 2: H >> A = B
    Premise(2),
    // 3: H >> B
    Premise(3),
    // 4: H.{p} >> T
    Premise(4),
    // 5: H.{q} >> T = V
    Premise(5),
    // 6: H.{q} >> V
    Premise(6),
    // 7: H.{p} >> w : equiv T A
    Premise(7),
    // 8: H.{q} >> w = z : equiv T A
    Premise(8),
    // 9: H.{q} >> z : equiv T A
    Premise(9),
    // 10: H.{q} >> equiv T A = equiv V B
    Premise(10),
    Field(0, 0),
    // 12: id : H to H
    Conclude(Contexts(SubId), [11, 0, 0, 0, 0, 0, 0, 0, 0, 0], [0, 0, 0, 0, 0, 0, 0]),
    Shift(0),
    Part(0),
    // 15: id : H.{p} to H
    Conclude(Contexts(SubWkFace), [11, 13, 11, 14, 0, 0, 0, 0, 0, 0], [12, 0, 0, 0, 0, 0, 0]),
    WithFace(11, 14),
    Part(1),
    // 18: id : H.{p} to H.{q}
    Conclude(Contexts(SubFace), [16, 13, 11, 17, 0, 0, 0, 0, 0, 0], [15, 0, 0, 0, 0, 0, 0]),
    WithFace(11, 17),
    Field(4, 1),
    Field(5, 2),
    // 22: H.{p} >> T = V
    Conclude(Instances(TyEqSub), [16, 13, 19, 20, 21, 0, 0, 0, 0, 0], [18, 5, 0, 0, 0, 0, 0]),
    Field(7, 1),
    Field(8, 2),
    Field(1, 1),
    Shift(1),
    Instance(25, 26),
    Make(Op::Pi, [20, 27, 0, 0]),
    Shift(2),
    Instance(20, 29),
    Shift(4),
    Instance(25, 31),
    Var(1),
    Var(2),
    Var(0),
    Make(Op::App, [34, 35, 0, 0]),
    Make(Op::PathP, [32, 33, 36, 0]),
    Make(Op::Sig, [30, 37, 0, 0]),
    Instance(38, 26),
    Shift(3),
    Instance(38, 40),
    Make(Op::PathP, [41, 33, 35, 0]),
    Make(Op::Pi, [39, 42, 0, 0]),
    Make(Op::Sig, [38, 43, 0, 0]),
    Make(Op::Pi, [27, 44, 0, 0]),
    Make(Op::Sig, [28, 45, 0, 0]),
    // 47: H.{p} >> w = z : equiv T A
    Conclude(Instances(TmEqSub), [16, 13, 19, 23, 24, 46, 0, 0, 0, 0], [18, 8, 0, 0, 0, 0, 0]),
    Field(2, 2),
    // 49: H >> Glue A p T w = Glue B q V z
    Conclude(Gluing(GlueTyCong), [11, 25, 48, 14, 17, 20, 21, 23, 24, 0], [2, 22, 47, 0, 0, 0, 0]),
    Instance(48, 26),
    Make(Op::Pi, [21, 50, 0, 0]),
    Instance(21, 29),
    Instance(48, 31),
    Make(Op::PathP, [53, 33, 36, 0]),
    Make(Op::Sig, [52, 54, 0, 0]),
    Instance(55, 26),
    Instance(55, 40),
    Make(Op::PathP, [57, 33, 35, 0]),
    Make(Op::Pi, [56, 58, 0, 0]),
    Make(Op::Sig, [55, 59, 0, 0]),
    Make(Op::Pi, [50, 60, 0, 0]),
    Make(Op::Sig, [51, 61, 0, 0]),
    // 63: H.{q} >> z : equiv V B
    Conclude(Equality(TmConv), [19, 24, 46, 62, 0, 0, 0, 0, 0, 0], [9, 10, 0, 0, 0, 0, 0]),
    // 64: H >> Glue B q V z
    Conclude(Gluing(GlueTy), [11, 48, 17, 21, 24, 0, 0, 0, 0, 0], [3, 6, 63, 0, 0, 0, 0]),
};

/// The rows of what it gives: equal, term.
pub static GLUE_TYPE_NORMAL_GIVES: &[u16] = &[49, 64];
