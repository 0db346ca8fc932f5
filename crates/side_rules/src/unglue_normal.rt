//! Written by tools/write_recipes.py.

use recipes::Row::{Conclude, Field, Instance, Make, Part, Premise, Shift, Var, WithFace};
use recipes::{Row, table};
use theory::ContextRule::{SubFace, SubId, SubWkFace};
use theory::EqualityRule::{TmConv, TyEqRefl};
use theory::GlueRule::{GlueTyCong, Unglue, UnglueCong};
use theory::InstanceRule::{TmEqSub, TyEqSub};
use theory::Op;
use theory::RuleName::{Contexts, Equality, Gluing, Instances};

/// A term of a glued type unglued, whose parts are in normal form, at a face that is the same.
/// Its parts are p q H A T w V z b c.
pub static UNGLUE_NORMAL: &[Row] = table! {
    // 0: ctx H
    Premise(0),
    // 1: H >> A
    Premise(1),
    // 2: H.{p} >> T
    Premise(2),
    // 3: H.{p} >> w : equiv T A
    Premise(3),
    // 4: H.{q} >> T = V
    Premise(4),
    // 5: H.{q} >> V
    Premise(5),
    // 6: H.{q} >> w = z : equiv T A
    Premise(6),
    // 7: H.{q} >> z : equiv T A
    Premise(7),
    // 8: H.{q} >> equiv T A = equiv V A
    Premise(8),
    // 9: H >> b = c : X
    Premise(9),
    // 10: H >> c : X
    Premise(10),
    Field(0, 0),
    // 12: id : H to H
    Conclude(Contexts(SubId), [11, 0, 0, 0, 0, 0, 0, 0, 0, 0], [0, 0, 0, 0, 0, 0, 0]),
    Shift(0),
    Part(0),
    // 15: id : H.{p} to H
    Conclude(Contexts(SubWkFace), [11, 13, 11, 14, 0, 0, 0, 0, 0, 0], [12, 0, 0, 0, 0, 0, 0]),
    WithFace(11, 14),
    Part(1),
    // 18: id : H.{p} to H.{q}
    Conclude(Contexts(SubFace), [16, 13, 11, 17, 0, 0, 0, 0, 0, 0], [15, 0, 0, 0, 0, 0, 0]),
    WithFace(11, 17),
    Field(2, 1),
    Field(4, 2),
    // 22: H.{p} >> T = V
    Conclude(Instances(TyEqSub), [16, 13, 19, 20, 21, 0, 0, 0, 0, 0], [18, 4, 0, 0, 0, 0, 0]),
    Field(3, 1),
    Field(6, 2),
    Field(1, 1),
    Shift(1),
    Instance(25, 26),
    Make(Op::Pi, [20, 27, 0, 0]),
    Shift(2),
    Instance(20, 29),
    Shift(4),
    Instance(25, 31),
    Var(1),
    Var(2),
    Var(0),
    Make(Op::App, [34, 35, 0, 0]),
    Make(Op::PathP, [32, 33, 36, 0]),
    Make(Op::Sig, [30, 37, 0, 0]),
    Instance(38, 26),
    Shift(3),
    Instance(38, 40),
    Make(Op::PathP, [41, 33, 35, 0]),
    Make(Op::Pi, [39, 42, 0, 0]),
    Make(Op::Sig, [38, 43, 0, 0]),
    Make(Op::Pi, [27, 44, 0, 0]),
    Make(Op::Sig, [28, 45, 0, 0]),
    // 47: H.{p} >> w = z : equiv T A
    Conclude(Instances(TmEqSub), [16, 13, 19, 23, 24, 46, 0, 0, 0, 0], [18, 6, 0, 0, 0, 0, 0]),
    Field(9, 1),
    Field(9, 2),
    // 50: H >> unglue p T w b = unglue q V z c : A
    Conclude(Gluing(UnglueCong), [11, 25, 14, 20, 23, 17, 21, 24, 48, 49], [1, 2, 3, 22, 47, 9, 0]),
    // 51: H >> A = A
    Conclude(Equality(TyEqRefl), [11, 25, 0, 0, 0, 0, 0, 0, 0, 0], [1, 0, 0, 0, 0, 0, 0]),
    // 52: H >> X = Y
    Conclude(Gluing(GlueTyCong), [11, 25, 25, 14, 17, 20, 21, 23, 24, 0], [51, 22, 47, 0, 0, 0, 0]),
    Make(Op::GlueType, [25, 14, 20, 23]),
    Make(Op::GlueType, [25, 17, 21, 24]),
    // 55: H >> c : Y
    Conclude(Equality(TmConv), [11, 49, 53, 54, 0, 0, 0, 0, 0, 0], [10, 52, 0, 0, 0, 0, 0]),
    Make(Op::Pi, [21, 27, 0, 0]),
    Instance(21, 29),
    Make(Op::Sig, [57, 37, 0, 0]),
    Instance(58, 26),
    Instance(58, 40),
    Make(Op::PathP, [60, 33, 35, 0]),
    Make(Op::Pi, [59, 61, 0, 0]),
    Make(Op::Sig, [58, 62, 0, 0]),
    Make(Op::Pi, [27, 63, 0, 0]),
    Make(Op::Sig, [56, 64, 0, 0]),
    // 66: H.{q} >> z : equiv V A
    Conclude(Equality(TmConv), [19, 24, 46, 65, 0, 0, 0, 0, 0, 0], [7, 8, 0, 0, 0, 0, 0]),
    // 67: H >> unglue q V z c : A
    Conclude(Gluing(Unglue), [11, 25, 17, 21, 24, 49, 0, 0, 0, 0], [1, 5, 66, 55, 0, 0, 0]),
};

/// The rows of what it gives: equal, term.
pub static UNGLUE_NORMAL_GIVES: &[u16] = &[50, 67];
