//! Written by tools/write_recipes.py.

use recipes::Row::{
    Conclude, Field, Instance, Make, Part, Premise, Push, Shift, Var, WithFace, WithName,
};
use recipes::{Row, table};
use theory::ContextRule::{SubFace, SubForm, SubId, SubWkFace, SubWkName};
use theory::EqualityRule::{TmEqCover, TmEqSym, TmEqTrans};
use theory::InstanceRule::{TmEqSub, TmSub};
use theory::Op;
use theory::RuleName::{Contexts, Equality, Instances, Systems};
use theory::SystemRule::{SysLeft, SysRight, SysTm};

/// A line of terms as a system of one side more, of the side and of the system of the others.
/// Its parts are p q H a A n b.
pub static SIDE_LINE: &[Row] = table! {
    // 0: ctx H
    Premise(0),
    // 1: J >> A
    Premise(1),
    // 2: J >> a : A
    Premise(2),
    // 3: H.{p}.I >> a = n : A
    Premise(3),
    // 4: H.{p}.I >> n : A
    Premise(4),
    // 5: H.{q}.I >> a = b : A
    Premise(5),
    // 6: H.{q}.I >> b : A
    Premise(6),
    Field(0, 0),
    // 8: id : H to H
    Conclude(Contexts(SubId), [7, 0, 0, 0, 0, 0, 0, 0, 0, 0], [0, 0, 0, 0, 0, 0, 0]),
    Shift(0),
    Part(0),
    Part(1),
    Make(Op::Join, [10, 11, 0, 0]),
    // 13: id : H.{join p q} to H
    Conclude(Contexts(SubWkFace), [7, 9, 7, 12, 0, 0, 0, 0, 0, 0], [8, 0, 0, 0, 0, 0, 0]),
    WithFace(7, 12),
    // 15: up : J to H
    Conclude(Contexts(SubWkName), [14, 9, 7, 0, 0, 0, 0, 0, 0, 0], [13, 0, 0, 0, 0, 0, 0]),
    WithName(14),
    Shift(1),
    Instance(10, 17),
    // 19: up : Jp to H
    Conclude(Contexts(SubWkFace), [16, 17, 7, 18, 0, 0, 0, 0, 0, 0], [15, 0, 0, 0, 0, 0, 0]),
    WithFace(16, 18),
    // 21: up : Jp to H.{p}
    Conclude(Contexts(SubFace), [20, 17, 7, 10, 0, 0, 0, 0, 0, 0], [19, 0, 0, 0, 0, 0, 0]),
    WithFace(7, 10),
    Var(0),
    // 24: over : Jp to H.{p}.I
    Conclude(Contexts(SubForm), [20, 17, 22, 23, 0, 0, 0, 0, 0, 0], [21, 0, 0, 0, 0, 0, 0]),
    Push(17, 23),
    WithName(22),
    Field(2, 1),
    Field(3, 2),
    Field(1, 1),
    // 30: Jp >> a = n : A
    Conclude(Instances(TmEqSub), [20, 25, 26, 27, 28, 29, 0, 0, 0, 0], [24, 3, 0, 0, 0, 0, 0]),
    // 31: Jp >> n : A
    Conclude(Instances(TmSub), [20, 25, 26, 28, 29, 0, 0, 0, 0, 0], [24, 4, 0, 0, 0, 0, 0]),
    Instance(11, 17),
    // 33: up : Jq to H
    Conclude(Contexts(SubWkFace), [16, 17, 7, 32, 0, 0, 0, 0, 0, 0], [15, 0, 0, 0, 0, 0, 0]),
    WithFace(16, 32),
    // 35: up : Jq to H.{q}
    Conclude(Contexts(SubFace), [34, 17, 7, 11, 0, 0, 0, 0, 0, 0], [33, 0, 0, 0, 0, 0, 0]),
    WithFace(7, 11),
    // 37: over : Jq to H.{q}.I
    Conclude(Contexts(SubForm), [34, 17, 36, 23, 0, 0, 0, 0, 0, 0], [35, 0, 0, 0, 0, 0, 0]),
    WithName(36),
    Field(5, 2),
    // 40: Jq >> a = b : A
    Conclude(Instances(TmEqSub), [34, 25, 38, 27, 39, 29, 0, 0, 0, 0], [37, 5, 0, 0, 0, 0, 0]),
    // 41: Jq >> b : A
    Conclude(Instances(TmSub), [34, 25, 38, 39, 29, 0, 0, 0, 0, 0], [37, 6, 0, 0, 0, 0, 0]),
    // 42: over : Jpq to H.{p}.I
    Conclude(Contexts(SubWkFace), [20, 25, 26, 32, 0, 0, 0, 0, 0, 0], [24, 0, 0, 0, 0, 0, 0]),
    WithFace(20, 32),
    // 44: Jpq >> a = n : A
    Conclude(Instances(TmEqSub), [43, 25, 26, 27, 28, 29, 0, 0, 0, 0], [42, 3, 0, 0, 0, 0, 0]),
    // 45: Jpq >> n = a : A
    Conclude(Equality(TmEqSym), [43, 27, 28, 29, 0, 0, 0, 0, 0, 0], [44, 0, 0, 0, 0, 0, 0]),
    // 46: up : Jpq to H
    Conclude(Contexts(SubWkFace), [20, 17, 7, 32, 0, 0, 0, 0, 0, 0], [19, 0, 0, 0, 0, 0, 0]),
    // 47: up : Jpq to H.{q}
    Conclude(Contexts(SubFace), [43, 17, 7, 11, 0, 0, 0, 0, 0, 0], [46, 0, 0, 0, 0, 0, 0]),
    // 48: over : Jpq to H.{q}.I
    Conclude(Contexts(SubForm), [43, 17, 36, 23, 0, 0, 0, 0, 0, 0], [47, 0, 0, 0, 0, 0, 0]),
    // 49: Jpq >> a = b : A
    Conclude(Instances(TmEqSub), [43, 25, 38, 27, 39, 29, 0, 0, 0, 0], [48, 5, 0, 0, 0, 0, 0]),
    // 50: Jpq >> n = b : A
    Conclude(Equality(TmEqTrans), [43, 28, 27, 39, 29, 0, 0, 0, 0, 0], [45, 49, 0, 0, 0, 0, 0]),
    // 51: J >> both : A
    Conclude(Systems(SysTm), [16, 18, 32, 28, 39, 29, 0, 0, 0, 0], [1, 31, 41, 50, 0, 0, 0]),
    // 52: Jp >> both = n : A
    Conclude(Systems(SysLeft), [16, 18, 32, 28, 39, 29, 0, 0, 0, 0], [1, 31, 41, 50, 0, 0, 0]),
    Make(Op::Sys, [18, 32, 28, 39]),
    // 54: Jp >> n = both : A
    Conclude(Equality(TmEqSym), [20, 53, 28, 29, 0, 0, 0, 0, 0, 0], [52, 0, 0, 0, 0, 0, 0]),
    // 55: Jp >> a = both : A
    Conclude(Equality(TmEqTrans), [20, 27, 28, 53, 29, 0, 0, 0, 0, 0], [30, 54, 0, 0, 0, 0, 0]),
    // 56: Jq >> both = b : A
    Conclude(Systems(SysRight), [16, 18, 32, 28, 39, 29, 0, 0, 0, 0], [1, 31, 41, 50, 0, 0, 0]),
    // 57: Jq >> b = both : A
    Conclude(Equality(TmEqSym), [34, 53, 39, 29, 0, 0, 0, 0, 0, 0], [56, 0, 0, 0, 0, 0, 0]),
    // 58: Jq >> a = both : A
    Conclude(Equality(TmEqTrans), [34, 27, 39, 53, 29, 0, 0, 0, 0, 0], [40, 57, 0, 0, 0, 0, 0]),
    // 59: J >> a = both : A
    Conclude(Equality(TmEqCover), [16, 18, 32, 27, 53, 29, 0, 0, 0, 0], [2, 51, 55, 58, 0, 0, 0]),
};

/// The rows of what it gives: equal, term.
pub static SIDE_LINE_GIVES: &[u16] = &[59, 51];
