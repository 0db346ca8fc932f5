//! Written by tools/write_recipes.py.

use recipes::Row::{Conclude, Field, Make, Part, Premise, Shift, WithFace};
use recipes::{Row, table};
use theory::ContextRule::{SubFace, SubId, SubWkFace};
use theory::EqualityRule::{TyEqCover, TyEqSym, TyEqTrans};
use theory::InstanceRule::{TyEqSub, TySub};
use theory::Op;
use theory::RuleName::{Contexts, Equality, Instances, Systems};
use theory::SystemRule::{SysTy, SysTyLeft, SysTyRight};

/// A type as a system of one side more, of the side and of the system of the others.
/// Its parts are p q H A N B.
pub static SIDE_TYPE: &[Row] = table! {
    // 0: ctx H
    Premise(0),
    // 1: J >> A
    Premise(1),
    // 2: H.{p} >> A = N
    Premise(2),
    // 3: H.{p} >> N
    Premise(3),
    // 4: H.{q} >> A = B
    Premise(4),
    // 5: H.{q} >> B
    Premise(5),
    Field(0, 0),
    // 7: id : H to H
    Conclude(Contexts(SubId), [6, 0, 0, 0, 0, 0, 0, 0, 0, 0], [0, 0, 0, 0, 0, 0, 0]),
    Shift(0),
    Part(0),
    Part(1),
    Make(Op::Join, [9, 10, 0, 0]),
    // 12: id : J to H
    Conclude(Contexts(SubWkFace), [6, 8, 6, 11, 0, 0, 0, 0, 0, 0], [7, 0, 0, 0, 0, 0, 0]),
    WithFace(6, 11),
    // 14: id : Jp to H
    Conclude(Contexts(SubWkFace), [13, 8, 6, 9, 0, 0, 0, 0, 0, 0], [12, 0, 0, 0, 0, 0, 0]),
    WithFace(13, 9),
    // 16: id : Jp to H.{p}
    Conclude(Contexts(SubFace), [15, 8, 6, 9, 0, 0, 0, 0, 0, 0], [14, 0, 0, 0, 0, 0, 0]),
    WithFace(6, 9),
    Field(1, 1),
    Field(2, 2),
    // 20: Jp >> A = N
    Conclude(Instances(TyEqSub), [15, 8, 17, 18, 19, 0, 0, 0, 0, 0], [16, 2, 0, 0, 0, 0, 0]),
    // 21: Jp >> N
    Conclude(Instances(TySub), [15, 8, 17, 19, 0, 0, 0, 0, 0, 0], [16, 3, 0, 0, 0, 0, 0]),
    // 22: id : Jq to H
    Conclude(Contexts(SubWkFace), [13, 8, 6, 10, 0, 0, 0, 0, 0, 0], [12, 0, 0, 0, 0, 0, 0]),
    WithFace(13, 10),
    // 24: id : Jq to H.{q}
    Conclude(Contexts(SubFace), [23, 8, 6, 10, 0, 0, 0, 0, 0, 0], [22, 0, 0, 0, 0, 0, 0]),
    WithFace(6, 10),
    Field(4, 2),
    // 27: Jq >> A = B
    Conclude(Instances(TyEqSub), [23, 8, 25, 18, 26, 0, 0, 0, 0, 0], [24, 4, 0, 0, 0, 0, 0]),
    // 28: Jq >> B
    Conclude(Instances(TySub), [23, 8, 25, 26, 0, 0, 0, 0, 0, 0], [24, 5, 0, 0, 0, 0, 0]),
    // 29: id : Jpq to H.{p}
    Conclude(Contexts(SubWkFace), [15, 8, 17, 10, 0, 0, 0, 0, 0, 0], [16, 0, 0, 0, 0, 0, 0]),
    WithFace(15, 10),
    // 31: Jpq >> A = N
    Conclude(Instances(TyEqSub), [30, 8, 17, 18, 19, 0, 0, 0, 0, 0], [29, 2, 0, 0, 0, 0, 0]),
    // 32: Jpq >> N = A
    Conclude(Equality(TyEqSym), [30, 18, 19, 0, 0, 0, 0, 0, 0, 0], [31, 0, 0, 0, 0, 0, 0]),
    // 33: id : Jpq to H
    Conclude(Contexts(SubWkFace), [15, 8, 6, 10, 0, 0, 0, 0, 0, 0], [14, 0, 0, 0, 0, 0, 0]),
    // 34: id : Jpq to H.{q}
    Conclude(Contexts(SubFace), [30, 8, 6, 10, 0, 0, 0, 0, 0, 0], [33, 0, 0, 0, 0, 0, 0]),
    // 35: Jpq >> A = B
    Conclude(Instances(TyEqSub), [30, 8, 25, 18, 26, 0, 0, 0, 0, 0], [34, 4, 0, 0, 0, 0, 0]),
    // 36: Jpq >> N = B
    Conclude(Equality(TyEqTrans), [30, 19, 18, 26, 0, 0, 0, 0, 0, 0], [32, 35, 0, 0, 0, 0, 0]),
    // 37: J >> both
    Conclude(Systems(SysTy), [13, 9, 10, 19, 26, 0, 0, 0, 0, 0], [21, 28, 36, 0, 0, 0, 0]),
    // 38: Jp >> both = N
    Conclude(Systems(SysTyLeft), [13, 9, 10, 19, 26, 0, 0, 0, 0, 0], [21, 28, 36, 0, 0, 0, 0]),
    Make(Op::Sys, [9, 10, 19, 26]),
    // 40: Jp >> N = both
    Conclude(Equality(TyEqSym), [15, 39, 19, 0, 0, 0, 0, 0, 0, 0], [38, 0, 0, 0, 0, 0, 0]),
    // 41: Jp >> A = both
    Conclude(Equality(TyEqTrans), [15, 18, 19, 39, 0, 0, 0, 0, 0, 0], [20, 40, 0, 0, 0, 0, 0]),
    // 42: Jq >> both = B
    Conclude(Systems(SysTyRight), [13, 9, 10, 19, 26, 0, 0, 0, 0, 0], [21, 28, 36, 0, 0, 0, 0]),
    // 43: Jq >> B = both
    Conclude(Equality(TyEqSym), [23, 39, 26, 0, 0, 0, 0, 0, 0, 0], [42, 0, 0, 0, 0, 0, 0]),
    // 44: Jq >> A = both
    Conclude(Equality(TyEqTrans), [23, 18, 26, 39, 0, 0, 0, 0, 0, 0], [27, 43, 0, 0, 0, 0, 0]),
    // 45: J >> A = both
    Conclude(Equality(TyEqCover), [13, 9, 10, 18, 39, 0, 0, 0, 0, 0], [1, 37, 41, 44, 0, 0, 0]),
};

/// The rows of what it gives: equal, term.
pub static SIDE_TYPE_GIVES: &[u16] = &[45, 37];
