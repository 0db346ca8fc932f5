//! Written by tools/write_recipes.py.

use recipes::Row::{Conclude, Field, Make, Part, Premise, Shift, WithFace};
use recipes::{Row, table};
use theory::ContextRule::{SubFace, SubId, SubWkFace};
use theory::EqualityRule::{TmEqCover, TmEqSym, TmEqTrans};
use theory::InstanceRule::{TmEqSub, TmSub};
use theory::Op;
use theory::RuleName::{Contexts, Equality, Instances, Systems};
use theory::SystemRule::{SysLeft, SysRight, SysTm};

/// A term as a system of one side more, of the side and of the system of the others.
/// Its parts are p q H a A n b.
pub static SIDE_TERM: &[Row] = table! {
    // 0: ctx H
    Premise(0),
    // 1: J >> A
    Premise(1),
    // 2: J >> a : A
    Premise(2),
    // 3: H.{p} >> a = n : A
    Premise(3),
    // 4: H.{p} >> n : A
    Premise(4),
    // 5: H.{q} >> a = b : A
    Premise(5),
    // 6: H.{q} >> b : A
    Premise(6),
    Field(0, 0),
    // 8: id : H to H
    Conclude(Contexts(SubId), [7, 0, 0, 0, 0, 0, 0, 0, 0, 0], [0, 0, 0, 0, 0, 0, 0]),
    Shift(0),
    Part(0),
    Part(1),
    Make(Op::Join, [10, 11, 0, 0]),
    // 13: id : J to H
    Conclude(Contexts(SubWkFace), [7, 9, 7, 12, 0, 0, 0, 0, 0, 0], [8, 0, 0, 0, 0, 0, 0]),
    WithFace(7, 12),
    // 15: id : Jp to H
    Conclude(Contexts(SubWkFace), [14, 9, 7, 10, 0, 0, 0, 0, 0, 0], [13, 0, 0, 0, 0, 0, 0]),
    WithFace(14, 10),
    // 17: id : Jp to H.{p}
    Conclude(Contexts(SubFace), [16, 9, 7, 10, 0, 0, 0, 0, 0, 0], [15, 0, 0, 0, 0, 0, 0]),
    WithFace(7, 10),
    Field(2, 1),
    Field(3, 2),
    Field(1, 1),
    // 22: Jp >> a = n : A
    Conclude(Instances(TmEqSub), [16, 9, 18, 19, 20, 21, 0, 0, 0, 0], [17, 3, 0, 0, 0, 0, 0]),
    // 23: Jp >> n : A
    Conclude(Instances(TmSub), [16, 9, 18, 20, 21, 0, 0, 0, 0, 0], [17, 4, 0, 0, 0, 0, 0]),
    // 24: id : Jq to H
    Conclude(Contexts(SubWkFace), [14, 9, 7, 11, 0, 0, 0, 0, 0, 0], [13, 0, 0, 0, 0, 0, 0]),
    WithFace(14, 11),
    // 26: id : Jq to H.{q}
    Conclude(Contexts(SubFace), [25, 9, 7, 11, 0, 0, 0, 0, 0, 0], [24, 0, 0, 0, 0, 0, 0]),
    WithFace(7, 11),
    Field(5, 2),
    // 29: Jq >> a = b : A
    Conclude(Instances(TmEqSub), [25, 9, 27, 19, 28, 21, 0, 0, 0, 0], [26, 5, 0, 0, 0, 0, 0]),
    // 30: Jq >> b : A
    Conclude(Instances(TmSub), [25, 9, 27, 28, 21, 0, 0, 0, 0, 0], [26, 6, 0, 0, 0, 0, 0]),
    // 31: id : Jpq to H.{p}
    Conclude(Contexts(SubWkFace), [16, 9, 18, 11, 0, 0, 0, 0, 0, 0], [17, 0, 0, 0, 0, 0, 0]),
    WithFace(16, 11),
    // 33: Jpq >> a = n : A
    Conclude(Instances(TmEqSub), [32, 9, 18, 19, 20, 21, 0, 0, 0, 0], [31, 3, 0, 0, 0, 0, 0]),
    // 34: Jpq >> n = a : A
    Conclude(Equality(TmEqSym), [32, 19, 20, 21, 0, 0, 0, 0, 0, 0], [33, 0, 0, 0, 0, 0, 0]),
    // 35: id : Jpq to H
    Conclude(Contexts(SubWkFace), [16, 9, 7, 11, 0, 0, 0, 0, 0, 0], [15, 0, 0, 0, 0, 0, 0]),
    // 36: id : Jpq to H.{q}
    Conclude(Contexts(SubFace), [32, 9, 7, 11, 0, 0, 0, 0, 0, 0], [35, 0, 0, 0, 0, 0, 0]),
    // 37: Jpq >> a = b : A
    Conclude(Instances(TmEqSub), [32, 9, 27, 19, 28, 21, 0, 0, 0, 0], [36, 5, 0, 0, 0, 0, 0]),
    // 38: Jpq >> n = b : A
    Conclude(Equality(TmEqTrans), [32, 20, 19, 28, 21, 0, 0, 0, 0, 0], [34, 37, 0, 0, 0, 0, 0]),
    // 39: J >> both : A
    Conclude(Systems(SysTm), [14, 10, 11, 20, 28, 21, 0, 0, 0, 0], [1, 23, 30, 38, 0, 0, 0]),
    // 40: Jp >> both = n : A
    Conclude(Systems(SysLeft), [14, 10, 11, 20, 28, 21, 0, 0, 0, 0], [1, 23, 30, 38, 0, 0, 0]),
    Make(Op::Sys, [10, 11, 20, 28]),
    // 42: Jp >> n = both : A
    Conclude(Equality(TmEqSym), [16, 41, 20, 21, 0, 0, 0, 0, 0, 0], [40, 0, 0, 0, 0, 0, 0]),
    // 43: Jp >> a = both : A
    Conclude(Equality(TmEqTrans), [16, 19, 20, 41, 21, 0, 0, 0, 0, 0], [22, 42, 0, 0, 0, 0, 0]),
    // 44: Jq >> both = b : A
    Conclude(Systems(SysRight), [14, 10, 11, 20, 28, 21, 0, 0, 0, 0], [1, 23, 30, 38, 0, 0, 0]),
    // 45: Jq >> b = both : A
    Conclude(Equality(TmEqSym), [25, 41, 28, 21, 0, 0, 0, 0, 0, 0], [44, 0, 0, 0, 0, 0, 0]),
    // 46: Jq >> a = both : A
    Conclude(Equality(TmEqTrans), [25, 19, 28, 41, 21, 0, 0, 0, 0, 0], [29, 45, 0, 0, 0, 0, 0]),
    // 47: J >> a = both : A
    Conclude(Equality(TmEqCover), [14, 10, 11, 19, 41, 21, 0, 0, 0, 0], [2, 39, 43, 46, 0, 0, 0]),
};

/// The rows of what it gives: equal, term.
pub static SIDE_TERM_GIVES: &[u16] = &[47, 39];
