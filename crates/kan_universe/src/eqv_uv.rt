//! Written by tools/write_recipes.py.

use recipes::Row::{Conclude, Derive, Field, Make, Part, Premise, Shift, Var};
use recipes::{Row, table};
use theory::CompRule::Comp;
use theory::ContextRule::{CtxName, CtxVar, SubForm, SubId, SubWk, SubWkFace, SubWkName};
use theory::EqualityRule::TmEqAbsurd;
use theory::InstanceRule::{TmSub, TmVar, TySub};
use theory::Op;
use theory::PiRule::Lam;
use theory::RuleName::{Composition, Contexts, Equality, Instances, Pi, Systems};
use theory::SystemRule::EmptyTm;

/// The equivalence along a line of types, as in the paper by Cohen et al., section 7.1: f, u and v.
/// Its parts are G E.
pub static EQV_UV: &[Row] = table! {
    Premise(0),
    Premise(1),
    Part(0),
    Conclude(Contexts(SubId), [2, 0, 0, 0, 0, 0, 0, 0, 0, 0], [0, 0, 0, 0, 0, 0, 0]),
    Shift(0),
    Make(Op::I0, [0, 0, 0, 0]),
    Conclude(Contexts(SubForm), [2, 4, 2, 5, 0, 0, 0, 0, 0, 0], [3, 0, 0, 0, 0, 0, 0]),
    Field(6, 1),
    Field(1, 0),
    Part(1),
    Conclude(Instances(TySub), [2, 7, 8, 9, 0, 0, 0, 0, 0, 0], [6, 1, 0, 0, 0, 0, 0]),
    Field(10, 1),
    Conclude(Contexts(CtxVar), [2, 11, 0, 0, 0, 0, 0, 0, 0, 0], [10, 0, 0, 0, 0, 0, 0]),
    Field(12, 0),
    Conclude(Contexts(CtxName), [13, 0, 0, 0, 0, 0, 0, 0, 0, 0], [12, 0, 0, 0, 0, 0, 0]),
    Conclude(Contexts(SubWk), [2, 4, 2, 11, 0, 0, 0, 0, 0, 0], [3, 10, 0, 0, 0, 0, 0]),
    Shift(1),
    Conclude(Contexts(SubWkName), [13, 16, 2, 0, 0, 0, 0, 0, 0, 0], [15, 0, 0, 0, 0, 0, 0]),
    Field(14, 0),
    Shift(2),
    Conclude(Contexts(SubWkName), [18, 19, 2, 0, 0, 0, 0, 0, 0, 0], [17, 0, 0, 0, 0, 0, 0]),
    Field(20, 0),
    Shift(3),
    Var(0),
    Conclude(Contexts(SubForm), [21, 22, 2, 23, 0, 0, 0, 0, 0, 0], [20, 0, 0, 0, 0, 0, 0]),
    Field(24, 1),
    Conclude(Instances(TySub), [21, 25, 8, 9, 0, 0, 0, 0, 0, 0], [24, 1, 0, 0, 0, 0, 0]),
    Conclude(Instances(TmVar), [2, 11, 0, 0, 0, 0, 0, 0, 0, 0], [10, 0, 0, 0, 0, 0, 0]),
    Conclude(Contexts(SubId), [13, 0, 0, 0, 0, 0, 0, 0, 0, 0], [12, 0, 0, 0, 0, 0, 0]),
    Conclude(Contexts(SubWkName), [13, 4, 13, 0, 0, 0, 0, 0, 0, 0], [28, 0, 0, 0, 0, 0, 0]),
    Field(27, 2),
    Conclude(Instances(TmSub), [18, 16, 13, 23, 30, 0, 0, 0, 0, 0], [29, 27, 0, 0, 0, 0, 0]),
    Field(26, 1),
    Var(1),
    // 34: line
    Derive(0, [18, 32, 33, 23, 0, 0, 0, 0, 0, 0],
        [14, 26, 31, 0, 0, 0, 0, 0, 0, 0, 0, 0, 0, 0, 0, 0]),
    Conclude(Contexts(SubForm), [18, 19, 2, 23, 0, 0, 0, 0, 0, 0], [17, 0, 0, 0, 0, 0, 0]),
    Field(37, 1),
    Conclude(Instances(TySub), [18, 38, 8, 9, 0, 0, 0, 0, 0, 0], [37, 1, 0, 0, 0, 0, 0]),
    Make(Op::F0, [0, 0, 0, 0]),
    Conclude(Contexts(SubWkFace), [13, 16, 2, 40, 0, 0, 0, 0, 0, 0], [15, 0, 0, 0, 0, 0, 0]),
    Field(41, 0),
    Conclude(Contexts(SubWkName), [42, 16, 2, 0, 0, 0, 0, 0, 0, 0], [41, 0, 0, 0, 0, 0, 0]),
    Field(43, 0),
    Conclude(Contexts(SubForm), [44, 19, 2, 23, 0, 0, 0, 0, 0, 0], [43, 0, 0, 0, 0, 0, 0]),
    Conclude(Instances(TySub), [44, 38, 8, 9, 0, 0, 0, 0, 0, 0], [45, 1, 0, 0, 0, 0, 0]),
    Field(34, 2),
    Conclude(Systems(EmptyTm), [44, 47, 0, 0, 0, 0, 0, 0, 0, 0], [46, 0, 0, 0, 0, 0, 0]),
    Conclude(Contexts(SubWkFace), [13, 4, 13, 40, 0, 0, 0, 0, 0, 0], [28, 0, 0, 0, 0, 0, 0]),
    Conclude(Instances(TmSub), [42, 4, 13, 23, 30, 0, 0, 0, 0, 0], [49, 27, 0, 0, 0, 0, 0]),
    Conclude(Contexts(SubForm), [42, 16, 2, 5, 0, 0, 0, 0, 0, 0], [41, 0, 0, 0, 0, 0, 0]),
    Field(51, 1),
    Conclude(Instances(TySub), [42, 52, 8, 9, 0, 0, 0, 0, 0, 0], [51, 1, 0, 0, 0, 0, 0]),
    Conclude(Systems(EmptyTm), [42, 30, 0, 0, 0, 0, 0, 0, 0, 0], [53, 0, 0, 0, 0, 0, 0]),
    Field(48, 1),
    Conclude(Equality(TmEqAbsurd), [42, 23, 55, 30, 0, 0, 0, 0, 0, 0], [50, 54, 0, 0, 0, 0, 0]),
    Conclude(Composition(Comp), [13, 47, 40, 55, 23, 0, 0, 0, 0, 0], [39, 48, 27, 56, 0, 0, 0]),
    Field(57, 1),
    Field(57, 2),
    // 60: lam E(0) (x. comp (i. E) f0 (i. empty) x) : pi E(0) (x. E(1))
    Conclude(Pi(Lam), [2, 11, 58, 59, 0, 0, 0, 0, 0, 0], [10, 57, 0, 0, 0, 0, 0]),
    Make(Op::I1, [0, 0, 0, 0]),
    Conclude(Contexts(SubForm), [2, 4, 2, 61, 0, 0, 0, 0, 0, 0], [3, 0, 0, 0, 0, 0, 0]),
    Field(62, 1),
    Conclude(Instances(TySub), [2, 63, 8, 9, 0, 0, 0, 0, 0, 0], [62, 1, 0, 0, 0, 0, 0]),
    Field(64, 1),
    Conclude(Contexts(CtxVar), [2, 65, 0, 0, 0, 0, 0, 0, 0, 0], [64, 0, 0, 0, 0, 0, 0]),
    Field(66, 0),
    Conclude(Contexts(CtxName), [67, 0, 0, 0, 0, 0, 0, 0, 0, 0], [66, 0, 0, 0, 0, 0, 0]),
    Conclude(Contexts(SubWk), [2, 4, 2, 65, 0, 0, 0, 0, 0, 0], [3, 64, 0, 0, 0, 0, 0]),
    Conclude(Contexts(SubWkName), [67, 16, 2, 0, 0, 0, 0, 0, 0, 0], [69, 0, 0, 0, 0, 0, 0]),
    Field(68, 0),
    Conclude(Contexts(SubWkName), [71, 19, 2, 0, 0, 0, 0, 0, 0, 0], [70, 0, 0, 0, 0, 0, 0]),
    Field(72, 0),
    Conclude(Contexts(SubForm), [73, 22, 2, 23, 0, 0, 0, 0, 0, 0], [72, 0, 0, 0, 0, 0, 0]),
    Conclude(Instances(TySub), [73, 25, 8, 9, 0, 0, 0, 0, 0, 0], [74, 1, 0, 0, 0, 0, 0]),
    Conclude(Instances(TmVar), [2, 65, 0, 0, 0, 0, 0, 0, 0, 0], [64, 0, 0, 0, 0, 0, 0]),
    Conclude(Contexts(SubId), [67, 0, 0, 0, 0, 0, 0, 0, 0, 0], [66, 0, 0, 0, 0, 0, 0]),
    Conclude(Contexts(SubWkName), [67, 4, 67, 0, 0, 0, 0, 0, 0, 0], [77, 0, 0, 0, 0, 0, 0]),
    Conclude(Instances(TmSub), [71, 16, 67, 23, 59, 0, 0, 0, 0, 0], [78, 76, 0, 0, 0, 0, 0]),
    // 80: back
    Derive(1, [71, 32, 33, 23, 0, 0, 0, 0, 0, 0],
        [68, 75, 79, 0, 0, 0, 0, 0, 0, 0, 0, 0, 0, 0, 0, 0]),
};

/// The rows of what it gives: u_typing, u_zero, u_one, f, v_typing, v_one.
pub static EQV_UV_GIVES: &[u16] = &[34, 35, 36, 60, 80, 81];
