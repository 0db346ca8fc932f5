//! Written by tools/write_recipes.py.

use recipes::Row::{
    Conclude, Derive, Instance, Make, Part, Premise, Push, Shift, Var, WithFace, WithName,
};
use recipes::{Row, table};
use theory::CompRule::{Comp, CompCong, CompFace};
use theory::ContextRule::{CtxFace, CtxName, SubFace, SubForm, SubId, SubWkFace, SubWkName};
use theory::EqualityRule::{TmEqRefl, TmEqSym, TmEqTrans, TyEqRefl};
use theory::InstanceRule::{TmEqSub, TmSub, TySub};
use theory::Op;
use theory::PathRule::{PLam, PathBeta};
use theory::PiRule::{App, AppCong};
use theory::RuleName::{Composition, Contexts, Equality, Instances, Paths, Pi};

/// Preservation: a path from the composition of images to the image of the composition, which is
/// constant where p is.
/// Its parts are G T A f p t t0.
pub static PRES: &[Row] = table! {
    // 0: ctx G
    Premise(0),
    // 1: G.I >> T
    Premise(1),
    // 2: G.I >> A
    Premise(2),
    // 3: G.I >> f : function
    Premise(3),
    // 4: G.{p}.I >> t : T
    Premise(4),
    // 5: G >> t0 : T{i0}
    Premise(5),
    // 6: G.{p} >> t0 = t{i0} : T{i0}
    Premise(6),
    Part(0),
    // 8: ctx G.I
    Conclude(Contexts(CtxName), [7, 0, 0, 0, 0, 0, 0, 0, 0, 0], [0, 0, 0, 0, 0, 0, 0]),
    // 9: id : G to G
    Conclude(Contexts(SubId), [7, 0, 0, 0, 0, 0, 0, 0, 0, 0], [0, 0, 0, 0, 0, 0, 0]),
    Shift(0),
    // 11: up : G.I to G
    Conclude(Contexts(SubWkName), [7, 10, 7, 0, 0, 0, 0, 0, 0, 0], [9, 0, 0, 0, 0, 0, 0]),
    WithName(7),
    Shift(1),
    // 14: shift 2 : JJ to G
    Conclude(Contexts(SubWkName), [12, 13, 7, 0, 0, 0, 0, 0, 0, 0], [11, 0, 0, 0, 0, 0, 0]),
    WithName(12),
    Shift(2),
    Var(0),
    // 18: aside : JJ to G.I
    Conclude(Contexts(SubForm), [15, 16, 7, 17, 0, 0, 0, 0, 0, 0], [14, 0, 0, 0, 0, 0, 0]),
    Push(16, 17),
    Part(1),
    // 21: JJ >> T_aside
    Conclude(Instances(TySub), [15, 19, 12, 20, 0, 0, 0, 0, 0, 0], [18, 1, 0, 0, 0, 0, 0]),
    Part(4),
    Instance(22, 13),
    // 24: up : JP to G
    Conclude(Contexts(SubWkFace), [12, 13, 7, 23, 0, 0, 0, 0, 0, 0], [11, 0, 0, 0, 0, 0, 0]),
    WithFace(12, 23),
    // 26: shift 2 : JPJ to G
    Conclude(Contexts(SubWkName), [25, 13, 7, 0, 0, 0, 0, 0, 0, 0], [24, 0, 0, 0, 0, 0, 0]),
    WithName(25),
    // 28: shift 2 : JPJ to P
    Conclude(Contexts(SubFace), [27, 16, 7, 22, 0, 0, 0, 0, 0, 0], [26, 0, 0, 0, 0, 0, 0]),
    WithFace(7, 22),
    // 30: aside : JPJ to PJ
    Conclude(Contexts(SubForm), [27, 16, 29, 17, 0, 0, 0, 0, 0, 0], [28, 0, 0, 0, 0, 0, 0]),
    WithName(29),
    Part(5),
    // 33: JPJ >> t_aside : T_aside
    Conclude(Instances(TmSub), [27, 19, 31, 32, 20, 0, 0, 0, 0, 0], [30, 4, 0, 0, 0, 0, 0]),
    Part(6),
    Make(Op::I0, [0, 0, 0, 0]),
    Push(10, 35),
    Instance(20, 36),
    // 38: G.I >> t0+ : T[to_0j]
    Conclude(Instances(TmSub), [12, 13, 7, 34, 37, 0, 0, 0, 0, 0], [11, 5, 0, 0, 0, 0, 0]),
    // 39: up : JP to P
    Conclude(Contexts(SubFace), [25, 13, 7, 22, 0, 0, 0, 0, 0, 0], [24, 0, 0, 0, 0, 0, 0]),
    Instance(32, 36),
    // 41: JP >> t0+ = t{i0}[up] : T[to_0j]
    Conclude(Instances(TmEqSub), [25, 13, 29, 34, 40, 37, 0, 0, 0, 0], [39, 6, 0, 0, 0, 0, 0]),
    Instance(20, 19),
    Instance(32, 19),
    Instance(34, 13),
    // 45: fill
    Derive(0, [12, 42, 23, 43, 44, 17, 0, 0, 0, 0],
        [8, 21, 33, 38, 41, 0, 0, 0, 0, 0, 0, 0, 0, 0, 0, 0]),
    Part(2),
    // 50: JJ >> A_aside
    Conclude(Instances(TySub), [15, 19, 12, 49, 0, 0, 0, 0, 0, 0], [18, 2, 0, 0, 0, 0, 0]),
    Make(Op::Eq1, [17, 0, 0, 0]),
    Make(Op::Join, [23, 51, 0, 0]),
    // 53: up : JF to G
    Conclude(Contexts(SubWkFace), [12, 13, 7, 52, 0, 0, 0, 0, 0, 0], [11, 0, 0, 0, 0, 0, 0]),
    WithFace(12, 52),
    // 55: shift 2 : JFJ to G
    Conclude(Contexts(SubWkName), [54, 13, 7, 0, 0, 0, 0, 0, 0, 0], [53, 0, 0, 0, 0, 0, 0]),
    WithName(54),
    // 57: aside : JFJ to G.I
    Conclude(Contexts(SubForm), [56, 16, 7, 17, 0, 0, 0, 0, 0, 0], [55, 0, 0, 0, 0, 0, 0]),
    Part(3),
    Instance(49, 13),
    Make(Op::Pi, [20, 59, 0, 0]),
    // 61: JFJ >> f[aside] : function[aside]
    Conclude(Instances(TmSub), [56, 19, 12, 58, 60, 0, 0, 0, 0, 0], [57, 3, 0, 0, 0, 0, 0]),
    Var(1),
    Make(Op::Min, [62, 17, 0, 0]),
    Push(16, 63),
    Instance(20, 64),
    Make(Op::Eq0, [17, 0, 0, 0]),
    Make(Op::F0, [0, 0, 0, 0]),
    Make(Op::Join, [66, 67, 0, 0]),
    Make(Op::Join, [23, 68, 0, 0]),
    Instance(22, 16),
    Make(Op::Eq0, [62, 0, 0, 0]),
    Make(Op::Join, [71, 67, 0, 0]),
    Instance(32, 64),
    Instance(34, 16),
    Make(Op::Empty, [0, 0, 0, 0]),
    Make(Op::Sys, [71, 67, 74, 75]),
    Make(Op::Sys, [70, 72, 73, 76]),
    Make(Op::Comp, [65, 69, 77, 44]),
    // 79: JFJ >> filled_aside : T_aside
    Conclude(Instances(TmSub), [56, 19, 12, 78, 20, 0, 0, 0, 0, 0], [57, 45, 0, 0, 0, 0, 0]),
    Instance(58, 19),
    Instance(78, 19),
    Shift(3),
    Push(82, 62),
    Instance(49, 83),
    // 85: JFJ >> image : A_aside
    Conclude(Pi(App), [56, 80, 81, 42, 84, 0, 0, 0, 0, 0], [61, 79, 0, 0, 0, 0, 0]),
    // 86: to_0j : G.I to G.I
    Conclude(Contexts(SubForm), [12, 13, 7, 35, 0, 0, 0, 0, 0, 0], [11, 0, 0, 0, 0, 0, 0]),
    Push(13, 35),
    // 88: G.I >> f[to_0j] : function[to_0j]
    Conclude(Instances(TmSub), [12, 87, 12, 58, 60, 0, 0, 0, 0, 0], [86, 3, 0, 0, 0, 0, 0]),
    Instance(58, 87),
    Instance(20, 87),
    Push(16, 35),
    Instance(49, 91),
    // 93: G.I >> image_0 : A[to_0j]
    Conclude(Pi(App), [12, 89, 44, 90, 92, 0, 0, 0, 0, 0], [88, 38, 0, 0, 0, 0, 0]),
    // 94: to_0j : JF to G.I
    Conclude(Contexts(SubForm), [54, 13, 7, 35, 0, 0, 0, 0, 0, 0], [53, 0, 0, 0, 0, 0, 0]),
    // 95: JF >> f[to_0j] : function[to_0j]
    Conclude(Instances(TmSub), [54, 87, 12, 58, 60, 0, 0, 0, 0, 0], [94, 3, 0, 0, 0, 0, 0]),
    Instance(60, 87),
    // 97: JF >> f[to_0j] = f[to_0j] : function[to_0j]
    Conclude(Equality(TmEqRefl), [54, 89, 96, 0, 0, 0, 0, 0, 0, 0], [95, 0, 0, 0, 0, 0, 0]),
    // 98: to_0j : JF to Z
    Conclude(Contexts(SubFace), [54, 87, 12, 66, 0, 0, 0, 0, 0, 0], [94, 0, 0, 0, 0, 0, 0]),
    WithFace(12, 66),
    // 100: JF >> filled_aside{i0} = t0+ : T[to_0j]
    Conclude(Instances(TmEqSub), [54, 87, 99, 78, 44, 20, 0, 0, 0, 0], [98, 46, 0, 0, 0, 0, 0]),
    Instance(81, 36),
    // 102: JF >> t0+ = filled_aside{i0} : T[to_0j]
    Conclude(Equality(TmEqSym), [54, 101, 44, 90, 0, 0, 0, 0, 0, 0], [100, 0, 0, 0, 0, 0, 0]),
    // 103: JF >> image_0 = app f[to_0j] filled_aside{i0} : A[to_0j]
    Conclude(Pi(AppCong), [54, 89, 89, 44, 101, 90, 92, 0, 0, 0], [97, 102, 0, 0, 0, 0, 0]),
    Instance(49, 19),
    Make(Op::App, [80, 81, 0, 0]),
    Make(Op::App, [89, 44, 0, 0]),
    // 107: G.I >> square : A[to_1j]
    Conclude(Composition(Comp), [12, 104, 52, 105, 106, 0, 0, 0, 0, 0], [50, 85, 93, 103, 0, 0, 0]),
    // 108: G.I >> A = A
    Conclude(Equality(TyEqRefl), [12, 49, 0, 0, 0, 0, 0, 0, 0, 0], [2, 0, 0, 0, 0, 0, 0]),
    Instance(52, 36),
    // 110: id : F to G
    Conclude(Contexts(SubWkFace), [7, 10, 7, 109, 0, 0, 0, 0, 0, 0], [9, 0, 0, 0, 0, 0, 0]),
    WithFace(7, 109),
    // 112: up : FJ to G
    Conclude(Contexts(SubWkName), [111, 10, 7, 0, 0, 0, 0, 0, 0, 0], [110, 0, 0, 0, 0, 0, 0]),
    WithName(111),
    // 114: push up j : FJ to G.I
    Conclude(Contexts(SubForm), [113, 13, 7, 17, 0, 0, 0, 0, 0, 0], [112, 0, 0, 0, 0, 0, 0]),
    Push(13, 17),
    // 116: FJ >> f : function
    Conclude(Instances(TmSub), [113, 115, 12, 58, 60, 0, 0, 0, 0, 0], [114, 3, 0, 0, 0, 0, 0]),
    // 117: FJ >> filled : T
    Conclude(Instances(TmSub), [113, 115, 12, 78, 20, 0, 0, 0, 0, 0], [114, 45, 0, 0, 0, 0, 0]),
    // 118: FJ >> images : A
    Conclude(Pi(App), [113, 58, 78, 20, 59, 0, 0, 0, 0, 0], [116, 117, 0, 0, 0, 0, 0]),
    // 119: to_0 : G to G.I
    Conclude(Contexts(SubForm), [7, 10, 7, 35, 0, 0, 0, 0, 0, 0], [9, 0, 0, 0, 0, 0, 0]),
    // 120: G >> f{i0} : function{i0}
    Conclude(Instances(TmSub), [7, 36, 12, 58, 60, 0, 0, 0, 0, 0], [119, 3, 0, 0, 0, 0, 0]),
    Instance(58, 36),
    Instance(49, 87),
    // 123: G >> image_t0 : A{i0}
    Conclude(Pi(App), [7, 121, 34, 37, 122, 0, 0, 0, 0, 0], [120, 5, 0, 0, 0, 0, 0]),
    // 124: to_0 : F to G.I
    Conclude(Contexts(SubForm), [111, 10, 7, 35, 0, 0, 0, 0, 0, 0], [110, 0, 0, 0, 0, 0, 0]),
    // 125: F >> f{i0} : function{i0}
    Conclude(Instances(TmSub), [111, 36, 12, 58, 60, 0, 0, 0, 0, 0], [124, 3, 0, 0, 0, 0, 0]),
    Instance(60, 36),
    // 127: F >> f{i0} = f{i0} : function{i0}
    Conclude(Equality(TmEqRefl), [111, 121, 126, 0, 0, 0, 0, 0, 0, 0], [125, 0, 0, 0, 0, 0, 0]),
    // 128: to_0 : F to Z
    Conclude(Contexts(SubFace), [111, 36, 12, 66, 0, 0, 0, 0, 0, 0], [124, 0, 0, 0, 0, 0, 0]),
    // 129: F >> filled{i0} = t0 : T{i0}
    Conclude(Instances(TmEqSub), [111, 36, 99, 78, 44, 20, 0, 0, 0, 0], [128, 46, 0, 0, 0, 0, 0]),
    Instance(78, 36),
    // 131: F >> t0 = filled{i0} : T{i0}
    Conclude(Equality(TmEqSym), [111, 130, 34, 37, 0, 0, 0, 0, 0, 0], [129, 0, 0, 0, 0, 0, 0]),
    // 132: F >> image_t0 = app f{i0} filled{i0} : A{i0}
    Conclude(Pi(AppCong), [111, 121, 121, 34, 130, 37, 122, 0, 0, 0], [127, 131, 0, 0, 0, 0, 0]),
    // 133: FJ >> f = f : function
    Conclude(Equality(TmEqRefl), [113, 58, 60, 0, 0, 0, 0, 0, 0, 0], [116, 0, 0, 0, 0, 0, 0]),
    // 134: push up j : FJ to JP
    Conclude(Contexts(SubFace), [113, 115, 12, 23, 0, 0, 0, 0, 0, 0], [114, 0, 0, 0, 0, 0, 0]),
    // 135: FJ >> filled = t : T
    Conclude(Instances(TmEqSub), [113, 115, 25, 78, 32, 20, 0, 0, 0, 0], [134, 48, 0, 0, 0, 0, 0]),
    // 136: FJ >> images = image_t : A
    Conclude(Pi(AppCong), [113, 58, 58, 78, 32, 20, 59, 0, 0, 0], [133, 135, 0, 0, 0, 0, 0]),
    Instance(106, 36),
    Instance(49, 36),
    // 139: G >> image_t0 = image_t0 : A{i0}
    Conclude(Equality(TmEqRefl), [7, 137, 138, 0, 0, 0, 0, 0, 0, 0], [123, 0, 0, 0, 0, 0, 0]),
    Make(Op::App, [58, 78, 0, 0]),
    Make(Op::App, [58, 32, 0, 0]),
    // 142: G >> square{i0} = composed : A{i1}
    Conclude(Composition(CompCong), [7, 49, 49, 109, 22, 140, 141, 137, 137, 0],
        [108, 118, 123, 132, 136, 139, 0]),
    // 143: JF >> square = image{i1} : A[to_1j]
    Conclude(Composition(CompFace), [12, 104, 52, 105, 106, 0, 0, 0, 0, 0],
        [50, 85, 93, 103, 0, 0, 0]),
    Make(Op::I1, [0, 0, 0, 0]),
    // 145: to_1 : G to G.I
    Conclude(Contexts(SubForm), [7, 10, 7, 144, 0, 0, 0, 0, 0, 0], [9, 0, 0, 0, 0, 0, 0]),
    Push(10, 144),
    // 147: to_1 : G to JF
    Conclude(Contexts(SubFace), [7, 146, 12, 52, 0, 0, 0, 0, 0, 0], [145, 0, 0, 0, 0, 0, 0]),
    Make(Op::Comp, [104, 52, 105, 106]),
    Instance(105, 146),
    Push(13, 144),
    Instance(49, 150),
    // 152: G >> square{i1} = image{i1}{i1} : A{i1}
    Conclude(Instances(TmEqSub), [7, 146, 54, 148, 149, 151, 0, 0, 0, 0],
        [147, 143, 0, 0, 0, 0, 0]),
    // 153: G >> f{i1} : function{i1}
    Conclude(Instances(TmSub), [7, 146, 12, 58, 60, 0, 0, 0, 0, 0], [145, 3, 0, 0, 0, 0, 0]),
    Instance(58, 146),
    Instance(60, 146),
    // 156: G >> f{i1} = f{i1} : function{i1}
    Conclude(Equality(TmEqRefl), [7, 154, 155, 0, 0, 0, 0, 0, 0, 0], [153, 0, 0, 0, 0, 0, 0]),
    // 157: to_1 : G to O
    Conclude(Contexts(SubFace), [7, 146, 12, 51, 0, 0, 0, 0, 0, 0], [145, 0, 0, 0, 0, 0, 0]),
    WithFace(12, 51),
    Make(Op::Comp, [42, 23, 43, 44]),
    // 160: G >> filled{i1} = whole : T{i1}
    Conclude(Instances(TmEqSub), [7, 146, 158, 78, 159, 20, 0, 0, 0, 0], [157, 47, 0, 0, 0, 0, 0]),
    Instance(78, 146),
    Instance(159, 146),
    Instance(20, 146),
    // 164: G >> image{i1}{i1} = image_whole : A{i1}
    Conclude(Pi(AppCong), [7, 154, 154, 161, 162, 163, 151, 0, 0, 0], [156, 160, 0, 0, 0, 0, 0]),
    Instance(148, 146),
    Instance(149, 146),
    Make(Op::App, [154, 162, 0, 0]),
    Instance(49, 146),
    // 169: G >> square{i1} = image_whole : A{i1}
    Conclude(Equality(TmEqTrans), [7, 165, 166, 167, 168, 0, 0, 0, 0, 0],
        [152, 164, 0, 0, 0, 0, 0]),
    Make(Op::Comp, [49, 22, 141, 137]),
    // 171: G >> preserved : pathp A[to_1j] composed image_whole
    Conclude(Paths(PLam), [7, 151, 148, 170, 167, 0, 0, 0, 0, 0], [107, 142, 169, 0, 0, 0, 0]),
    // 172: G >> papp preserved i0 = square{i0} : A{i1}
    Conclude(Paths(PathBeta), [7, 151, 148, 35, 0, 0, 0, 0, 0, 0], [107, 0, 0, 0, 0, 0, 0]),
    Make(Op::PLam, [148, 0, 0, 0]),
    Make(Op::PApp, [173, 35, 0, 0]),
    Instance(148, 36),
    // 176: G >> papp preserved i0 = composed : A{i1}
    Conclude(Equality(TmEqTrans), [7, 174, 175, 170, 168, 0, 0, 0, 0, 0],
        [172, 142, 0, 0, 0, 0, 0]),
    // 177: G >> papp preserved i1 = square{i1} : A{i1}
    Conclude(Paths(PathBeta), [7, 151, 148, 144, 0, 0, 0, 0, 0, 0], [107, 0, 0, 0, 0, 0, 0]),
    Make(Op::PApp, [173, 144, 0, 0]),
    // 179: G >> papp preserved i1 = image_whole : A{i1}
    Conclude(Equality(TmEqTrans), [7, 178, 165, 167, 168, 0, 0, 0, 0, 0],
        [177, 169, 0, 0, 0, 0, 0]),
    // 180: id : P to G
    Conclude(Contexts(SubWkFace), [7, 10, 7, 22, 0, 0, 0, 0, 0, 0], [9, 0, 0, 0, 0, 0, 0]),
    // 181: up : PJ to G
    Conclude(Contexts(SubWkName), [29, 10, 7, 0, 0, 0, 0, 0, 0, 0], [180, 0, 0, 0, 0, 0, 0]),
    // 182: shift 2 : PJJ to G
    Conclude(Contexts(SubWkName), [31, 13, 7, 0, 0, 0, 0, 0, 0, 0], [181, 0, 0, 0, 0, 0, 0]),
    WithName(31),
    // 184: aside : PJJ to G.I
    Conclude(Contexts(SubForm), [183, 16, 7, 17, 0, 0, 0, 0, 0, 0], [182, 0, 0, 0, 0, 0, 0]),
    // 185: PJJ >> square[aside] : A[push (shift 2) i1]
    Conclude(Instances(TmSub), [183, 19, 12, 148, 151, 0, 0, 0, 0, 0], [184, 107, 0, 0, 0, 0, 0]),
    Push(16, 144),
    Instance(49, 186),
    Instance(148, 19),
    // 189: PJ >> papp preserved+ j = square : A[to_1j]
    Conclude(Paths(PathBeta), [31, 187, 188, 17, 0, 0, 0, 0, 0, 0], [185, 0, 0, 0, 0, 0, 0]),
    // 190: push up j : PJ to G.I
    Conclude(Contexts(SubForm), [31, 13, 7, 17, 0, 0, 0, 0, 0, 0], [181, 0, 0, 0, 0, 0, 0]),
    // 191: push up j : PJ to JF
    Conclude(Contexts(SubFace), [31, 115, 12, 52, 0, 0, 0, 0, 0, 0], [190, 0, 0, 0, 0, 0, 0]),
    // 192: PJ >> square = image{i1} : A[to_1j]
    Conclude(Instances(TmEqSub), [31, 115, 54, 148, 149, 151, 0, 0, 0, 0],
        [191, 143, 0, 0, 0, 0, 0]),
    // 193: to_1j : PJ to G.I
    Conclude(Contexts(SubForm), [31, 13, 7, 144, 0, 0, 0, 0, 0, 0], [181, 0, 0, 0, 0, 0, 0]),
    // 194: PJ >> f[to_1j] : function[to_1j]
    Conclude(Instances(TmSub), [31, 150, 12, 58, 60, 0, 0, 0, 0, 0], [193, 3, 0, 0, 0, 0, 0]),
    Instance(58, 150),
    Instance(60, 150),
    // 197: PJ >> f[to_1j] = f[to_1j] : function[to_1j]
    Conclude(Equality(TmEqRefl), [31, 195, 196, 0, 0, 0, 0, 0, 0, 0], [194, 0, 0, 0, 0, 0, 0]),
    // 198: to_1j : PJ to O
    Conclude(Contexts(SubFace), [31, 150, 12, 51, 0, 0, 0, 0, 0, 0], [193, 0, 0, 0, 0, 0, 0]),
    // 199: PJ >> filled_aside{i1} = composed_aside : T[to_1j]
    Conclude(Instances(TmEqSub), [31, 150, 158, 78, 159, 20, 0, 0, 0, 0], [198, 47, 0, 0, 0, 0, 0]),
    // 200: P >> whole = t{i1} : T{i1}
    Conclude(Composition(CompFace), [7, 20, 22, 32, 34, 0, 0, 0, 0, 0], [1, 4, 5, 6, 0, 0, 0]),
    // 201: ctx P
    Conclude(Contexts(CtxFace), [7, 22, 0, 0, 0, 0, 0, 0, 0, 0], [0, 0, 0, 0, 0, 0, 0]),
    // 202: id : P to P
    Conclude(Contexts(SubId), [29, 0, 0, 0, 0, 0, 0, 0, 0, 0], [201, 0, 0, 0, 0, 0, 0]),
    // 203: up : PJ to P
    Conclude(Contexts(SubWkName), [29, 10, 29, 0, 0, 0, 0, 0, 0, 0], [202, 0, 0, 0, 0, 0, 0]),
    Instance(32, 146),
    // 205: PJ >> composed_aside = t[to_1j] : T[to_1j]
    Conclude(Instances(TmEqSub), [31, 13, 29, 162, 204, 163, 0, 0, 0, 0],
        [203, 200, 0, 0, 0, 0, 0]),
    Instance(81, 146),
    Instance(32, 150),
    Instance(20, 150),
    // 209: PJ >> filled_aside{i1} = t[to_1j] : T[to_1j]
    Conclude(Equality(TmEqTrans), [31, 206, 159, 207, 208, 0, 0, 0, 0, 0],
        [199, 205, 0, 0, 0, 0, 0]),
    // 210: PJ >> image{i1} = app f[to_1j] t[to_1j] : A[to_1j]
    Conclude(Pi(AppCong), [31, 195, 195, 206, 207, 208, 187, 0, 0, 0], [197, 209, 0, 0, 0, 0, 0]),
    Make(Op::App, [195, 207, 0, 0]),
    // 212: PJ >> square = app f[to_1j] t[to_1j] : A[to_1j]
    Conclude(Equality(TmEqTrans), [31, 148, 149, 211, 151, 0, 0, 0, 0, 0],
        [192, 210, 0, 0, 0, 0, 0]),
    Instance(173, 13),
    Make(Op::PApp, [213, 17, 0, 0]),
    // 215: PJ >> papp preserved+ j = app f[to_1j] t[to_1j] : A[to_1j]
    Conclude(Equality(TmEqTrans), [31, 214, 148, 211, 151, 0, 0, 0, 0, 0],
        [189, 212, 0, 0, 0, 0, 0]),
};

/// The rows of what it gives: typing, zero, one, face.
pub static PRES_GIVES: &[u16] = &[171, 176, 179, 215];
