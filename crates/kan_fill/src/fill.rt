//! Written by tools/write_recipes.py.

use recipes::Row::{Conclude, Instance, Make, Part, Premise, Push, Shift, Var, WithFace, WithName};
use recipes::{Row, table};
use theory::CompRule::{Comp, CompCong, CompFace};
use theory::ContextRule::{CtxFace, SubFace, SubForm, SubId, SubWkFace, SubWkName};
use theory::EqualityRule::{
    TmConv, TmEqAbsurd, TmEqConv, TmEqCover, TmEqRefl, TmEqSym, TmEqTrans, TyEqAbsurd,
};
use theory::InstanceRule::{TmEqSub, TmInt, TmSub, TyInt, TySub};
use theory::Op;
use theory::RuleName::{Composition, Contexts, Equality, Instances, Systems};
use theory::SystemRule::{EmptyTm, SysLeft, SysRight, SysTm};

/// Filling: `comp` along the line `j. A{min r j}`, which is a at r = 0, the composition at r = 1,
/// and the side b{r} where p is.
/// Its parts are G A p b a r.
pub static FILL: &[Row] = table! {
    // 0: ctx G
    Premise(0),
    // 1: G.I >> A
    Premise(1),
    // 2: G.{p}.I >> b : A
    Premise(2),
    // 3: G >> a : A{i0}
    Premise(3),
    // 4: G.{p} >> a = b{i0} : A{i0}
    Premise(4),
    Part(0),
    // 6: id : G to G
    Conclude(Contexts(SubId), [5, 0, 0, 0, 0, 0, 0, 0, 0, 0], [0, 0, 0, 0, 0, 0, 0]),
    Shift(0),
    // 8: up : G.I to G
    Conclude(Contexts(SubWkName), [5, 7, 5, 0, 0, 0, 0, 0, 0, 0], [6, 0, 0, 0, 0, 0, 0]),
    WithName(5),
    Shift(1),
    Part(5),
    Instance(11, 10),
    Var(0),
    Make(Op::Min, [12, 13, 0, 0]),
    // 15: to_m : G.I to G.I
    Conclude(Contexts(SubForm), [9, 10, 5, 14, 0, 0, 0, 0, 0, 0], [8, 0, 0, 0, 0, 0, 0]),
    Push(10, 14),
    Part(1),
    // 18: G.I >> line
    Conclude(Instances(TySub), [9, 16, 9, 17, 0, 0, 0, 0, 0, 0], [15, 1, 0, 0, 0, 0, 0]),
    Part(2),
    Make(Op::Eq0, [11, 0, 0, 0]),
    Make(Op::F0, [0, 0, 0, 0]),
    Make(Op::Join, [20, 21, 0, 0]),
    Make(Op::Join, [19, 22, 0, 0]),
    // 24: id : C to G
    Conclude(Contexts(SubWkFace), [5, 7, 5, 23, 0, 0, 0, 0, 0, 0], [6, 0, 0, 0, 0, 0, 0]),
    WithFace(5, 23),
    // 26: up : CJ to G
    Conclude(Contexts(SubWkName), [25, 7, 5, 0, 0, 0, 0, 0, 0, 0], [24, 0, 0, 0, 0, 0, 0]),
    WithName(25),
    // 28: to_m : CJ to G.I
    Conclude(Contexts(SubForm), [27, 10, 5, 14, 0, 0, 0, 0, 0, 0], [26, 0, 0, 0, 0, 0, 0]),
    // 29: CJ >> line
    Conclude(Instances(TySub), [27, 16, 9, 17, 0, 0, 0, 0, 0, 0], [28, 1, 0, 0, 0, 0, 0]),
    Instance(19, 10),
    // 31: up : CP to G
    Conclude(Contexts(SubWkFace), [27, 10, 5, 30, 0, 0, 0, 0, 0, 0], [26, 0, 0, 0, 0, 0, 0]),
    WithFace(27, 30),
    // 33: up : CP to P
    Conclude(Contexts(SubFace), [32, 10, 5, 19, 0, 0, 0, 0, 0, 0], [31, 0, 0, 0, 0, 0, 0]),
    WithFace(5, 19),
    // 35: to_m : CP to PJ
    Conclude(Contexts(SubForm), [32, 10, 34, 14, 0, 0, 0, 0, 0, 0], [33, 0, 0, 0, 0, 0, 0]),
    WithName(34),
    Part(3),
    // 38: CP >> side : line
    Conclude(Instances(TmSub), [32, 16, 36, 37, 17, 0, 0, 0, 0, 0], [35, 2, 0, 0, 0, 0, 0]),
    Make(Op::Eq0, [12, 0, 0, 0]),
    Make(Op::Join, [39, 21, 0, 0]),
    // 41: up : CR to G
    Conclude(Contexts(SubWkFace), [27, 10, 5, 40, 0, 0, 0, 0, 0, 0], [26, 0, 0, 0, 0, 0, 0]),
    WithFace(27, 40),
    // 43: to_m : CR to G.I
    Conclude(Contexts(SubForm), [42, 10, 5, 14, 0, 0, 0, 0, 0, 0], [41, 0, 0, 0, 0, 0, 0]),
    // 44: CR >> line
    Conclude(Instances(TySub), [42, 16, 9, 17, 0, 0, 0, 0, 0, 0], [43, 1, 0, 0, 0, 0, 0]),
    // 45: up : CZ to G
    Conclude(Contexts(SubWkFace), [42, 10, 5, 39, 0, 0, 0, 0, 0, 0], [41, 0, 0, 0, 0, 0, 0]),
    WithFace(42, 39),
    Part(4),
    Make(Op::I0, [0, 0, 0, 0]),
    Push(7, 48),
    Instance(17, 49),
    // 51: CZ >> a+ : A{i0}+
    Conclude(Instances(TmSub), [46, 10, 5, 47, 50, 0, 0, 0, 0, 0], [45, 3, 0, 0, 0, 0, 0]),
    // 52: to_0j : CZ to G.I
    Conclude(Contexts(SubForm), [46, 10, 5, 48, 0, 0, 0, 0, 0, 0], [45, 0, 0, 0, 0, 0, 0]),
    // 53: to_m : CZ to G.I
    Conclude(Contexts(SubForm), [46, 10, 5, 14, 0, 0, 0, 0, 0, 0], [45, 0, 0, 0, 0, 0, 0]),
    Push(10, 48),
    // 55: CZ >> A[to_0j] = line
    Conclude(Instances(TyInt), [46, 54, 16, 9, 17, 0, 0, 0, 0, 0], [52, 53, 1, 0, 0, 0, 0]),
    Instance(47, 10),
    Instance(17, 54),
    Instance(17, 16),
    // 59: CZ >> a+ : line
    Conclude(Equality(TmConv), [46, 56, 57, 58, 0, 0, 0, 0, 0, 0], [51, 55, 0, 0, 0, 0, 0]),
    // 60: up : CE to G
    Conclude(Contexts(SubWkFace), [42, 10, 5, 21, 0, 0, 0, 0, 0, 0], [41, 0, 0, 0, 0, 0, 0]),
    WithFace(42, 21),
    // 62: to_m : CE to G.I
    Conclude(Contexts(SubForm), [61, 10, 5, 14, 0, 0, 0, 0, 0, 0], [60, 0, 0, 0, 0, 0, 0]),
    // 63: CE >> line
    Conclude(Instances(TySub), [61, 16, 9, 17, 0, 0, 0, 0, 0, 0], [62, 1, 0, 0, 0, 0, 0]),
    // 64: CE >> empty : line
    Conclude(Systems(EmptyTm), [61, 58, 0, 0, 0, 0, 0, 0, 0, 0], [63, 0, 0, 0, 0, 0, 0]),
    // 65: up : CZE to G
    Conclude(Contexts(SubWkFace), [46, 10, 5, 21, 0, 0, 0, 0, 0, 0], [45, 0, 0, 0, 0, 0, 0]),
    WithFace(46, 21),
    // 67: CZE >> a+ : A{i0}+
    Conclude(Instances(TmSub), [66, 10, 5, 47, 50, 0, 0, 0, 0, 0], [65, 3, 0, 0, 0, 0, 0]),
    // 68: to_0j : CZE to G.I
    Conclude(Contexts(SubForm), [66, 10, 5, 48, 0, 0, 0, 0, 0, 0], [65, 0, 0, 0, 0, 0, 0]),
    // 69: CZE >> A[to_0j]
    Conclude(Instances(TySub), [66, 54, 9, 17, 0, 0, 0, 0, 0, 0], [68, 1, 0, 0, 0, 0, 0]),
    // 70: to_m : CZE to G.I
    Conclude(Contexts(SubForm), [66, 10, 5, 14, 0, 0, 0, 0, 0, 0], [65, 0, 0, 0, 0, 0, 0]),
    // 71: CZE >> line
    Conclude(Instances(TySub), [66, 16, 9, 17, 0, 0, 0, 0, 0, 0], [70, 1, 0, 0, 0, 0, 0]),
    // 72: CZE >> A[to_0j] = line
    Conclude(Equality(TyEqAbsurd), [66, 57, 58, 0, 0, 0, 0, 0, 0, 0], [69, 71, 0, 0, 0, 0, 0]),
    // 73: CZE >> a+ : line
    Conclude(Equality(TmConv), [66, 56, 57, 58, 0, 0, 0, 0, 0, 0], [67, 72, 0, 0, 0, 0, 0]),
    // 74: CZE >> empty : line
    Conclude(Systems(EmptyTm), [66, 58, 0, 0, 0, 0, 0, 0, 0, 0], [71, 0, 0, 0, 0, 0, 0]),
    Make(Op::Empty, [0, 0, 0, 0]),
    // 76: CZE >> a+ = empty : line
    Conclude(Equality(TmEqAbsurd), [66, 56, 75, 58, 0, 0, 0, 0, 0, 0], [73, 74, 0, 0, 0, 0, 0]),
    // 77: CR >> start : line
    Conclude(Systems(SysTm), [42, 39, 21, 56, 75, 58, 0, 0, 0, 0], [44, 59, 64, 76, 0, 0, 0]),
    // 78: up : CPR to G
    Conclude(Contexts(SubWkFace), [32, 10, 5, 40, 0, 0, 0, 0, 0, 0], [31, 0, 0, 0, 0, 0, 0]),
    WithFace(32, 40),
    // 80: to_m : CPR to G.I
    Conclude(Contexts(SubForm), [79, 10, 5, 14, 0, 0, 0, 0, 0, 0], [78, 0, 0, 0, 0, 0, 0]),
    // 81: CZ >> start = a+ : line
    Conclude(Systems(SysLeft), [42, 39, 21, 56, 75, 58, 0, 0, 0, 0], [44, 59, 64, 76, 0, 0, 0]),
    // 82: ctx C
    Conclude(Contexts(CtxFace), [5, 23, 0, 0, 0, 0, 0, 0, 0, 0], [0, 0, 0, 0, 0, 0, 0]),
    // 83: id : C to C
    Conclude(Contexts(SubId), [25, 0, 0, 0, 0, 0, 0, 0, 0, 0], [82, 0, 0, 0, 0, 0, 0]),
    // 84: up : CJ to C
    Conclude(Contexts(SubWkName), [25, 7, 25, 0, 0, 0, 0, 0, 0, 0], [83, 0, 0, 0, 0, 0, 0]),
    // 85: up : CP to C
    Conclude(Contexts(SubWkFace), [27, 10, 25, 30, 0, 0, 0, 0, 0, 0], [84, 0, 0, 0, 0, 0, 0]),
    // 86: up : CPR to C
    Conclude(Contexts(SubWkFace), [32, 10, 25, 40, 0, 0, 0, 0, 0, 0], [85, 0, 0, 0, 0, 0, 0]),
    // 87: to_0j : CPR to CJ
    Conclude(Contexts(SubForm), [79, 10, 25, 48, 0, 0, 0, 0, 0, 0], [86, 0, 0, 0, 0, 0, 0]),
    // 88: to_0j : CPR to CR
    Conclude(Contexts(SubFace), [79, 54, 27, 40, 0, 0, 0, 0, 0, 0], [87, 0, 0, 0, 0, 0, 0]),
    // 89: to_0j : CPR to CZ
    Conclude(Contexts(SubFace), [79, 54, 42, 39, 0, 0, 0, 0, 0, 0], [88, 0, 0, 0, 0, 0, 0]),
    Make(Op::Sys, [39, 21, 56, 75]),
    // 91: CPR >> start[to_0j] = a+[to_0j] : line[to_0j]
    Conclude(Instances(TmEqSub), [79, 54, 46, 90, 56, 58, 0, 0, 0, 0], [89, 81, 0, 0, 0, 0, 0]),
    Instance(14, 54),
    // 93: to_m0 : CPR to G.I
    Conclude(Contexts(SubForm), [79, 10, 5, 92, 0, 0, 0, 0, 0, 0], [78, 0, 0, 0, 0, 0, 0]),
    Push(10, 92),
    // 95: CPR >> A[to_m0] = line
    Conclude(Instances(TyInt), [79, 94, 16, 9, 17, 0, 0, 0, 0, 0], [93, 80, 1, 0, 0, 0, 0]),
    Instance(17, 94),
    // 97: CPR >> start = a+ : line
    Conclude(Equality(TmEqConv), [79, 90, 56, 96, 58, 0, 0, 0, 0, 0], [91, 95, 0, 0, 0, 0, 0]),
    // 98: up : CPR to P
    Conclude(Contexts(SubFace), [79, 10, 5, 19, 0, 0, 0, 0, 0, 0], [78, 0, 0, 0, 0, 0, 0]),
    Instance(37, 49),
    // 100: CPR >> a+ = b{i0}+ : A{i0}+
    Conclude(Instances(TmEqSub), [79, 10, 34, 47, 99, 50, 0, 0, 0, 0], [98, 4, 0, 0, 0, 0, 0]),
    // 101: to_0j : CPR to G.I
    Conclude(Contexts(SubForm), [79, 10, 5, 48, 0, 0, 0, 0, 0, 0], [78, 0, 0, 0, 0, 0, 0]),
    // 102: CPR >> A[to_0j] = line
    Conclude(Instances(TyInt), [79, 54, 16, 9, 17, 0, 0, 0, 0, 0], [101, 80, 1, 0, 0, 0, 0]),
    Instance(37, 54),
    // 104: CPR >> a+ = b[to_0j] : line
    Conclude(Equality(TmEqConv), [79, 56, 103, 57, 58, 0, 0, 0, 0, 0], [100, 102, 0, 0, 0, 0, 0]),
    // 105: to_m : CPR to PJ
    Conclude(Contexts(SubForm), [79, 10, 34, 14, 0, 0, 0, 0, 0, 0], [98, 0, 0, 0, 0, 0, 0]),
    // 106: to_0j : CPR to PJ
    Conclude(Contexts(SubForm), [79, 10, 34, 48, 0, 0, 0, 0, 0, 0], [98, 0, 0, 0, 0, 0, 0]),
    // 107: CPR >> side = b[to_0j] : line
    Conclude(Instances(TmInt), [79, 16, 54, 36, 37, 17, 0, 0, 0, 0], [105, 106, 2, 0, 0, 0, 0]),
    // 108: CPR >> b[to_0j] = a+ : line
    Conclude(Equality(TmEqSym), [79, 56, 103, 58, 0, 0, 0, 0, 0, 0], [104, 0, 0, 0, 0, 0, 0]),
    Instance(37, 16),
    // 110: CPR >> side = a+ : line
    Conclude(Equality(TmEqTrans), [79, 109, 103, 56, 58, 0, 0, 0, 0, 0], [107, 108, 0, 0, 0, 0, 0]),
    // 111: CPR >> a+ = start : line
    Conclude(Equality(TmEqSym), [79, 90, 56, 58, 0, 0, 0, 0, 0, 0], [97, 0, 0, 0, 0, 0, 0]),
    // 112: CPR >> side = start : line
    Conclude(Equality(TmEqTrans), [79, 109, 56, 90, 58, 0, 0, 0, 0, 0], [110, 111, 0, 0, 0, 0, 0]),
    // 113: CJ >> sides : line
    Conclude(Systems(SysTm), [27, 30, 40, 109, 90, 58, 0, 0, 0, 0], [29, 38, 77, 112, 0, 0, 0]),
    // 114: to_0 : G to G.I
    Conclude(Contexts(SubForm), [5, 7, 5, 48, 0, 0, 0, 0, 0, 0], [6, 0, 0, 0, 0, 0, 0]),
    Instance(14, 49),
    // 116: to_low : G to G.I
    Conclude(Contexts(SubForm), [5, 7, 5, 115, 0, 0, 0, 0, 0, 0], [6, 0, 0, 0, 0, 0, 0]),
    Push(7, 115),
    // 118: G >> A{i0} = A{m{i0}}
    Conclude(Instances(TyInt), [5, 49, 117, 9, 17, 0, 0, 0, 0, 0], [114, 116, 1, 0, 0, 0, 0]),
    Instance(17, 117),
    // 120: G >> a : A{m{i0}}
    Conclude(Equality(TmConv), [5, 47, 50, 119, 0, 0, 0, 0, 0, 0], [3, 118, 0, 0, 0, 0, 0]),
    // 121: to_0 : C to CJ
    Conclude(Contexts(SubForm), [25, 7, 25, 48, 0, 0, 0, 0, 0, 0], [83, 0, 0, 0, 0, 0, 0]),
    Make(Op::Sys, [30, 40, 109, 90]),
    // 123: C >> sides{i0} : line{i0}
    Conclude(Instances(TmSub), [25, 49, 27, 122, 58, 0, 0, 0, 0, 0], [121, 113, 0, 0, 0, 0, 0]),
    // 124: C >> a : A{i0}
    Conclude(Instances(TmSub), [25, 7, 5, 47, 50, 0, 0, 0, 0, 0], [24, 3, 0, 0, 0, 0, 0]),
    // 125: to_0 : C to G.I
    Conclude(Contexts(SubForm), [25, 7, 5, 48, 0, 0, 0, 0, 0, 0], [24, 0, 0, 0, 0, 0, 0]),
    // 126: to_low : C to G.I
    Conclude(Contexts(SubForm), [25, 7, 5, 115, 0, 0, 0, 0, 0, 0], [24, 0, 0, 0, 0, 0, 0]),
    // 127: C >> A{i0} = A{m{i0}}
    Conclude(Instances(TyInt), [25, 49, 117, 9, 17, 0, 0, 0, 0, 0], [125, 126, 1, 0, 0, 0, 0]),
    // 128: C >> a : A{m{i0}}
    Conclude(Equality(TmConv), [25, 47, 50, 119, 0, 0, 0, 0, 0, 0], [124, 127, 0, 0, 0, 0, 0]),
    // 129: id : DP to C
    Conclude(Contexts(SubWkFace), [25, 7, 25, 19, 0, 0, 0, 0, 0, 0], [83, 0, 0, 0, 0, 0, 0]),
    WithFace(25, 19),
    // 131: to_0 : DP to CJ
    Conclude(Contexts(SubForm), [130, 7, 25, 48, 0, 0, 0, 0, 0, 0], [129, 0, 0, 0, 0, 0, 0]),
    // 132: id : DP to G
    Conclude(Contexts(SubWkFace), [25, 7, 5, 19, 0, 0, 0, 0, 0, 0], [24, 0, 0, 0, 0, 0, 0]),
    // 133: id : DP to P
    Conclude(Contexts(SubFace), [130, 7, 5, 19, 0, 0, 0, 0, 0, 0], [132, 0, 0, 0, 0, 0, 0]),
    // 134: DP >> a = b{i0} : A{i0}
    Conclude(Instances(TmEqSub), [130, 7, 34, 47, 99, 50, 0, 0, 0, 0], [133, 4, 0, 0, 0, 0, 0]),
    // 135: to_0 : DP to G.I
    Conclude(Contexts(SubForm), [130, 7, 5, 48, 0, 0, 0, 0, 0, 0], [132, 0, 0, 0, 0, 0, 0]),
    // 136: to_low : DP to G.I
    Conclude(Contexts(SubForm), [130, 7, 5, 115, 0, 0, 0, 0, 0, 0], [132, 0, 0, 0, 0, 0, 0]),
    // 137: DP >> A{i0} = A{m{i0}}
    Conclude(Instances(TyInt), [130, 49, 117, 9, 17, 0, 0, 0, 0, 0], [135, 136, 1, 0, 0, 0, 0]),
    // 138: DP >> a = b{i0} : A{m{i0}}
    Conclude(Equality(TmEqConv), [130, 47, 99, 50, 119, 0, 0, 0, 0, 0], [134, 137, 0, 0, 0, 0, 0]),
    // 139: CP >> sides = side : line
    Conclude(Systems(SysLeft), [27, 30, 40, 109, 90, 58, 0, 0, 0, 0], [29, 38, 77, 112, 0, 0, 0]),
    // 140: to_0 : DP to CP
    Conclude(Contexts(SubFace), [130, 49, 27, 30, 0, 0, 0, 0, 0, 0], [131, 0, 0, 0, 0, 0, 0]),
    // 141: DP >> sides{i0} = side{i0} : line{i0}
    Conclude(Instances(TmEqSub), [130, 49, 32, 122, 109, 58, 0, 0, 0, 0],
        [140, 139, 0, 0, 0, 0, 0]),
    // 142: to_0 : DP to PJ
    Conclude(Contexts(SubForm), [130, 7, 34, 48, 0, 0, 0, 0, 0, 0], [133, 0, 0, 0, 0, 0, 0]),
    // 143: to_low : DP to PJ
    Conclude(Contexts(SubForm), [130, 7, 34, 115, 0, 0, 0, 0, 0, 0], [133, 0, 0, 0, 0, 0, 0]),
    // 144: DP >> b{i0} = b{m{i0}} : A{i0}
    Conclude(Instances(TmInt), [130, 49, 117, 36, 37, 17, 0, 0, 0, 0], [142, 143, 2, 0, 0, 0, 0]),
    Instance(37, 117),
    // 146: DP >> b{i0} = b{m{i0}} : A{m{i0}}
    Conclude(Equality(TmEqConv), [130, 99, 145, 50, 119, 0, 0, 0, 0, 0], [144, 137, 0, 0, 0, 0, 0]),
    Instance(122, 49),
    // 148: DP >> b{m{i0}} = sides{i0} : A{m{i0}}
    Conclude(Equality(TmEqSym), [130, 147, 145, 119, 0, 0, 0, 0, 0, 0], [141, 0, 0, 0, 0, 0, 0]),
    // 149: DP >> b{i0} = sides{i0} : A{m{i0}}
    Conclude(Equality(TmEqTrans), [130, 99, 145, 147, 119, 0, 0, 0, 0, 0],
        [146, 148, 0, 0, 0, 0, 0]),
    // 150: DP >> a = sides{i0} : A{m{i0}}
    Conclude(Equality(TmEqTrans), [130, 47, 99, 147, 119, 0, 0, 0, 0, 0],
        [138, 149, 0, 0, 0, 0, 0]),
    // 151: id : DR to C
    Conclude(Contexts(SubWkFace), [25, 7, 25, 22, 0, 0, 0, 0, 0, 0], [83, 0, 0, 0, 0, 0, 0]),
    WithFace(25, 22),
    // 153: to_0 : DR to CJ
    Conclude(Contexts(SubForm), [152, 7, 25, 48, 0, 0, 0, 0, 0, 0], [151, 0, 0, 0, 0, 0, 0]),
    // 154: CR >> sides = start : line
    Conclude(Systems(SysRight), [27, 30, 40, 109, 90, 58, 0, 0, 0, 0], [29, 38, 77, 112, 0, 0, 0]),
    // 155: to_0 : DR to CR
    Conclude(Contexts(SubFace), [152, 49, 27, 40, 0, 0, 0, 0, 0, 0], [153, 0, 0, 0, 0, 0, 0]),
    // 156: DR >> sides{i0} = start{i0} : line{i0}
    Conclude(Instances(TmEqSub), [152, 49, 42, 122, 90, 58, 0, 0, 0, 0], [155, 154, 0, 0, 0, 0, 0]),
    // 157: to_0 : DR to CZ
    Conclude(Contexts(SubFace), [152, 49, 42, 39, 0, 0, 0, 0, 0, 0], [155, 0, 0, 0, 0, 0, 0]),
    // 158: DR >> start{i0} = a+{i0} : line{i0}
    Conclude(Instances(TmEqSub), [152, 49, 46, 90, 56, 58, 0, 0, 0, 0], [157, 81, 0, 0, 0, 0, 0]),
    Instance(90, 49),
    // 160: DR >> a = start{i0} : A{m{i0}}
    Conclude(Equality(TmEqSym), [152, 159, 47, 119, 0, 0, 0, 0, 0, 0], [158, 0, 0, 0, 0, 0, 0]),
    // 161: DR >> start{i0} = sides{i0} : A{m{i0}}
    Conclude(Equality(TmEqSym), [152, 147, 159, 119, 0, 0, 0, 0, 0, 0], [156, 0, 0, 0, 0, 0, 0]),
    // 162: DR >> a = sides{i0} : A{m{i0}}
    Conclude(Equality(TmEqTrans), [152, 47, 159, 147, 119, 0, 0, 0, 0, 0],
        [160, 161, 0, 0, 0, 0, 0]),
    // 163: C >> a = sides{i0} : A{m{i0}}
    Conclude(Equality(TmEqCover), [25, 19, 22, 47, 147, 119, 0, 0, 0, 0],
        [128, 123, 150, 162, 0, 0, 0]),
    // 164: G >> filled : line{i1}
    Conclude(Composition(Comp), [5, 58, 23, 122, 47, 0, 0, 0, 0, 0], [18, 113, 120, 163, 0, 0, 0]),
    Make(Op::I1, [0, 0, 0, 0]),
    Make(Op::Min, [11, 165, 0, 0]),
    // 167: to_high : G to G.I
    Conclude(Contexts(SubForm), [5, 7, 5, 166, 0, 0, 0, 0, 0, 0], [6, 0, 0, 0, 0, 0, 0]),
    // 168: to_r : G to G.I
    Conclude(Contexts(SubForm), [5, 7, 5, 11, 0, 0, 0, 0, 0, 0], [6, 0, 0, 0, 0, 0, 0]),
    Push(7, 166),
    Push(7, 11),
    // 171: G >> A{min r i1} = A{r}
    Conclude(Instances(TyInt), [5, 169, 170, 9, 17, 0, 0, 0, 0, 0], [167, 168, 1, 0, 0, 0, 0]),
    Make(Op::Comp, [58, 23, 122, 47]),
    Instance(17, 169),
    Instance(17, 170),
    // 175: G >> filled : A{r}
    Conclude(Equality(TmConv), [5, 172, 173, 174, 0, 0, 0, 0, 0, 0], [164, 171, 0, 0, 0, 0, 0]),
    // 176: C >> filled = sides{i1} : line{i1}
    Conclude(Composition(CompFace), [5, 58, 23, 122, 47, 0, 0, 0, 0, 0],
        [18, 113, 120, 163, 0, 0, 0]),
    // 177: id : Z to G
    Conclude(Contexts(SubWkFace), [5, 7, 5, 20, 0, 0, 0, 0, 0, 0], [6, 0, 0, 0, 0, 0, 0]),
    WithFace(5, 20),
    // 179: id : Z to C
    Conclude(Contexts(SubFace), [178, 7, 5, 23, 0, 0, 0, 0, 0, 0], [177, 0, 0, 0, 0, 0, 0]),
    Push(7, 165),
    Instance(122, 180),
    // 182: Z >> filled = sides{i1} : A{min r i1}
    Conclude(Instances(TmEqSub), [178, 7, 25, 172, 181, 173, 0, 0, 0, 0],
        [179, 176, 0, 0, 0, 0, 0]),
    // 183: to_high : Z to G.I
    Conclude(Contexts(SubForm), [178, 7, 5, 166, 0, 0, 0, 0, 0, 0], [177, 0, 0, 0, 0, 0, 0]),
    // 184: to_r : Z to G.I
    Conclude(Contexts(SubForm), [178, 7, 5, 11, 0, 0, 0, 0, 0, 0], [177, 0, 0, 0, 0, 0, 0]),
    // 185: Z >> A{min r i1} = A{r}
    Conclude(Instances(TyInt), [178, 169, 170, 9, 17, 0, 0, 0, 0, 0], [183, 184, 1, 0, 0, 0, 0]),
    // 186: Z >> filled = sides{i1} : A{r}
    Conclude(Equality(TmEqConv), [178, 172, 181, 173, 174, 0, 0, 0, 0, 0],
        [182, 185, 0, 0, 0, 0, 0]),
    // 187: to_1 : Z to CJ
    Conclude(Contexts(SubForm), [178, 7, 25, 165, 0, 0, 0, 0, 0, 0], [179, 0, 0, 0, 0, 0, 0]),
    // 188: to_1 : Z to CR
    Conclude(Contexts(SubFace), [178, 180, 27, 40, 0, 0, 0, 0, 0, 0], [187, 0, 0, 0, 0, 0, 0]),
    // 189: Z >> sides{i1} = start{i1} : line{i1}
    Conclude(Instances(TmEqSub), [178, 180, 42, 122, 90, 58, 0, 0, 0, 0],
        [188, 154, 0, 0, 0, 0, 0]),
    // 190: Z >> sides{i1} = start{i0} : A{r}
    Conclude(Equality(TmEqConv), [178, 181, 159, 173, 174, 0, 0, 0, 0, 0],
        [189, 185, 0, 0, 0, 0, 0]),
    // 191: to_0 : Z to CJ
    Conclude(Contexts(SubForm), [178, 7, 25, 48, 0, 0, 0, 0, 0, 0], [179, 0, 0, 0, 0, 0, 0]),
    // 192: to_0 : Z to CR
    Conclude(Contexts(SubFace), [178, 49, 27, 40, 0, 0, 0, 0, 0, 0], [191, 0, 0, 0, 0, 0, 0]),
    // 193: to_0 : Z to CZ
    Conclude(Contexts(SubFace), [178, 49, 42, 39, 0, 0, 0, 0, 0, 0], [192, 0, 0, 0, 0, 0, 0]),
    // 194: Z >> start{i0} = a+{i0} : line{i0}
    Conclude(Instances(TmEqSub), [178, 49, 46, 90, 56, 58, 0, 0, 0, 0], [193, 81, 0, 0, 0, 0, 0]),
    // 195: to_low : Z to G.I
    Conclude(Contexts(SubForm), [178, 7, 5, 115, 0, 0, 0, 0, 0, 0], [177, 0, 0, 0, 0, 0, 0]),
    // 196: Z >> A{m{i0}} = A{r}
    Conclude(Instances(TyInt), [178, 117, 170, 9, 17, 0, 0, 0, 0, 0], [195, 184, 1, 0, 0, 0, 0]),
    // 197: Z >> start{i0} = a : A{r}
    Conclude(Equality(TmEqConv), [178, 159, 47, 119, 174, 0, 0, 0, 0, 0],
        [194, 196, 0, 0, 0, 0, 0]),
    // 198: Z >> sides{i1} = a : A{r}
    Conclude(Equality(TmEqTrans), [178, 181, 159, 47, 174, 0, 0, 0, 0, 0],
        [190, 197, 0, 0, 0, 0, 0]),
    // 199: Z >> filled = a : A{r}
    Conclude(Equality(TmEqTrans), [178, 172, 181, 47, 174, 0, 0, 0, 0, 0],
        [186, 198, 0, 0, 0, 0, 0]),
    Make(Op::Eq1, [11, 0, 0, 0]),
    // 201: id : O to G
    Conclude(Contexts(SubWkFace), [5, 7, 5, 200, 0, 0, 0, 0, 0, 0], [6, 0, 0, 0, 0, 0, 0]),
    WithFace(5, 200),
    // 203: up : OJ to G
    Conclude(Contexts(SubWkName), [202, 7, 5, 0, 0, 0, 0, 0, 0, 0], [201, 0, 0, 0, 0, 0, 0]),
    WithName(202),
    // 205: to_m : OJ to G.I
    Conclude(Contexts(SubForm), [204, 10, 5, 14, 0, 0, 0, 0, 0, 0], [203, 0, 0, 0, 0, 0, 0]),
    // 206: to_j : OJ to G.I
    Conclude(Contexts(SubForm), [204, 10, 5, 13, 0, 0, 0, 0, 0, 0], [203, 0, 0, 0, 0, 0, 0]),
    Push(10, 13),
    // 208: OJ >> line = A[to_j]
    Conclude(Instances(TyInt), [204, 16, 207, 9, 17, 0, 0, 0, 0, 0], [205, 206, 1, 0, 0, 0, 0]),
    // 209: id : OC to G
    Conclude(Contexts(SubWkFace), [202, 7, 5, 23, 0, 0, 0, 0, 0, 0], [201, 0, 0, 0, 0, 0, 0]),
    WithFace(202, 23),
    // 211: up : OCJ to G
    Conclude(Contexts(SubWkName), [210, 7, 5, 0, 0, 0, 0, 0, 0, 0], [209, 0, 0, 0, 0, 0, 0]),
    WithName(210),
    // 213: up : OCJ to C
    Conclude(Contexts(SubFace), [212, 10, 5, 23, 0, 0, 0, 0, 0, 0], [211, 0, 0, 0, 0, 0, 0]),
    // 214: to_j : OCJ to CJ
    Conclude(Contexts(SubForm), [212, 10, 25, 13, 0, 0, 0, 0, 0, 0], [213, 0, 0, 0, 0, 0, 0]),
    // 215: OCJ >> sides[to_j] : line[to_j]
    Conclude(Instances(TmSub), [212, 207, 27, 122, 58, 0, 0, 0, 0, 0], [214, 113, 0, 0, 0, 0, 0]),
    // 216: O >> a : A{i0}
    Conclude(Instances(TmSub), [202, 7, 5, 47, 50, 0, 0, 0, 0, 0], [201, 3, 0, 0, 0, 0, 0]),
    // 217: to_0 : O to G.I
    Conclude(Contexts(SubForm), [202, 7, 5, 48, 0, 0, 0, 0, 0, 0], [201, 0, 0, 0, 0, 0, 0]),
    // 218: to_low : O to G.I
    Conclude(Contexts(SubForm), [202, 7, 5, 115, 0, 0, 0, 0, 0, 0], [201, 0, 0, 0, 0, 0, 0]),
    // 219: O >> A{i0} = A{m{i0}}
    Conclude(Instances(TyInt), [202, 49, 117, 9, 17, 0, 0, 0, 0, 0], [217, 218, 1, 0, 0, 0, 0]),
    // 220: O >> a : A{m{i0}}
    Conclude(Equality(TmConv), [202, 47, 50, 119, 0, 0, 0, 0, 0, 0], [216, 219, 0, 0, 0, 0, 0]),
    // 221: id : OC to C
    Conclude(Contexts(SubFace), [210, 7, 5, 23, 0, 0, 0, 0, 0, 0], [209, 0, 0, 0, 0, 0, 0]),
    // 222: to_0 : OC to CJ
    Conclude(Contexts(SubForm), [210, 7, 25, 48, 0, 0, 0, 0, 0, 0], [221, 0, 0, 0, 0, 0, 0]),
    // 223: id : OC to P
    Conclude(Contexts(SubFace), [210, 7, 5, 19, 0, 0, 0, 0, 0, 0], [209, 0, 0, 0, 0, 0, 0]),
    // 224: OC >> a = b{i0} : A{i0}
    Conclude(Instances(TmEqSub), [210, 7, 34, 47, 99, 50, 0, 0, 0, 0], [223, 4, 0, 0, 0, 0, 0]),
    // 225: to_0 : OC to G.I
    Conclude(Contexts(SubForm), [210, 7, 5, 48, 0, 0, 0, 0, 0, 0], [209, 0, 0, 0, 0, 0, 0]),
    // 226: to_low : OC to G.I
    Conclude(Contexts(SubForm), [210, 7, 5, 115, 0, 0, 0, 0, 0, 0], [209, 0, 0, 0, 0, 0, 0]),
    // 227: OC >> A{i0} = A{m{i0}}
    Conclude(Instances(TyInt), [210, 49, 117, 9, 17, 0, 0, 0, 0, 0], [225, 226, 1, 0, 0, 0, 0]),
    // 228: OC >> a = b{i0} : A{m{i0}}
    Conclude(Equality(TmEqConv), [210, 47, 99, 50, 119, 0, 0, 0, 0, 0], [224, 227, 0, 0, 0, 0, 0]),
    // 229: to_0 : OC to CP
    Conclude(Contexts(SubFace), [210, 49, 27, 30, 0, 0, 0, 0, 0, 0], [222, 0, 0, 0, 0, 0, 0]),
    // 230: OC >> sides{i0} = side{i0} : line{i0}
    Conclude(Instances(TmEqSub), [210, 49, 32, 122, 109, 58, 0, 0, 0, 0],
        [229, 139, 0, 0, 0, 0, 0]),
    // 231: to_0 : OC to PJ
    Conclude(Contexts(SubForm), [210, 7, 34, 48, 0, 0, 0, 0, 0, 0], [223, 0, 0, 0, 0, 0, 0]),
    // 232: to_low : OC to PJ
    Conclude(Contexts(SubForm), [210, 7, 34, 115, 0, 0, 0, 0, 0, 0], [223, 0, 0, 0, 0, 0, 0]),
    // 233: OC >> b{i0} = b{m{i0}} : A{i0}
    Conclude(Instances(TmInt), [210, 49, 117, 36, 37, 17, 0, 0, 0, 0], [231, 232, 2, 0, 0, 0, 0]),
    // 234: OC >> b{i0} = b{m{i0}} : A{m{i0}}
    Conclude(Equality(TmEqConv), [210, 99, 145, 50, 119, 0, 0, 0, 0, 0], [233, 227, 0, 0, 0, 0, 0]),
    // 235: OC >> b{m{i0}} = sides{i0} : A{m{i0}}
    Conclude(Equality(TmEqSym), [210, 147, 145, 119, 0, 0, 0, 0, 0, 0], [230, 0, 0, 0, 0, 0, 0]),
    // 236: OC >> b{i0} = sides{i0} : A{m{i0}}
    Conclude(Equality(TmEqTrans), [210, 99, 145, 147, 119, 0, 0, 0, 0, 0],
        [234, 235, 0, 0, 0, 0, 0]),
    // 237: OC >> a = sides{i0} : A{m{i0}}
    Conclude(Equality(TmEqTrans), [210, 47, 99, 147, 119, 0, 0, 0, 0, 0],
        [228, 236, 0, 0, 0, 0, 0]),
    // 238: to_j : OCJ to CP
    Conclude(Contexts(SubFace), [212, 207, 27, 30, 0, 0, 0, 0, 0, 0], [214, 0, 0, 0, 0, 0, 0]),
    // 239: OCJ >> sides[to_j] = side[to_j] : line[to_j]
    Conclude(Instances(TmEqSub), [212, 207, 32, 122, 109, 58, 0, 0, 0, 0],
        [238, 139, 0, 0, 0, 0, 0]),
    // 240: up : OCJ to P
    Conclude(Contexts(SubFace), [212, 10, 5, 19, 0, 0, 0, 0, 0, 0], [211, 0, 0, 0, 0, 0, 0]),
    // 241: to_m : OCJ to PJ
    Conclude(Contexts(SubForm), [212, 10, 34, 14, 0, 0, 0, 0, 0, 0], [240, 0, 0, 0, 0, 0, 0]),
    // 242: to_j : OCJ to PJ
    Conclude(Contexts(SubForm), [212, 10, 34, 13, 0, 0, 0, 0, 0, 0], [240, 0, 0, 0, 0, 0, 0]),
    // 243: OCJ >> side = b[to_j] : line
    Conclude(Instances(TmInt), [212, 16, 207, 36, 37, 17, 0, 0, 0, 0], [241, 242, 2, 0, 0, 0, 0]),
    // 244: OCJ >> sides = b : line
    Conclude(Equality(TmEqTrans), [212, 122, 109, 37, 58, 0, 0, 0, 0, 0],
        [239, 243, 0, 0, 0, 0, 0]),
    // 245: O >> a = a : A{m{i0}}
    Conclude(Equality(TmEqRefl), [202, 47, 119, 0, 0, 0, 0, 0, 0, 0], [220, 0, 0, 0, 0, 0, 0]),
    // 246: O >> filled = whole : line{i1}
    Conclude(Composition(CompCong), [202, 58, 17, 23, 19, 122, 37, 47, 47, 0],
        [208, 215, 220, 237, 244, 245, 0]),
    // 247: to_high : O to G.I
    Conclude(Contexts(SubForm), [202, 7, 5, 166, 0, 0, 0, 0, 0, 0], [201, 0, 0, 0, 0, 0, 0]),
    // 248: to_r : O to G.I
    Conclude(Contexts(SubForm), [202, 7, 5, 11, 0, 0, 0, 0, 0, 0], [201, 0, 0, 0, 0, 0, 0]),
    // 249: O >> A{min r i1} = A{r}
    Conclude(Instances(TyInt), [202, 169, 170, 9, 17, 0, 0, 0, 0, 0], [247, 248, 1, 0, 0, 0, 0]),
    Make(Op::Comp, [17, 19, 37, 47]),
    // 251: O >> filled = whole : A{r}
    Conclude(Equality(TmEqConv), [202, 172, 250, 173, 174, 0, 0, 0, 0, 0],
        [246, 249, 0, 0, 0, 0, 0]),
    // 252: id : P to G
    Conclude(Contexts(SubWkFace), [5, 7, 5, 19, 0, 0, 0, 0, 0, 0], [6, 0, 0, 0, 0, 0, 0]),
    // 253: id : P to C
    Conclude(Contexts(SubFace), [34, 7, 5, 23, 0, 0, 0, 0, 0, 0], [252, 0, 0, 0, 0, 0, 0]),
    // 254: P >> filled = sides{i1} : A{min r i1}
    Conclude(Instances(TmEqSub), [34, 7, 25, 172, 181, 173, 0, 0, 0, 0], [253, 176, 0, 0, 0, 0, 0]),
    // 255: to_high : P to G.I
    Conclude(Contexts(SubForm), [34, 7, 5, 166, 0, 0, 0, 0, 0, 0], [252, 0, 0, 0, 0, 0, 0]),
    // 256: to_r : P to G.I
    Conclude(Contexts(SubForm), [34, 7, 5, 11, 0, 0, 0, 0, 0, 0], [252, 0, 0, 0, 0, 0, 0]),
    // 257: P >> A{min r i1} = A{r}
    Conclude(Instances(TyInt), [34, 169, 170, 9, 17, 0, 0, 0, 0, 0], [255, 256, 1, 0, 0, 0, 0]),
    // 258: P >> filled = sides{i1} : A{r}
    Conclude(Equality(TmEqConv), [34, 172, 181, 173, 174, 0, 0, 0, 0, 0],
        [254, 257, 0, 0, 0, 0, 0]),
    // 259: ctx P
    Conclude(Contexts(CtxFace), [5, 19, 0, 0, 0, 0, 0, 0, 0, 0], [0, 0, 0, 0, 0, 0, 0]),
    // 260: id : P to P
    Conclude(Contexts(SubId), [34, 0, 0, 0, 0, 0, 0, 0, 0, 0], [259, 0, 0, 0, 0, 0, 0]),
    // 261: to_1 : P to CJ
    Conclude(Contexts(SubForm), [34, 7, 25, 165, 0, 0, 0, 0, 0, 0], [253, 0, 0, 0, 0, 0, 0]),
    // 262: to_1 : P to CP
    Conclude(Contexts(SubFace), [34, 180, 27, 30, 0, 0, 0, 0, 0, 0], [261, 0, 0, 0, 0, 0, 0]),
    // 263: P >> sides{i1} = side{i1} : line{i1}
    Conclude(Instances(TmEqSub), [34, 180, 32, 122, 109, 58, 0, 0, 0, 0],
        [262, 139, 0, 0, 0, 0, 0]),
    Instance(37, 169),
    // 265: P >> sides{i1} = b{min r i1} : A{r}
    Conclude(Equality(TmEqConv), [34, 181, 264, 173, 174, 0, 0, 0, 0, 0],
        [263, 257, 0, 0, 0, 0, 0]),
    // 266: to_high : P to PJ
    Conclude(Contexts(SubForm), [34, 7, 34, 166, 0, 0, 0, 0, 0, 0], [260, 0, 0, 0, 0, 0, 0]),
    // 267: to_r : P to PJ
    Conclude(Contexts(SubForm), [34, 7, 34, 11, 0, 0, 0, 0, 0, 0], [260, 0, 0, 0, 0, 0, 0]),
    // 268: P >> b{min r i1} = b{r} : A{min r i1}
    Conclude(Instances(TmInt), [34, 169, 170, 36, 37, 17, 0, 0, 0, 0], [266, 267, 2, 0, 0, 0, 0]),
    Instance(37, 170),
    // 270: P >> b{min r i1} = b{r} : A{r}
    Conclude(Equality(TmEqConv), [34, 264, 269, 173, 174, 0, 0, 0, 0, 0],
        [268, 257, 0, 0, 0, 0, 0]),
    // 271: P >> sides{i1} = b{r} : A{r}
    Conclude(Equality(TmEqTrans), [34, 181, 264, 269, 174, 0, 0, 0, 0, 0],
        [265, 270, 0, 0, 0, 0, 0]),
    // 272: P >> filled = b{r} : A{r}
    Conclude(Equality(TmEqTrans), [34, 172, 181, 269, 174, 0, 0, 0, 0, 0],
        [258, 271, 0, 0, 0, 0, 0]),
};

/// The rows of what it gives: typing, zero, one, face.
pub static FILL_GIVES: &[u16] = &[175, 199, 251, 272];
