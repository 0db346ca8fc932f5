//! Written by tools/write_recipes.py.

use recipes::Row::{
    Conclude, Derive, Instance, Make, Part, Premise, Push, Shift, Var, WithName, WithVar,
};
use recipes::{Row, table};
use theory::ContextRule::{SubId, SubWk, SubWkName};
use theory::InstanceRule::{TmSub, TmVar, TySub};
use theory::Op;
use theory::PathRule::PathTy;
use theory::PiRule::App;
use theory::RuleName::{Contexts, Instances, Paths, Pi, Sigma};
use theory::SigmaRule::{Fst, SigTy, Snd};

/// Extension: an element of the fiber of an equivalence w at a, which is z where p is.
/// Its parts are G T A w p z a.
pub static EXT: &[Row] = table! {
    // 0: ctx G
    Premise(0),
    // 1: G >> T
    Premise(1),
    // 2: G >> A
    Premise(2),
    // 3: G >> w : equivalence
    Premise(3),
    // 4: G >> a : A
    Premise(4),
    // 5: G.{p} >> z : fiber
    Premise(5),
    Part(0),
    // 7: id : G to G
    Conclude(Contexts(SubId), [6, 0, 0, 0, 0, 0, 0, 0, 0, 0], [0, 0, 0, 0, 0, 0, 0]),
    Shift(0),
    Part(1),
    // 10: up : GT to G
    Conclude(Contexts(SubWk), [6, 8, 6, 9, 0, 0, 0, 0, 0, 0], [7, 1, 0, 0, 0, 0, 0]),
    WithVar(6, 9),
    Shift(1),
    // 13: shift 2 : GTJ to G
    Conclude(Contexts(SubWkName), [11, 12, 6, 0, 0, 0, 0, 0, 0, 0], [10, 0, 0, 0, 0, 0, 0]),
    WithName(11),
    Shift(2),
    Part(2),
    // 17: GTJ >> A[shift 2]
    Conclude(Instances(TySub), [14, 15, 6, 16, 0, 0, 0, 0, 0, 0], [13, 2, 0, 0, 0, 0, 0]),
    Part(6),
    // 19: GT >> a+ : A+
    Conclude(Instances(TmSub), [11, 12, 6, 18, 16, 0, 0, 0, 0, 0], [10, 4, 0, 0, 0, 0, 0]),
    Part(3),
    Instance(16, 12),
    Make(Op::Pi, [9, 21, 0, 0]),
    Instance(9, 15),
    Shift(4),
    Instance(16, 24),
    Var(1),
    Var(2),
    Var(0),
    Make(Op::App, [27, 28, 0, 0]),
    Make(Op::PathP, [25, 26, 29, 0]),
    Make(Op::Sig, [23, 30, 0, 0]),
    Instance(31, 12),
    Shift(3),
    Instance(31, 33),
    Make(Op::PathP, [34, 26, 28, 0]),
    Make(Op::Pi, [32, 35, 0, 0]),
    Make(Op::Sig, [31, 36, 0, 0]),
    Make(Op::Pi, [21, 37, 0, 0]),
    Make(Op::Sig, [22, 38, 0, 0]),
    // 40: GT >> w+ : equivalence[up]
    Conclude(Instances(TmSub), [11, 12, 6, 20, 39, 0, 0, 0, 0, 0], [10, 3, 0, 0, 0, 0, 0]),
    Instance(20, 12),
    Instance(22, 12),
    Push(15, 28),
    Instance(38, 43),
    // 45: GT >> fst w+ : function+
    Conclude(Sigma(Fst), [11, 41, 42, 44, 0, 0, 0, 0, 0, 0], [40, 0, 0, 0, 0, 0, 0]),
    // 46: GT >> y : T+
    Conclude(Instances(TmVar), [6, 9, 0, 0, 0, 0, 0, 0, 0, 0], [1, 0, 0, 0, 0, 0, 0]),
    Make(Op::Fst, [41, 0, 0, 0]),
    Instance(9, 12),
    Instance(16, 15),
    // 50: GT >> image : A+
    Conclude(Pi(App), [11, 47, 28, 48, 49, 0, 0, 0, 0, 0], [45, 46, 0, 0, 0, 0, 0]),
    Instance(18, 12),
    Make(Op::App, [47, 28, 0, 0]),
    // 53: GT >> path
    Conclude(Paths(PathTy), [11, 49, 51, 52, 0, 0, 0, 0, 0, 0], [17, 19, 50, 0, 0, 0, 0]),
    Make(Op::PathP, [49, 51, 52, 0]),
    // 55: G >> fiber
    Conclude(Sigma(SigTy), [6, 9, 54, 0, 0, 0, 0, 0, 0, 0], [1, 53, 0, 0, 0, 0, 0]),
    // 56: G >> snd w : all_contractible{fst w}
    Conclude(Sigma(Snd), [6, 20, 22, 38, 0, 0, 0, 0, 0, 0], [3, 0, 0, 0, 0, 0, 0]),
    Make(Op::Snd, [20, 0, 0, 0]),
    Instance(16, 33),
    Instance(52, 43),
    Make(Op::PathP, [58, 26, 59, 0]),
    Make(Op::Sig, [48, 60, 0, 0]),
    Instance(20, 33),
    Make(Op::Fst, [62, 0, 0, 0]),
    Make(Op::App, [63, 28, 0, 0]),
    Make(Op::PathP, [25, 27, 64, 0]),
    Make(Op::Sig, [23, 65, 0, 0]),
    Instance(9, 24),
    Shift(6),
    Instance(16, 68),
    Var(4),
    Shift(5),
    Instance(20, 71),
    Make(Op::Fst, [72, 0, 0, 0]),
    Make(Op::App, [73, 28, 0, 0]),
    Make(Op::PathP, [69, 70, 74, 0]),
    Make(Op::Sig, [67, 75, 0, 0]),
    Make(Op::PathP, [76, 26, 28, 0]),
    Make(Op::Pi, [66, 77, 0, 0]),
    Make(Op::Sig, [61, 78, 0, 0]),
    // 80: G >> contraction : contractible_y{a}
    Conclude(Pi(App), [6, 57, 18, 16, 79, 0, 0, 0, 0, 0], [56, 4, 0, 0, 0, 0, 0]),
    Make(Op::Sig, [9, 54, 0, 0]),
    Make(Op::App, [57, 18, 0, 0]),
    Part(4),
    Part(5),
    // 85: contr
    Derive(0, [6, 81, 82, 83, 84, 0, 0, 0, 0, 0],
        [0, 55, 80, 5, 0, 0, 0, 0, 0, 0, 0, 0, 0, 0, 0, 0]),
};

/// The rows of what it gives: typing, face.
pub static EXT_GIVES: &[u16] = &[85, 86];
