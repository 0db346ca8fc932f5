//! Written by tools/write_recipes.py.

use recipes::Row::{Conclude, Instance, Make, Part, Premise, Push, Shift, Var, WithFace, WithName};
use recipes::{Row, table};
use theory::CompRule::{Comp, CompFace};
use theory::ContextRule::{CtxFace, SubId, SubWkFace, SubWkName};
use theory::EqualityRule::{TmEqSym, TmEqTrans};
use theory::InstanceRule::{TmSub, TySub};
use theory::Op;
use theory::PathRule::{PApp, PathLeft, PathRight};
use theory::PiRule::App;
use theory::RuleName::{Composition, Contexts, Equality, Instances, Paths, Pi, Sigma};
use theory::SigmaRule::{Fst, Snd};

/// Contraction: where c contracts A, an element of A that is b where p is.
/// Its parts are G A c p b.
pub static CONTR: &[Row] = table! {
    // 0: ctx G
    Premise(0),
    // 1: G >> A
    Premise(1),
    // 2: G >> c : contractible
    Premise(2),
    // 3: G.{p} >> b : A
    Premise(3),
    Part(0),
    // 5: id : G to G
    Conclude(Contexts(SubId), [4, 0, 0, 0, 0, 0, 0, 0, 0, 0], [0, 0, 0, 0, 0, 0, 0]),
    Shift(0),
    // 7: up : G.I to G
    Conclude(Contexts(SubWkName), [4, 6, 4, 0, 0, 0, 0, 0, 0, 0], [5, 0, 0, 0, 0, 0, 0]),
    WithName(4),
    Shift(1),
    Part(1),
    // 11: G.I >> A+
    Conclude(Instances(TySub), [8, 9, 4, 10, 0, 0, 0, 0, 0, 0], [7, 1, 0, 0, 0, 0, 0]),
    Part(3),
    // 13: id : P to G
    Conclude(Contexts(SubWkFace), [4, 6, 4, 12, 0, 0, 0, 0, 0, 0], [5, 0, 0, 0, 0, 0, 0]),
    WithFace(4, 12),
    // 15: up : PJ to G
    Conclude(Contexts(SubWkName), [14, 6, 4, 0, 0, 0, 0, 0, 0, 0], [13, 0, 0, 0, 0, 0, 0]),
    WithName(14),
    Part(2),
    Instance(10, 9),
    Shift(3),
    Instance(10, 19),
    Var(1),
    Var(0),
    Make(Op::PathP, [20, 21, 22, 0]),
    Make(Op::Pi, [18, 23, 0, 0]),
    Make(Op::Sig, [10, 24, 0, 0]),
    // 26: PJ >> c+ : contractible[up]
    Conclude(Instances(TmSub), [16, 9, 4, 17, 25, 0, 0, 0, 0, 0], [15, 2, 0, 0, 0, 0, 0]),
    Instance(17, 9),
    Shift(2),
    Push(28, 22),
    Instance(24, 29),
    // 31: PJ >> snd c+ : paths[beside]{fst c+}
    Conclude(Sigma(Snd), [16, 27, 18, 30, 0, 0, 0, 0, 0, 0], [26, 0, 0, 0, 0, 0, 0]),
    // 32: ctx P
    Conclude(Contexts(CtxFace), [4, 12, 0, 0, 0, 0, 0, 0, 0, 0], [0, 0, 0, 0, 0, 0, 0]),
    // 33: id : P to P
    Conclude(Contexts(SubId), [14, 0, 0, 0, 0, 0, 0, 0, 0, 0], [32, 0, 0, 0, 0, 0, 0]),
    // 34: up : PJ to P
    Conclude(Contexts(SubWkName), [14, 6, 14, 0, 0, 0, 0, 0, 0, 0], [33, 0, 0, 0, 0, 0, 0]),
    Part(4),
    // 36: PJ >> b+ : A+
    Conclude(Instances(TmSub), [16, 9, 14, 35, 10, 0, 0, 0, 0, 0], [34, 3, 0, 0, 0, 0, 0]),
    Make(Op::Snd, [27, 0, 0, 0]),
    Instance(35, 9),
    Instance(17, 28),
    Make(Op::Fst, [39, 0, 0, 0]),
    Make(Op::PathP, [20, 40, 22, 0]),
    // 42: PJ >> to_b_j : path_y{b+}
    Conclude(Pi(App), [16, 37, 38, 18, 41, 0, 0, 0, 0, 0], [31, 36, 0, 0, 0, 0, 0]),
    Make(Op::App, [37, 38, 0, 0]),
    Instance(10, 28),
    Make(Op::Fst, [27, 0, 0, 0]),
    // 46: PJ >> along : A+
    Conclude(Paths(PApp), [16, 43, 22, 44, 45, 38, 0, 0, 0, 0], [42, 0, 0, 0, 0, 0, 0]),
    // 47: G >> fst c : A
    Conclude(Sigma(Fst), [4, 17, 10, 24, 0, 0, 0, 0, 0, 0], [2, 0, 0, 0, 0, 0, 0]),
    // 48: P >> c : contractible
    Conclude(Instances(TmSub), [14, 6, 4, 17, 25, 0, 0, 0, 0, 0], [13, 2, 0, 0, 0, 0, 0]),
    // 49: P >> snd c : paths{fst c}
    Conclude(Sigma(Snd), [14, 17, 10, 24, 0, 0, 0, 0, 0, 0], [48, 0, 0, 0, 0, 0, 0]),
    Make(Op::Snd, [17, 0, 0, 0]),
    Make(Op::PathP, [44, 45, 22, 0]),
    // 52: P >> to_b : from_x{b}
    Conclude(Pi(App), [14, 50, 35, 10, 51, 0, 0, 0, 0, 0], [49, 3, 0, 0, 0, 0, 0]),
    Make(Op::App, [50, 35, 0, 0]),
    Make(Op::Fst, [17, 0, 0, 0]),
    // 55: P >> papp to_b i0 = fst c : A
    Conclude(Paths(PathLeft), [14, 53, 18, 54, 35, 0, 0, 0, 0, 0], [52, 0, 0, 0, 0, 0, 0]),
    Make(Op::I0, [0, 0, 0, 0]),
    Make(Op::PApp, [53, 56, 0, 0]),
    // 58: P >> fst c = papp to_b i0 : A
    Conclude(Equality(TmEqSym), [14, 57, 54, 10, 0, 0, 0, 0, 0, 0], [55, 0, 0, 0, 0, 0, 0]),
    Make(Op::PApp, [43, 22, 0, 0]),
    // 60: G >> contracted : A
    Conclude(Composition(Comp), [4, 18, 12, 59, 54, 0, 0, 0, 0, 0], [11, 46, 47, 58, 0, 0, 0]),
    // 61: P >> contracted = papp to_b i1 : A
    Conclude(Composition(CompFace), [4, 18, 12, 59, 54, 0, 0, 0, 0, 0], [11, 46, 47, 58, 0, 0, 0]),
    // 62: P >> papp to_b i1 = b : A
    Conclude(Paths(PathRight), [14, 53, 18, 54, 35, 0, 0, 0, 0, 0], [52, 0, 0, 0, 0, 0, 0]),
    Make(Op::Comp, [18, 12, 59, 54]),
    Make(Op::I1, [0, 0, 0, 0]),
    Make(Op::PApp, [53, 64, 0, 0]),
    // 66: P >> contracted = b : A
    Conclude(Equality(TmEqTrans), [14, 63, 65, 35, 10, 0, 0, 0, 0, 0], [61, 62, 0, 0, 0, 0, 0]),
};

/// The rows of what it gives: typing, face.
pub static CONTR_GIVES: &[u16] = &[60, 66];
