//! Written by tools/write_recipes.py.

use recipes::Row::{Conclude, Instance, Make, Part, Premise, Push, Shift};
use recipes::{Row, table};
use theory::ContextRule::SubId;
use theory::EqualityRule::{TmEqConv, TmEqSym, TmEqTrans};
use theory::InstanceRule::TyCong;
use theory::Op;
use theory::RuleName::{Contexts, Equality, Instances, Sigma};
use theory::SigmaRule::{Pair, SigBeta1, SigBeta2, SigEta};

/// Pairs of equal parts are equal.
/// Its parts are G a b u v A B.
pub static PAIR_CONG: &[Row] = table! {
    // 0: ctx G
    Premise(0),
    // 1: G.A >> B
    Premise(2),
    // 2: G >> a : A
    Premise(3),
    // 3: G >> b : A
    Premise(4),
    // 4: G >> a = b : A
    Premise(5),
    // 5: G >> u : B{a}
    Premise(6),
    // 6: G >> v : B{b}
    Premise(7),
    // 7: G >> u = v : B{a}
    Premise(8),
    Part(0),
    Part(1),
    Part(3),
    Part(5),
    Part(6),
    // 13: G >> pair a u : sig A B
    Conclude(Sigma(Pair), [8, 9, 10, 11, 12, 0, 0, 0, 0, 0], [1, 2, 5, 0, 0, 0, 0]),
    Part(2),
    Part(4),
    // 16: G >> pair b v : sig A B
    Conclude(Sigma(Pair), [8, 14, 15, 11, 12, 0, 0, 0, 0, 0], [1, 3, 6, 0, 0, 0, 0]),
    // 17: G >> fst (pair a u) = a : A
    Conclude(Sigma(SigBeta1), [8, 9, 10, 11, 12, 0, 0, 0, 0, 0], [1, 2, 5, 0, 0, 0, 0]),
    // 18: G >> fst (pair b v) = b : A
    Conclude(Sigma(SigBeta1), [8, 14, 15, 11, 12, 0, 0, 0, 0, 0], [1, 3, 6, 0, 0, 0, 0]),
    Make(Op::Pair, [14, 15, 0, 0]),
    Make(Op::Fst, [19, 0, 0, 0]),
    // 21: G >> b = fst (pair b v) : A
    Conclude(Equality(TmEqSym), [8, 20, 14, 11, 0, 0, 0, 0, 0, 0], [18, 0, 0, 0, 0, 0, 0]),
    // 22: G >> a = fst (pair b v) : A
    Conclude(Equality(TmEqTrans), [8, 9, 14, 20, 11, 0, 0, 0, 0, 0], [4, 21, 0, 0, 0, 0, 0]),
    Make(Op::Pair, [9, 10, 0, 0]),
    Make(Op::Fst, [23, 0, 0, 0]),
    // 25: G >> fst (pair a u) = fst (pair b v) : A
    Conclude(Equality(TmEqTrans), [8, 24, 9, 20, 11, 0, 0, 0, 0, 0], [17, 22, 0, 0, 0, 0, 0]),
    // 26: G >> snd (pair a u) = u : B{a}
    Conclude(Sigma(SigBeta2), [8, 9, 10, 11, 12, 0, 0, 0, 0, 0], [1, 2, 5, 0, 0, 0, 0]),
    // 27: id : G to G
    Conclude(Contexts(SubId), [8, 0, 0, 0, 0, 0, 0, 0, 0, 0], [0, 0, 0, 0, 0, 0, 0]),
    // 28: G >> a = fst (pair a u) : A
    Conclude(Equality(TmEqSym), [8, 24, 9, 11, 0, 0, 0, 0, 0, 0], [17, 0, 0, 0, 0, 0, 0]),
    Shift(0),
    // 30: G >> B{a} = B{fst (pair a u)}
    Conclude(Instances(TyCong), [8, 29, 8, 11, 9, 24, 12, 0, 0, 0], [27, 1, 28, 0, 0, 0, 0]),
    Make(Op::Snd, [23, 0, 0, 0]),
    Push(29, 9),
    Instance(12, 32),
    Push(29, 24),
    Instance(12, 34),
    // 36: G >> snd (pair a u) = u : B{fst (pair a u)}
    Conclude(Equality(TmEqConv), [8, 31, 10, 33, 35, 0, 0, 0, 0, 0], [26, 30, 0, 0, 0, 0, 0]),
    // 37: G >> u = v : B{fst (pair a u)}
    Conclude(Equality(TmEqConv), [8, 10, 15, 33, 35, 0, 0, 0, 0, 0], [7, 30, 0, 0, 0, 0, 0]),
    // 38: G >> snd (pair b v) = v : B{b}
    Conclude(Sigma(SigBeta2), [8, 14, 15, 11, 12, 0, 0, 0, 0, 0], [1, 3, 6, 0, 0, 0, 0]),
    // 39: G >> b = a : A
    Conclude(Equality(TmEqSym), [8, 9, 14, 11, 0, 0, 0, 0, 0, 0], [4, 0, 0, 0, 0, 0, 0]),
    // 40: G >> b = fst (pair a u) : A
    Conclude(Equality(TmEqTrans), [8, 14, 9, 24, 11, 0, 0, 0, 0, 0], [39, 28, 0, 0, 0, 0, 0]),
    // 41: G >> B{b} = B{fst (pair a u)}
    Conclude(Instances(TyCong), [8, 29, 8, 11, 14, 24, 12, 0, 0, 0], [27, 1, 40, 0, 0, 0, 0]),
    Make(Op::Snd, [19, 0, 0, 0]),
    Push(29, 14),
    Instance(12, 43),
    // 45: G >> snd (pair b v) = v : B{fst (pair a u)}
    Conclude(Equality(TmEqConv), [8, 42, 15, 44, 35, 0, 0, 0, 0, 0], [38, 41, 0, 0, 0, 0, 0]),
    // 46: G >> v = snd (pair b v) : B{fst (pair a u)}
    Conclude(Equality(TmEqSym), [8, 42, 15, 35, 0, 0, 0, 0, 0, 0], [45, 0, 0, 0, 0, 0, 0]),
    // 47: G >> u = snd (pair b v) : B{fst (pair a u)}
    Conclude(Equality(TmEqTrans), [8, 10, 15, 42, 35, 0, 0, 0, 0, 0], [37, 46, 0, 0, 0, 0, 0]),
    // 48: G >> snd (pair a u) = snd (pair b v) : B{fst (pair a u)}
    Conclude(Equality(TmEqTrans), [8, 31, 10, 42, 35, 0, 0, 0, 0, 0], [36, 47, 0, 0, 0, 0, 0]),
    // 49: G >> pair a u = pair b v : sig A B
    Conclude(Sigma(SigEta), [8, 23, 19, 11, 12, 0, 0, 0, 0, 0], [13, 16, 25, 48, 0, 0, 0]),
};

/// The rows of what it gives: equal.
pub static PAIR_CONG_GIVES: &[u16] = &[49];
