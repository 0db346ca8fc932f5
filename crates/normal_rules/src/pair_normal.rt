//! Written by tools/write_recipes.py.

use recipes::Row::{Conclude, Field, Instance, Make, Premise, Push, Shift};
use recipes::{Row, table};
use theory::ContextRule::SubId;
use theory::EqualityRule::{TmConv, TmEqConv, TmEqSym, TmEqTrans};
use theory::InstanceRule::TyCong;
use theory::Op;
use theory::RuleName::{Contexts, Equality, Instances, Sigma};
use theory::SigmaRule::{Pair, SigBeta1, SigBeta2, SigEta};

/// A pair whose halves are in normal form.
/// Its parts are G a b u v A B.
pub static PAIR_NORMAL: &[Row] = table! {
    // 0: ctx G
    Premise(0),
    // 1: G.A >> B
    Premise(2),
    // 2: G >> a : A
    Premise(3),
    // 3: G >> b : A
    Premise(6),
    // 4: G >> a = b : A
    Premise(5),
    // 5: G >> u : B{a}
    Premise(4),
    // 6: G >> v : B{a}
    Premise(8),
    Field(0, 0),
    // 8: id : G to G
    Conclude(Contexts(SubId), [7, 0, 0, 0, 0, 0, 0, 0, 0, 0], [0, 0, 0, 0, 0, 0, 0]),
    // 9: G >> A
    Premise(1),
    Shift(0),
    Field(2, 2),
    Field(2, 1),
    Field(3, 1),
    Field(1, 1),
    // 15: G >> B{a} = B{b}
    Conclude(Instances(TyCong), [7, 10, 7, 11, 12, 13, 14, 0, 0, 0], [8, 1, 4, 0, 0, 0, 0]),
    Field(6, 1),
    Push(10, 12),
    Instance(14, 17),
    Push(10, 13),
    Instance(14, 19),
    // 21: G >> v : B{b}
    Conclude(Equality(TmConv), [7, 16, 18, 20, 0, 0, 0, 0, 0, 0], [6, 15, 0, 0, 0, 0, 0]),
    // 22: G >> u = v : B{a}
    Premise(7),
    Field(5, 1),
    // 24: G >> pair a u : sig A B
    Conclude(Sigma(Pair), [7, 12, 23, 11, 14, 0, 0, 0, 0, 0], [1, 2, 5, 0, 0, 0, 0]),
    // 25: G >> pair b v : sig A B
    Conclude(Sigma(Pair), [7, 13, 16, 11, 14, 0, 0, 0, 0, 0], [1, 3, 21, 0, 0, 0, 0]),
    // 26: G >> fst (pair a u) = a : A
    Conclude(Sigma(SigBeta1), [7, 12, 23, 11, 14, 0, 0, 0, 0, 0], [1, 2, 5, 0, 0, 0, 0]),
    // 27: G >> fst (pair b v) = b : A
    Conclude(Sigma(SigBeta1), [7, 13, 16, 11, 14, 0, 0, 0, 0, 0], [1, 3, 21, 0, 0, 0, 0]),
    Make(Op::Pair, [13, 16, 0, 0]),
    Make(Op::Fst, [28, 0, 0, 0]),
    // 30: G >> b = fst (pair b v) : A
    Conclude(Equality(TmEqSym), [7, 29, 13, 11, 0, 0, 0, 0, 0, 0], [27, 0, 0, 0, 0, 0, 0]),
    // 31: G >> a = fst (pair b v) : A
    Conclude(Equality(TmEqTrans), [7, 12, 13, 29, 11, 0, 0, 0, 0, 0], [4, 30, 0, 0, 0, 0, 0]),
    Make(Op::Pair, [12, 23, 0, 0]),
    Make(Op::Fst, [32, 0, 0, 0]),
    // 34: G >> fst (pair a u) = fst (pair b v) : A
    Conclude(Equality(TmEqTrans), [7, 33, 12, 29, 11, 0, 0, 0, 0, 0], [26, 31, 0, 0, 0, 0, 0]),
    // 35: G >> snd (pair a u) = u : B{a}
    Conclude(Sigma(SigBeta2), [7, 12, 23, 11, 14, 0, 0, 0, 0, 0], [1, 2, 5, 0, 0, 0, 0]),
    // 36: G >> a = fst (pair a u) : A
    Conclude(Equality(TmEqSym), [7, 33, 12, 11, 0, 0, 0, 0, 0, 0], [26, 0, 0, 0, 0, 0, 0]),
    // 37: G >> B{a} = B{fst (pair a u)}
    Conclude(Instances(TyCong), [7, 10, 7, 11, 12, 33, 14, 0, 0, 0], [8, 1, 36, 0, 0, 0, 0]),
    Make(Op::Snd, [32, 0, 0, 0]),
    Push(10, 33),
    Instance(14, 39),
    // 41: G >> snd (pair a u) = u : B{fst (pair a u)}
    Conclude(Equality(TmEqConv), [7, 38, 23, 18, 40, 0, 0, 0, 0, 0], [35, 37, 0, 0, 0, 0, 0]),
    // 42: G >> u = v : B{fst (pair a u)}
    Conclude(Equality(TmEqConv), [7, 23, 16, 18, 40, 0, 0, 0, 0, 0], [22, 37, 0, 0, 0, 0, 0]),
    // 43: G >> snd (pair b v) = v : B{b}
    Conclude(Sigma(SigBeta2), [7, 13, 16, 11, 14, 0, 0, 0, 0, 0], [1, 3, 21, 0, 0, 0, 0]),
    // 44: G >> b = a : A
    Conclude(Equality(TmEqSym), [7, 12, 13, 11, 0, 0, 0, 0, 0, 0], [4, 0, 0, 0, 0, 0, 0]),
    // 45: G >> b = fst (pair a u) : A
    Conclude(Equality(TmEqTrans), [7, 13, 12, 33, 11, 0, 0, 0, 0, 0], [44, 36, 0, 0, 0, 0, 0]),
    // 46: G >> B{b} = B{fst (pair a u)}
    Conclude(Instances(TyCong), [7, 10, 7, 11, 13, 33, 14, 0, 0, 0], [8, 1, 45, 0, 0, 0, 0]),
    Make(Op::Snd, [28, 0, 0, 0]),
    // 48: G >> snd (pair b v) = v : B{fst (pair a u)}
    Conclude(Equality(TmEqConv), [7, 47, 16, 20, 40, 0, 0, 0, 0, 0], [43, 46, 0, 0, 0, 0, 0]),
    // 49: G >> v = snd (pair b v) : B{fst (pair a u)}
    Conclude(Equality(TmEqSym), [7, 47, 16, 40, 0, 0, 0, 0, 0, 0], [48, 0, 0, 0, 0, 0, 0]),
    // 50: G >> u = snd (pair b v) : B{fst (pair a u)}
    Conclude(Equality(TmEqTrans), [7, 23, 16, 47, 40, 0, 0, 0, 0, 0], [42, 49, 0, 0, 0, 0, 0]),
    // 51: G >> snd (pair a u) = snd (pair b v) : B{fst (pair a u)}
    Conclude(Equality(TmEqTrans), [7, 38, 23, 47, 40, 0, 0, 0, 0, 0], [41, 50, 0, 0, 0, 0, 0]),
    // 52: G >> pair a u = pair b v : sig A B
    Conclude(Sigma(SigEta), [7, 32, 28, 11, 14, 0, 0, 0, 0, 0], [24, 25, 34, 51, 0, 0, 0]),
};

/// The rows of what it gives: equal, term.
pub static PAIR_NORMAL_GIVES: &[u16] = &[52, 25];
