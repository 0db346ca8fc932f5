//! Written by tools/write_recipes.py.

use recipes::Row::{Conclude, Field, Instance, Make, Premise, Push, Shift};
use recipes::{Row, table};
use theory::ContextRule::SubId;
use theory::EqualityRule::{TmEqConv, TmEqTrans, TyEqSym};
use theory::InstanceRule::TyCong;
use theory::Op;
use theory::RuleName::{Contexts, Equality, Instances, Sigma};
use theory::SigmaRule::{Pair, SigBeta1, SigBeta2, SigEta};

/// A pair whose halves equal those of another.
/// Its parts are H A B a u k.
pub static PAIR_LEFT: &[Row] = table! {
    // 0: ctx H
    Premise(0),
    // 1: H.A >> B
    Premise(1),
    // 2: H >> a : A
    Premise(2),
    // 3: H >> u : B{a}
    Premise(3),
    // 4: H >> k : sig A B
    Premise(4),
    // 5: H >> a = fst k : A
    Premise(5),
    // 6: H >> u = snd k : B{a}
    Premise(6),
    Field(0, 0),
    Field(2, 1),
    Field(3, 1),
    Field(2, 2),
    Field(1, 1),
    // 12: H >> pair a u : sig A B
    Conclude(Sigma(Pair), [7, 8, 9, 10, 11, 0, 0, 0, 0, 0], [1, 2, 3, 0, 0, 0, 0]),
    // 13: H >> fst (pair a u) = a : A
    Conclude(Sigma(SigBeta1), [7, 8, 9, 10, 11, 0, 0, 0, 0, 0], [1, 2, 3, 0, 0, 0, 0]),
    // 14: H >> snd (pair a u) = u : B{a}
    Conclude(Sigma(SigBeta2), [7, 8, 9, 10, 11, 0, 0, 0, 0, 0], [1, 2, 3, 0, 0, 0, 0]),
    Make(Op::Pair, [8, 9, 0, 0]),
    Make(Op::Fst, [15, 0, 0, 0]),
    Field(4, 1),
    Make(Op::Fst, [17, 0, 0, 0]),
    // 19: H >> fst (pair a u) = fst k : A
    Conclude(Equality(TmEqTrans), [7, 16, 8, 18, 10, 0, 0, 0, 0, 0], [13, 5, 0, 0, 0, 0, 0]),
    Make(Op::Snd, [15, 0, 0, 0]),
    Make(Op::Snd, [17, 0, 0, 0]),
    Shift(0),
    Push(22, 8),
    Instance(11, 23),
    // 25: H >> snd (pair a u) = snd k : B{a}
    Conclude(Equality(TmEqTrans), [7, 20, 9, 21, 24, 0, 0, 0, 0, 0], [14, 6, 0, 0, 0, 0, 0]),
    // 26: id : H to H
    Conclude(Contexts(SubId), [7, 0, 0, 0, 0, 0, 0, 0, 0, 0], [0, 0, 0, 0, 0, 0, 0]),
    // 27: H >> B{fst (pair a u)} = B{a}
    Conclude(Instances(TyCong), [7, 22, 7, 10, 16, 8, 11, 0, 0, 0], [26, 1, 13, 0, 0, 0, 0]),
    Push(22, 16),
    Instance(11, 28),
    // 30: H >> B{a} = B{fst (pair a u)}
    Conclude(Equality(TyEqSym), [7, 29, 24, 0, 0, 0, 0, 0, 0, 0], [27, 0, 0, 0, 0, 0, 0]),
    // 31: H >> snd (pair a u) = snd k : B{fst (pair a u)}
    Conclude(Equality(TmEqConv), [7, 20, 21, 24, 29, 0, 0, 0, 0, 0], [25, 30, 0, 0, 0, 0, 0]),
    // 32: H >> pair a u = k : sig A B
    Conclude(Sigma(SigEta), [7, 15, 17, 10, 11, 0, 0, 0, 0, 0], [12, 4, 19, 31, 0, 0, 0]),
};

/// The rows of what it gives: equal.
pub static PAIR_LEFT_GIVES: &[u16] = &[32];
