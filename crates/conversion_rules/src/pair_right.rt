//! Written by tools/write_recipes.py.

use recipes::Row::{Conclude, Field, Instance, Make, Premise, Push, Shift};
use recipes::{Row, table};
use theory::ContextRule::SubId;
use theory::EqualityRule::{TmEqConv, TmEqSym, TmEqTrans, TyEqSym};
use theory::InstanceRule::TyCong;
use theory::Op;
use theory::RuleName::{Contexts, Equality, Instances, Sigma};
use theory::SigmaRule::{Pair, SigBeta1, SigBeta2, SigEta};

/// The same, where the pair is on the right.
/// Its parts are H A B a u c.
pub static PAIR_RIGHT: &[Row] = table! {
    // 0: ctx H
    Premise(0),
    // 1: H.A >> B
    Premise(1),
    // 2: H >> a : A
    Premise(2),
    // 3: H >> u : B{a}
    Premise(3),
    // 4: H >> c : sig A B
    Premise(4),
    // 5: H >> fst c = a : A
    Premise(5),
    // 6: H >> snd c = u : B{fst c}
    Premise(6),
    Field(0, 0),
    Field(2, 1),
    Field(3, 1),
    Field(2, 2),
    Field(1, 1),
    // 12: H >> pair a u : sig A B
    Conclude(Sigma(Pair), [7, 8, 9, 10, 11, 0, 0, 0, 0, 0], [1, 2, 3, 0, 0, 0, 0]),
    // 13: H >> fst (pair a u) = a : A
    Conclude(Sigma(SigBeta1), [7, 8, 9, 10, 11, 0, 0, 0, 0, 0], [1, 2, 3, 0, 0, 0, 0]),
    // 14: H >> snd (pair a u) = u : B{a}
    Conclude(Sigma(SigBeta2), [7, 8, 9, 10, 11, 0, 0, 0, 0, 0], [1, 2, 3, 0, 0, 0, 0]),
    Make(Op::Pair, [8, 9, 0, 0]),
    Make(Op::Fst, [15, 0, 0, 0]),
    // 17: H >> a = fst (pair a u) : A
    Conclude(Equality(TmEqSym), [7, 16, 8, 10, 0, 0, 0, 0, 0, 0], [13, 0, 0, 0, 0, 0, 0]),
    Field(4, 1),
    Make(Op::Fst, [18, 0, 0, 0]),
    // 20: H >> fst c = fst (pair a u) : A
    Conclude(Equality(TmEqTrans), [7, 19, 8, 16, 10, 0, 0, 0, 0, 0], [5, 17, 0, 0, 0, 0, 0]),
    // 21: id : H to H
    Conclude(Contexts(SubId), [7, 0, 0, 0, 0, 0, 0, 0, 0, 0], [0, 0, 0, 0, 0, 0, 0]),
    Shift(0),
    // 23: H >> B{fst c} = B{a}
    Conclude(Instances(TyCong), [7, 22, 7, 10, 19, 8, 11, 0, 0, 0], [21, 1, 5, 0, 0, 0, 0]),
    Push(22, 19),
    Instance(11, 24),
    Push(22, 8),
    Instance(11, 26),
    // 28: H >> B{a} = B{fst c}
    Conclude(Equality(TyEqSym), [7, 25, 27, 0, 0, 0, 0, 0, 0, 0], [23, 0, 0, 0, 0, 0, 0]),
    Make(Op::Snd, [15, 0, 0, 0]),
    // 30: H >> u = snd (pair a u) : B{a}
    Conclude(Equality(TmEqSym), [7, 29, 9, 27, 0, 0, 0, 0, 0, 0], [14, 0, 0, 0, 0, 0, 0]),
    // 31: H >> u = snd (pair a u) : B{fst c}
    Conclude(Equality(TmEqConv), [7, 9, 29, 27, 25, 0, 0, 0, 0, 0], [30, 28, 0, 0, 0, 0, 0]),
    Make(Op::Snd, [18, 0, 0, 0]),
    // 33: H >> snd c = snd (pair a u) : B{fst c}
    Conclude(Equality(TmEqTrans), [7, 32, 9, 29, 25, 0, 0, 0, 0, 0], [6, 31, 0, 0, 0, 0, 0]),
    // 34: H >> c = pair a u : sig A B
    Conclude(Sigma(SigEta), [7, 18, 15, 10, 11, 0, 0, 0, 0, 0], [4, 12, 20, 33, 0, 0, 0]),
};

/// The rows of what it gives: equal.
pub static PAIR_RIGHT_GIVES: &[u16] = &[34];
