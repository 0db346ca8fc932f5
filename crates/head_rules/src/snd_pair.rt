//! Written by tools/write_recipes.py.

use recipes::Row::{Conclude, Field, Instance, Make, Premise, Push, Shift, Then, Var, WithVar};
use recipes::{Row, table};
use theory::ContextRule::{SubVar, SubWk};
use theory::EqualityRule::{TmEqConv, TmEqTrans, TyEqSym};
use theory::InstanceRule::{TmSub, TmVar, TyCong, TySub};
use theory::Op;
use theory::RuleName::{Contexts, Equality, Instances, Sigma};
use theory::SigmaRule::{SigBeta2, SndCong};

/// The second half of what equals a pair under a substitution.
/// Its parts are H e K C E a b c.
pub static SND_PAIR: &[Row] = table! {
    // 0: e : H to K
    Premise(0),
    // 1: K >> C
    Premise(1),
    // 2: K.C >> E
    Premise(2),
    // 3: K >> a : C
    Premise(3),
    // 4: K >> b : E{a}
    Premise(4),
    // 5: H >> c = pair a[e] b[e] : sig C[e] E[over]
    Premise(5),
    // 6: H >> fst c = a[e] : C[e]
    Premise(6),
    Field(0, 0),
    Field(0, 1),
    Field(0, 2),
    Field(1, 1),
    // 11: H >> C[e]
    Conclude(Instances(TySub), [7, 8, 9, 10, 0, 0, 0, 0, 0, 0], [0, 1, 0, 0, 0, 0, 0]),
    Instance(10, 8),
    // 13: e then up : H.C[e] to K
    Conclude(Contexts(SubWk), [7, 8, 9, 12, 0, 0, 0, 0, 0, 0], [0, 11, 0, 0, 0, 0, 0]),
    // 14: H.C[e] >> var 0 : C[e then up]
    Conclude(Instances(TmVar), [7, 12, 0, 0, 0, 0, 0, 0, 0, 0], [11, 0, 0, 0, 0, 0, 0]),
    WithVar(7, 12),
    Shift(1),
    Then(8, 16),
    Var(0),
    // 19: over : H.C[e] to K.C
    Conclude(Contexts(SubVar), [15, 17, 9, 10, 18, 0, 0, 0, 0, 0], [13, 1, 14, 0, 0, 0, 0]),
    Push(17, 18),
    WithVar(9, 10),
    Field(2, 1),
    // 23: H.C[e] >> E[over]
    Conclude(Instances(TySub), [15, 20, 21, 22, 0, 0, 0, 0, 0, 0], [19, 2, 0, 0, 0, 0, 0]),
    Field(3, 1),
    // 25: H >> a[e] : C[e]
    Conclude(Instances(TmSub), [7, 8, 9, 24, 10, 0, 0, 0, 0, 0], [0, 3, 0, 0, 0, 0, 0]),
    Field(4, 1),
    Shift(0),
    Push(27, 24),
    Instance(22, 28),
    // 30: H >> b[e] : E[push e a[e]]
    Conclude(Instances(TmSub), [7, 8, 9, 26, 29, 0, 0, 0, 0, 0], [0, 4, 0, 0, 0, 0, 0]),
    Instance(24, 8),
    Instance(26, 8),
    Instance(22, 20),
    // 34: H >> snd (pair a[e] b[e]) = b[e] : E[push e a[e]]
    Conclude(Sigma(SigBeta2), [7, 31, 32, 12, 33, 0, 0, 0, 0, 0], [23, 25, 30, 0, 0, 0, 0]),
    Field(5, 1),
    Make(Op::Pair, [31, 32, 0, 0]),
    // 37: H >> snd c = snd (pair a[e] b[e]) : E[push e (fst c)]
    Conclude(Sigma(SndCong), [7, 35, 36, 12, 33, 0, 0, 0, 0, 0], [5, 0, 0, 0, 0, 0, 0]),
    Make(Op::Fst, [35, 0, 0, 0]),
    // 39: H >> E[push e (fst c)] = E[push e a[e]]
    Conclude(Instances(TyCong), [7, 8, 9, 10, 38, 31, 22, 0, 0, 0], [0, 2, 6, 0, 0, 0, 0]),
    Push(8, 38),
    Instance(22, 40),
    Push(8, 31),
    Instance(22, 42),
    // 44: H >> E[push e a[e]] = E[push e (fst c)]
    Conclude(Equality(TyEqSym), [7, 41, 43, 0, 0, 0, 0, 0, 0, 0], [39, 0, 0, 0, 0, 0, 0]),
    Make(Op::Snd, [35, 0, 0, 0]),
    Make(Op::Snd, [36, 0, 0, 0]),
    // 47: H >> snd c = snd (pair a[e] b[e]) : E[push e a[e]]
    Conclude(Equality(TmEqConv), [7, 45, 46, 41, 43, 0, 0, 0, 0, 0], [37, 39, 0, 0, 0, 0, 0]),
    // 48: H >> snd c = b[e] : E[push e a[e]]
    Conclude(Equality(TmEqTrans), [7, 45, 46, 32, 43, 0, 0, 0, 0, 0], [47, 34, 0, 0, 0, 0, 0]),
};

/// The rows of what it gives: equal, turn.
pub static SND_PAIR_GIVES: &[u16] = &[48, 44];
