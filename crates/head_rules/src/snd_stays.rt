//! Written by tools/write_recipes.py.

use recipes::Row::{Conclude, Field, Instance, Make, Part, Premise, Push, Shift, Then, Var};
use recipes::{Row, table};
use theory::EqualityRule::{TmEqConv, TyEqSym};
use theory::InstanceRule::TyCong;
use theory::Op;
use theory::RuleName::{Equality, Instances, Sigma};
use theory::SigmaRule::{FstCong, Snd, SndCong};

/// The second half of what equals another pair.
/// Its parts are A B H d G c u.
pub static SND_STAYS: &[Row] = table! {
    // 0: d : H to G
    Premise(0),
    // 1: G.A >> B
    Premise(1),
    // 2: H >> c = u : sig A[d] B[over]
    Premise(2),
    // 3: H >> u : sig A[d] B[over]
    Premise(3),
    Field(0, 0),
    Field(2, 1),
    Field(2, 2),
    Part(0),
    Field(0, 1),
    Instance(7, 8),
    Field(1, 1),
    Shift(1),
    Then(8, 11),
    Var(0),
    Push(12, 13),
    Instance(10, 14),
    // 16: H >> snd c = snd u : B[push d (fst c)]
    Conclude(Sigma(SndCong), [4, 5, 6, 9, 15, 0, 0, 0, 0, 0], [2, 0, 0, 0, 0, 0, 0]),
    // 17: H >> fst c = fst u : A[d]
    Conclude(Sigma(FstCong), [4, 5, 6, 9, 15, 0, 0, 0, 0, 0], [2, 0, 0, 0, 0, 0, 0]),
    Field(0, 2),
    Make(Op::Fst, [5, 0, 0, 0]),
    Make(Op::Fst, [6, 0, 0, 0]),
    // 21: H >> B[push d (fst c)] = B[push d (fst u)]
    Conclude(Instances(TyCong), [4, 8, 18, 7, 19, 20, 10, 0, 0, 0], [0, 1, 17, 0, 0, 0, 0]),
    Push(8, 19),
    Instance(10, 22),
    Push(8, 20),
    Instance(10, 24),
    // 26: H >> B[push d (fst u)] = B[push d (fst c)]
    Conclude(Equality(TyEqSym), [4, 23, 25, 0, 0, 0, 0, 0, 0, 0], [21, 0, 0, 0, 0, 0, 0]),
    Make(Op::Snd, [5, 0, 0, 0]),
    Make(Op::Snd, [6, 0, 0, 0]),
    // 29: H >> snd c = snd u : B[push d (fst u)]
    Conclude(Equality(TmEqConv), [4, 27, 28, 23, 25, 0, 0, 0, 0, 0], [16, 21, 0, 0, 0, 0, 0]),
    // 30: H >> snd u : B[push d (fst u)]
    Conclude(Sigma(Snd), [4, 6, 9, 15, 0, 0, 0, 0, 0, 0], [3, 0, 0, 0, 0, 0, 0]),
};

/// The rows of what it gives: equal, turn, term.
pub static SND_STAYS_GIVES: &[u16] = &[29, 26, 30];
