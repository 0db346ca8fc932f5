//! Written by tools/write_entries.py.

use recipes::Row::{Conclude, Instance, Make, Part, Premise, Push, Shift};
use recipes::{Row, table};
use theory::ContextRule::SubId;
use theory::EqualityRule::TmConv;
use theory::InstanceRule::TyCong;
use theory::Op;
use theory::RuleName::{Contexts, Equality, Instances, Sigma};
use theory::SigmaRule::{Pair, SigBeta1, Snd};

/// `Left` of what sig.beta2 concludes. Its parts are G a b A B.
pub static SIG_BETA2_LEFT: &[Row] = table! {
    // 0: G.A >> B
    Premise(0),
    // 1: G >> a : A
    Premise(1),
    // 2: G >> b : B{a}
    Premise(2),
    // 3: ctx G
    Premise(3),
    Part(0),
    Part(1),
    Part(2),
    Part(3),
    Part(4),
    // 9: G >> pair a b : sig A B
    Conclude(Sigma(Pair), [4, 5, 6, 7, 8, 0, 0, 0, 0, 0], [0, 1, 2, 0, 0, 0, 0]),
    Make(Op::Pair, [5, 6, 0, 0]),
    // 11: G >> snd (pair a b) : B{fst (pair a b)}
    Conclude(Sigma(Snd), [4, 10, 7, 8, 0, 0, 0, 0, 0, 0], [9, 0, 0, 0, 0, 0, 0]),
    // 12: id : G to G
    Conclude(Contexts(SubId), [4, 0, 0, 0, 0, 0, 0, 0, 0, 0], [3, 0, 0, 0, 0, 0, 0]),
    // 13: G >> fst (pair a b) = a : A
    Conclude(Sigma(SigBeta1), [4, 5, 6, 7, 8, 0, 0, 0, 0, 0], [0, 1, 2, 0, 0, 0, 0]),
    Shift(0),
    Make(Op::Fst, [10, 0, 0, 0]),
    // 16: G >> B{fst (pair a b)} = B{a}
    Conclude(Instances(TyCong), [4, 14, 4, 7, 15, 5, 8, 0, 0, 0], [12, 0, 13, 0, 0, 0, 0]),
    Make(Op::Snd, [10, 0, 0, 0]),
    Push(14, 15),
    Instance(8, 18),
    Push(14, 5),
    Instance(8, 20),
    // 22: G >> snd (pair a b) : B{a}
    Conclude(Equality(TmConv), [4, 17, 19, 21, 0, 0, 0, 0, 0, 0], [11, 16, 0, 0, 0, 0, 0]),
};
