//! Written by tools/write_entries.py.

use recipes::Row::{Conclude, Make, Part, Premise};
use recipes::{Row, table};
use theory::Op;
use theory::RuleName::Sigma;
use theory::SigmaRule::{Fst, Pair};

/// `Left` of what sig.beta1 concludes. Its parts are G a b A B.
pub static SIG_BETA1_LEFT: &[Row] = table! {
    // 0: G.A >> B
    Premise(0),
    // 1: G >> a : A
    Premise(1),
    // 2: G >> b : B{a}
    Premise(2),
    Part(0),
    Part(1),
    Part(2),
    Part(3),
    Part(4),
    // 8: G >> pair a b : sig A B
    Conclude(Sigma(Pair), [3, 4, 5, 6, 7, 0, 0, 0, 0, 0], [0, 1, 2, 0, 0, 0, 0]),
    Make(Op::Pair, [4, 5, 0, 0]),
    // 10: G >> fst (pair a b) : A
    Conclude(Sigma(Fst), [3, 9, 6, 7, 0, 0, 0, 0, 0, 0], [8, 0, 0, 0, 0, 0, 0]),
};
