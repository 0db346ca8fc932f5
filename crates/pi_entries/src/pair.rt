//! Written by tools/write_entries.py.

use recipes::Row::{Conclude, Part, Premise};
use recipes::{Row, table};
use theory::RuleName::Sigma;
use theory::SigmaRule::SigTy;

/// `Type` of what pair concludes. Its parts are G a b A B.
pub static PAIR_TYPE: &[Row] = table! {
    // 0: G.A >> B
    Premise(0),
    // 1: G >> A
    Premise(1),
    Part(0),
    Part(3),
    Part(4),
    // 5: G >> sig A B
    Conclude(Sigma(SigTy), [2, 3, 4, 0, 0, 0, 0, 0, 0, 0], [1, 0, 0, 0, 0, 0, 0]),
};
