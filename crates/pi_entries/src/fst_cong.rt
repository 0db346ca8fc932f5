//! Written by tools/write_entries.py.

use recipes::Row::{Conclude, Part, Premise};
use recipes::{Row, table};
use theory::RuleName::Sigma;
use theory::SigmaRule::Fst;

/// `Left` of what fst.cong concludes. Its parts are G c k A B.
pub static FST_CONG_LEFT: &[Row] = table! {
    // 0: G >> c : sig A B
    Premise(0),
    Part(0),
    Part(1),
    Part(3),
    Part(4),
    // 5: G >> fst c : A
    Conclude(Sigma(Fst), [1, 2, 3, 4, 0, 0, 0, 0, 0, 0], [0, 0, 0, 0, 0, 0, 0]),
};

/// `Right` of what fst.cong concludes. Its parts are G c k A B.
pub static FST_CONG_RIGHT: &[Row] = table! {
    // 0: G >> k : sig A B
    Premise(0),
    Part(0),
    Part(2),
    Part(3),
    Part(4),
    // 5: G >> fst k : A
    Conclude(Sigma(Fst), [1, 2, 3, 4, 0, 0, 0, 0, 0, 0], [0, 0, 0, 0, 0, 0, 0]),
};
