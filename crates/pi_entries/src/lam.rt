//! Written by tools/write_entries.py.

use recipes::Row::{Conclude, Part, Premise};
use recipes::{Row, table};
use theory::PiRule::PiTy;
use theory::RuleName::Pi;

/// `Type` of what lam concludes. Its parts are G A b B.
pub static LAM_TYPE: &[Row] = table! {
    // 0: G >> A
    Premise(0),
    // 1: G.A >> B
    Premise(1),
    Part(0),
    Part(1),
    Part(3),
    // 5: G >> pi A B
    Conclude(Pi(PiTy), [2, 3, 4, 0, 0, 0, 0, 0, 0, 0], [0, 1, 0, 0, 0, 0, 0]),
};
