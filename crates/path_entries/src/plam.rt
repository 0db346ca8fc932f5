//! Written by tools/write_entries.py.

use recipes::Row::{Conclude, Part, Premise};
use recipes::{Row, table};
use theory::PathRule::PathTy;
use theory::RuleName::Paths;

/// `Type` of what plam concludes. Its parts are G A b u v.
pub static PLAM_TYPE: &[Row] = table! {
    // 0: G.I >> A
    Premise(0),
    // 1: G >> u : A{0}
    Premise(1),
    // 2: G >> v : A{1}
    Premise(2),
    Part(0),
    Part(1),
    Part(3),
    Part(4),
    // 7: G >> pathp A u v
    Conclude(Paths(PathTy), [3, 4, 5, 6, 0, 0, 0, 0, 0, 0], [0, 1, 2, 0, 0, 0, 0]),
};
