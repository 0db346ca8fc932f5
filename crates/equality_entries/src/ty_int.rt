//! Written by tools/write_entries.py.

use recipes::Row::{Conclude, Part, Premise};
use recipes::{Row, table};
use theory::InstanceRule::TySub;
use theory::RuleName::Instances;

/// `Left` of what ty.int concludes. Its parts are H d e G B.
pub static TY_INT_LEFT: &[Row] = table! {
    // 0: d : H to G
    Premise(0),
    // 1: G >> B
    Premise(1),
    Part(0),
    Part(1),
    Part(3),
    Part(4),
    // 6: H >> B[d]
    Conclude(Instances(TySub), [2, 3, 4, 5, 0, 0, 0, 0, 0, 0], [0, 1, 0, 0, 0, 0, 0]),
};

/// `Right` of what ty.int concludes. Its parts are H d e G B.
pub static TY_INT_RIGHT: &[Row] = table! {
    // 0: e : H to G
    Premise(0),
    // 1: G >> B
    Premise(1),
    Part(0),
    Part(2),
    Part(3),
    Part(4),
    // 6: H >> B[e]
    Conclude(Instances(TySub), [2, 3, 4, 5, 0, 0, 0, 0, 0, 0], [0, 1, 0, 0, 0, 0, 0]),
};
