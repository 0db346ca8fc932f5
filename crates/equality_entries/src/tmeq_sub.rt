//! Written by tools/write_entries.py.

use recipes::Row::{Conclude, Part, Premise};
use recipes::{Row, table};
use theory::InstanceRule::{TmSub, TySub};
use theory::RuleName::Instances;

/// `Type` of what tmeq.sub concludes. Its parts are H d G a b A.
pub static TMEQ_SUB_TYPE: &[Row] = table! {
    // 0: d : H to G
    Premise(0),
    // 1: G >> A
    Premise(1),
    Part(0),
    Part(1),
    Part(2),
    Part(5),
    // 6: H >> A[d]
    Conclude(Instances(TySub), [2, 3, 4, 5, 0, 0, 0, 0, 0, 0], [0, 1, 0, 0, 0, 0, 0]),
};

/// `Left` of what tmeq.sub concludes. Its parts are H d G a b A.
pub static TMEQ_SUB_LEFT: &[Row] = table! {
    // 0: d : H to G
    Premise(0),
    // 1: G >> a : A
    Premise(1),
    Part(0),
    Part(1),
    Part(2),
    Part(3),
    Part(5),
    // 7: H >> a[d] : A[d]
    Conclude(Instances(TmSub), [2, 3, 4, 5, 6, 0, 0, 0, 0, 0], [0, 1, 0, 0, 0, 0, 0]),
};

/// `Right` of what tmeq.sub concludes. Its parts are H d G a b A.
pub static TMEQ_SUB_RIGHT: &[Row] = table! {
    // 0: d : H to G
    Premise(0),
    // 1: G >> b : A
    Premise(1),
    Part(0),
    Part(1),
    Part(2),
    Part(4),
    Part(5),
    // 7: H >> b[d] : A[d]
    Conclude(Instances(TmSub), [2, 3, 4, 5, 6, 0, 0, 0, 0, 0], [0, 1, 0, 0, 0, 0, 0]),
};
