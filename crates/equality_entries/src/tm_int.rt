//! Written by tools/write_entries.py.

use recipes::Row::{Conclude, Instance, Part, Premise};
use recipes::{Row, table};
use theory::EqualityRule::{TmConv, TyEqSym};
use theory::InstanceRule::{TmSub, TyInt, TySub};
use theory::RuleName::{Equality, Instances};

/// `Type` of what tm.int concludes. Its parts are H d e G c B.
pub static TM_INT_TYPE: &[Row] = table! {
    // 0: d : H to G
    Premise(0),
    // 1: G >> B
    Premise(1),
    Part(0),
    Part(1),
    Part(3),
    Part(5),
    // 6: H >> B[d]
    Conclude(Instances(TySub), [2, 3, 4, 5, 0, 0, 0, 0, 0, 0], [0, 1, 0, 0, 0, 0, 0]),
};

/// `Left` of what tm.int concludes. Its parts are H d e G c B.
pub static TM_INT_LEFT: &[Row] = table! {
    // 0: d : H to G
    Premise(0),
    // 1: G >> c : B
    Premise(1),
    Part(0),
    Part(1),
    Part(3),
    Part(4),
    Part(5),
    // 7: H >> c[d] : B[d]
    Conclude(Instances(TmSub), [2, 3, 4, 5, 6, 0, 0, 0, 0, 0], [0, 1, 0, 0, 0, 0, 0]),
};

/// `Right` of what tm.int concludes. Its parts are H d e G c B.
pub static TM_INT_RIGHT: &[Row] = table! {
    // 0: d : H to G
    Premise(0),
    // 1: e : H to G
    Premise(1),
    // 2: G >> c : B
    Premise(2),
    // 3: G >> B
    Premise(3),
    Part(0),
    Part(2),
    Part(3),
    Part(4),
    Part(5),
    // 9: H >> c[e] : B[e]
    Conclude(Instances(TmSub), [4, 5, 6, 7, 8, 0, 0, 0, 0, 0], [1, 2, 0, 0, 0, 0, 0]),
    Part(1),
    // 11: H >> B[d] = B[e]
    Conclude(Instances(TyInt), [4, 10, 5, 6, 8, 0, 0, 0, 0, 0], [0, 1, 3, 0, 0, 0, 0]),
    Instance(8, 10),
    Instance(8, 5),
    // 14: H >> B[e] = B[d]
    Conclude(Equality(TyEqSym), [4, 12, 13, 0, 0, 0, 0, 0, 0, 0], [11, 0, 0, 0, 0, 0, 0]),
    Instance(7, 5),
    // 16: H >> c[e] : B[d]
    Conclude(Equality(TmConv), [4, 15, 13, 12, 0, 0, 0, 0, 0, 0], [9, 14, 0, 0, 0, 0, 0]),
};
