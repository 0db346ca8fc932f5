//! Written by tools/write_entries.py.

use recipes::Row::{Conclude, Part, Premise};
use recipes::{Row, table};
use theory::EqualityRule::TmConv;
use theory::RuleName::Equality;

/// `Left` of what tmeq.conv concludes. Its parts are G a b A B.
pub static TMEQ_CONV_LEFT: &[Row] = table! {
    // 0: G >> A = B
    Premise(0),
    // 1: G >> a : A
    Premise(1),
    Part(0),
    Part(1),
    Part(3),
    Part(4),
    // 6: G >> a : B
    Conclude(Equality(TmConv), [2, 3, 4, 5, 0, 0, 0, 0, 0, 0], [1, 0, 0, 0, 0, 0, 0]),
};

/// `Right` of what tmeq.conv concludes. Its parts are G a b A B.
pub static TMEQ_CONV_RIGHT: &[Row] = table! {
    // 0: G >> A = B
    Premise(0),
    // 1: G >> b : A
    Premise(1),
    Part(0),
    Part(2),
    Part(3),
    Part(4),
    // 6: G >> b : B
    Conclude(Equality(TmConv), [2, 3, 4, 5, 0, 0, 0, 0, 0, 0], [1, 0, 0, 0, 0, 0, 0]),
};
