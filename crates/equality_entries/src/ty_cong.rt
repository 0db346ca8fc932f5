//! Written by tools/write_entries.py.

use recipes::Row::{Conclude, Part, Premise, Push, WithVar};
use recipes::{Row, table};
use theory::ContextRule::SubVar;
use theory::InstanceRule::TySub;
use theory::RuleName::{Contexts, Instances};

/// `Left` of what ty.cong concludes. Its parts are H d G A a b B.
pub static TY_CONG_LEFT: &[Row] = table! {
    // 0: d : H to G
    Premise(0),
    // 1: G.A >> B
    Premise(1),
    // 2: H >> a : A[d]
    Premise(2),
    // 3: G >> A
    Premise(3),
    Part(0),
    Part(1),
    Part(2),
    Part(3),
    Part(4),
    // 9: push d a : H to G.A
    Conclude(Contexts(SubVar), [4, 5, 6, 7, 8, 0, 0, 0, 0, 0], [0, 3, 2, 0, 0, 0, 0]),
    Push(5, 8),
    WithVar(6, 7),
    Part(6),
    // 13: H >> B[push d a]
    Conclude(Instances(TySub), [4, 10, 11, 12, 0, 0, 0, 0, 0, 0], [9, 1, 0, 0, 0, 0, 0]),
};

/// `Right` of what ty.cong concludes. Its parts are H d G A a b B.
pub static TY_CONG_RIGHT: &[Row] = table! {
    // 0: d : H to G
    Premise(0),
    // 1: G.A >> B
    Premise(1),
    // 2: H >> b : A[d]
    Premise(2),
    // 3: G >> A
    Premise(3),
    Part(0),
    Part(1),
    Part(2),
    Part(3),
    Part(5),
    // 9: push d b : H to G.A
    Conclude(Contexts(SubVar), [4, 5, 6, 7, 8, 0, 0, 0, 0, 0], [0, 3, 2, 0, 0, 0, 0]),
    Push(5, 8),
    WithVar(6, 7),
    Part(6),
    // 13: H >> B[push d b]
    Conclude(Instances(TySub), [4, 10, 11, 12, 0, 0, 0, 0, 0, 0], [9, 1, 0, 0, 0, 0, 0]),
};
