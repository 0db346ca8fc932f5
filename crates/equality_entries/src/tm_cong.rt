//! Written by tools/write_entries.py.

use recipes::Row::{Conclude, Instance, Part, Premise, Push, WithVar};
use recipes::{Row, table};
use theory::ContextRule::SubVar;
use theory::EqualityRule::{TmConv, TyEqSym};
use theory::InstanceRule::{TmSub, TyCong, TySub};
use theory::RuleName::{Contexts, Equality, Instances};

/// `Type` of what tm.cong concludes. Its parts are H d G A a b c B.
pub static TM_CONG_TYPE: &[Row] = table! {
    // 0: d : H to G
    Premise(0),
    // 1: G.A >> B
    Premise(1),
    // 2: H >> a : A[d]
    Premise(2),
    // 3: G >> A
    Premise(3),
    Part(0),
    Part(1),
    Part(2),
    Part(3),
    Part(4),
    // 9: push d a : H to G.A
    Conclude(Contexts(SubVar), [4, 5, 6, 7, 8, 0, 0, 0, 0, 0], [0, 3, 2, 0, 0, 0, 0]),
    Push(5, 8),
    WithVar(6, 7),
    Part(7),
    // 13: H >> B[push d a]
    Conclude(Instances(TySub), [4, 10, 11, 12, 0, 0, 0, 0, 0, 0], [9, 1, 0, 0, 0, 0, 0]),
};

/// `Left` of what tm.cong concludes. Its parts are H d G A a b c B.
pub static TM_CONG_LEFT: &[Row] = table! {
    // 0: d : H to G
    Premise(0),
    // 1: G.A >> c : B
    Premise(1),
    // 2: H >> a : A[d]
    Premise(2),
    // 3: G >> A
    Premise(3),
    Part(0),
    Part(1),
    Part(2),
    Part(3),
    Part(4),
    // 9: push d a : H to G.A
    Conclude(Contexts(SubVar), [4, 5, 6, 7, 8, 0, 0, 0, 0, 0], [0, 3, 2, 0, 0, 0, 0]),
    Push(5, 8),
    WithVar(6, 7),
    Part(6),
    Part(7),
    // 14: H >> c[push d a] : B[push d a]
    Conclude(Instances(TmSub), [4, 10, 11, 12, 13, 0, 0, 0, 0, 0], [9, 1, 0, 0, 0, 0, 0]),
};

/// `Right` of what tm.cong concludes. Its parts are H d G A a b c B.
pub static TM_CONG_RIGHT: &[Row] = table! {
    // 0: d : H to G
    Premise(0),
    // 1: G.A >> c : B
    Premise(1),
    // 2: H >> a = b : A[d]
    Premise(2),
    // 3: G.A >> B
    Premise(3),
    // 4: H >> b : A[d]
    Premise(4),
    // 5: G >> A
    Premise(5),
    Part(0),
    Part(1),
    Part(2),
    Part(3),
    Part(5),
    // 11: push d b : H to G.A
    Conclude(Contexts(SubVar), [6, 7, 8, 9, 10, 0, 0, 0, 0, 0], [0, 5, 4, 0, 0, 0, 0]),
    Push(7, 10),
    WithVar(8, 9),
    Part(6),
    Part(7),
    // 16: H >> c[push d b] : B[push d b]
    Conclude(Instances(TmSub), [6, 12, 13, 14, 15, 0, 0, 0, 0, 0], [11, 1, 0, 0, 0, 0, 0]),
    Part(4),
    // 18: H >> B[push d a] = B[push d b]
    Conclude(Instances(TyCong), [6, 7, 8, 9, 17, 10, 15, 0, 0, 0], [0, 3, 2, 0, 0, 0, 0]),
    Push(7, 17),
    Instance(15, 19),
    Instance(15, 12),
    // 22: H >> B[push d b] = B[push d a]
    Conclude(Equality(TyEqSym), [6, 20, 21, 0, 0, 0, 0, 0, 0, 0], [18, 0, 0, 0, 0, 0, 0]),
    Instance(14, 12),
    // 24: H >> c[push d b] : B[push d a]
    Conclude(Equality(TmConv), [6, 23, 21, 20, 0, 0, 0, 0, 0, 0], [16, 22, 0, 0, 0, 0, 0]),
};
