//! Written by tools/write_entries.py.

use recipes::Row::{Conclude, Make, Part, Premise, Shift, WithFace};
use recipes::{Row, table};
use theory::ContextRule::{SubId, SubWkFace};
use theory::InstanceRule::TySub;
use theory::Op;
use theory::RuleName::{Contexts, Instances, Systems};
use theory::SystemRule::SysTy;

/// `Left` of what sys.tyleft concludes. Its parts are G p q A B.
pub static SYS_TYLEFT_LEFT: &[Row] = table! {
    // 0: G.{p} >> A
    Premise(0),
    // 1: G.{q} >> B
    Premise(1),
    // 2: G.{p}.{q} >> A = B
    Premise(2),
    // 3: ctx G
    Premise(3),
    Part(0),
    Part(1),
    Part(2),
    Part(3),
    Part(4),
    // 9: G >> sys p q A B
    Conclude(Systems(SysTy), [4, 5, 6, 7, 8, 0, 0, 0, 0, 0], [0, 1, 2, 0, 0, 0, 0]),
    // 10: id : G to G
    Conclude(Contexts(SubId), [4, 0, 0, 0, 0, 0, 0, 0, 0, 0], [3, 0, 0, 0, 0, 0, 0]),
    Shift(0),
    // 12: id : G.{p} to G
    Conclude(Contexts(SubWkFace), [4, 11, 4, 5, 0, 0, 0, 0, 0, 0], [10, 0, 0, 0, 0, 0, 0]),
    WithFace(4, 5),
    Make(Op::Sys, [5, 6, 7, 8]),
    // 15: G.{p} >> sys p q A B
    Conclude(Instances(TySub), [13, 11, 4, 14, 0, 0, 0, 0, 0, 0], [12, 9, 0, 0, 0, 0, 0]),
};
