//! Written by tools/write_entries.py.

use recipes::Row::{Conclude, Make, Part, Premise, Shift, WithFace};
use recipes::{Row, table};
use theory::ContextRule::{SubId, SubWkFace};
use theory::InstanceRule::TmSub;
use theory::Op;
use theory::RuleName::{Contexts, Instances, Systems};
use theory::SystemRule::SysTm;

/// `Left` of what sys.right concludes. Its parts are G p q a b A.
pub static SYS_RIGHT_LEFT: &[Row] = table! {
    // 0: G >> A
    Premise(0),
    // 1: G.{p} >> a : A
    Premise(1),
    // 2: G.{q} >> b : A
    Premise(2),
    // 3: G.{p}.{q} >> a = b : A
    Premise(3),
    // 4: ctx G
    Premise(4),
    Part(0),
    Part(1),
    Part(2),
    Part(3),
    Part(4),
    Part(5),
    // 11: G >> sys p q a b : A
    Conclude(Systems(SysTm), [5, 6, 7, 8, 9, 10, 0, 0, 0, 0], [0, 1, 2, 3, 0, 0, 0]),
    // 12: id : G to G
    Conclude(Contexts(SubId), [5, 0, 0, 0, 0, 0, 0, 0, 0, 0], [4, 0, 0, 0, 0, 0, 0]),
    Shift(0),
    // 14: id : G.{q} to G
    Conclude(Contexts(SubWkFace), [5, 13, 5, 7, 0, 0, 0, 0, 0, 0], [12, 0, 0, 0, 0, 0, 0]),
    WithFace(5, 7),
    Make(Op::Sys, [6, 7, 8, 9]),
    // 17: G.{q} >> sys p q a b : A
    Conclude(Instances(TmSub), [15, 13, 5, 16, 10, 0, 0, 0, 0, 0], [14, 11, 0, 0, 0, 0, 0]),
};
