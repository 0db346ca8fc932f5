//! Written by tools/write_entries.py.

use recipes::Row::{Conclude, Instance, Make, Part, Premise, Push, Shift, WithFace, WithName};
use recipes::{Row, table};
use theory::CompRule::Comp;
use theory::ContextRule::{SubForm, SubId, SubWkFace};
use theory::InstanceRule::{TmSub, TySub};
use theory::Op;
use theory::RuleName::{Composition, Contexts, Instances};

/// `Type` of what comp.face concludes. Its parts are G A p b a.
pub static COMP_FACE_TYPE: &[Row] = table! {
    // 0: G.I >> A
    Premise(0),
    // 1: ctx G
    Premise(1),
    Part(0),
    // 3: id : G to G
    Conclude(Contexts(SubId), [2, 0, 0, 0, 0, 0, 0, 0, 0, 0], [1, 0, 0, 0, 0, 0, 0]),
    Shift(0),
    Part(2),
    // 6: id : G.{p} to G
    Conclude(Contexts(SubWkFace), [2, 4, 2, 5, 0, 0, 0, 0, 0, 0], [3, 0, 0, 0, 0, 0, 0]),
    WithFace(2, 5),
    Make(Op::I1, [0, 0, 0, 0]),
    // 9: push id i1 : G.{p} to G.I
    Conclude(Contexts(SubForm), [7, 4, 2, 8, 0, 0, 0, 0, 0, 0], [6, 0, 0, 0, 0, 0, 0]),
    Push(4, 8),
    WithName(2),
    Part(1),
    // 13: G.{p} >> A{1}
    Conclude(Instances(TySub), [7, 10, 11, 12, 0, 0, 0, 0, 0, 0], [9, 0, 0, 0, 0, 0, 0]),
};

/// `Left` of what comp.face concludes. Its parts are G A p b a.
pub static COMP_FACE_LEFT: &[Row] = table! {
    // 0: G.I >> A
    Premise(0),
    // 1: G.{p}.I >> b : A
    Premise(1),
    // 2: G >> a : A{0}
    Premise(2),
    // 3: G.{p} >> a = b{0} : A{0}
    Premise(3),
    // 4: ctx G
    Premise(4),
    Part(0),
    Part(1),
    Part(2),
    Part(3),
    Part(4),
    // 10: G >> comp A p b a : A{1}
    Conclude(Composition(Comp), [5, 6, 7, 8, 9, 0, 0, 0, 0, 0], [0, 1, 2, 3, 0, 0, 0]),
    // 11: id : G to G
    Conclude(Contexts(SubId), [5, 0, 0, 0, 0, 0, 0, 0, 0, 0], [4, 0, 0, 0, 0, 0, 0]),
    Shift(0),
    // 13: id : G.{p} to G
    Conclude(Contexts(SubWkFace), [5, 12, 5, 7, 0, 0, 0, 0, 0, 0], [11, 0, 0, 0, 0, 0, 0]),
    WithFace(5, 7),
    Make(Op::Comp, [6, 7, 8, 9]),
    Make(Op::I1, [0, 0, 0, 0]),
    Push(12, 16),
    Instance(6, 17),
    // 19: G.{p} >> comp A p b a : A{1}
    Conclude(Instances(TmSub), [14, 12, 5, 15, 18, 0, 0, 0, 0, 0], [13, 10, 0, 0, 0, 0, 0]),
};

/// `Right` of what comp.face concludes. Its parts are G A p b a.
pub static COMP_FACE_RIGHT: &[Row] = table! {
    // 0: G.{p}.I >> b : A
    Premise(0),
    // 1: ctx G.{p}
    Premise(1),
    Part(0),
    Part(2),
    WithFace(2, 3),
    // 5: id : G.{p} to G.{p}
    Conclude(Contexts(SubId), [4, 0, 0, 0, 0, 0, 0, 0, 0, 0], [1, 0, 0, 0, 0, 0, 0]),
    Shift(0),
    Make(Op::I1, [0, 0, 0, 0]),
    // 8: push id i1 : G.{p} to G.{p}.I
    Conclude(Contexts(SubForm), [4, 6, 4, 7, 0, 0, 0, 0, 0, 0], [5, 0, 0, 0, 0, 0, 0]),
    Push(6, 7),
    WithName(4),
    Part(3),
    Part(1),
    // 13: G.{p} >> b{1} : A{1}
    Conclude(Instances(TmSub), [4, 9, 10, 11, 12, 0, 0, 0, 0, 0], [8, 0, 0, 0, 0, 0, 0]),
};
