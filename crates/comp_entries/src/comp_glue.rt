//! Written by tools/write_entries.py.

use recipes::Row::{Conclude, Instance, Make, Part, Premise, Push, Shift, Var, WithFace, WithName};
use recipes::{Row, table};
use theory::CompRule::Comp;
use theory::ContextRule::{SubFace, SubForm, SubId, SubWkFace};
use theory::GlueRule::GlueTy;
use theory::InstanceRule::{TmSub, TySub};
use theory::Op;
use theory::RuleName::{Composition, Contexts, Gluing, Instances};

/// `Type` of what comp.glue concludes. Its parts are G A q T w p b a.
pub static COMP_GLUE_TYPE: &[Row] = table! {
    // 0: G.I >> A
    Premise(0),
    // 1: G.I.{q} >> T
    Premise(1),
    // 2: G.I.{q} >> w : equiv T A
    Premise(2),
    // 3: ctx G
    Premise(3),
    Part(0),
    // 5: id : G to G
    Conclude(Contexts(SubId), [4, 0, 0, 0, 0, 0, 0, 0, 0, 0], [3, 0, 0, 0, 0, 0, 0]),
    Shift(0),
    Make(Op::I1, [0, 0, 0, 0]),
    // 8: push id i1 : G to G.I
    Conclude(Contexts(SubForm), [4, 6, 4, 7, 0, 0, 0, 0, 0, 0], [5, 0, 0, 0, 0, 0, 0]),
    Push(6, 7),
    WithName(4),
    Part(1),
    // 12: G >> A{1}
    Conclude(Instances(TySub), [4, 9, 10, 11, 0, 0, 0, 0, 0, 0], [8, 0, 0, 0, 0, 0, 0]),
    Part(2),
    Instance(13, 9),
    // 15: id : G.{q{1}} to G
    Conclude(Contexts(SubWkFace), [4, 6, 4, 14, 0, 0, 0, 0, 0, 0], [5, 0, 0, 0, 0, 0, 0]),
    WithFace(4, 14),
    // 17: push id i1 : G.{q{1}} to G.I
    Conclude(Contexts(SubForm), [16, 6, 4, 7, 0, 0, 0, 0, 0, 0], [15, 0, 0, 0, 0, 0, 0]),
    // 18: push id i1 : G.{q{1}} to G.I.{q}
    Conclude(Contexts(SubFace), [16, 9, 10, 13, 0, 0, 0, 0, 0, 0], [17, 0, 0, 0, 0, 0, 0]),
    WithFace(10, 13),
    Part(3),
    // 21: G.{q{1}} >> T{1}
    Conclude(Instances(TySub), [16, 9, 19, 20, 0, 0, 0, 0, 0, 0], [18, 1, 0, 0, 0, 0, 0]),
    Part(4),
    Shift(1),
    Instance(11, 23),
    Make(Op::Pi, [20, 24, 0, 0]),
    Shift(2),
    Instance(20, 26),
    Shift(4),
    Instance(11, 28),
    Var(1),
    Var(2),
    Var(0),
    Make(Op::App, [31, 32, 0, 0]),
    Make(Op::PathP, [29, 30, 33, 0]),
    Make(Op::Sig, [27, 34, 0, 0]),
    Instance(35, 23),
    Shift(3),
    Instance(35, 37),
    Make(Op::PathP, [38, 30, 32, 0]),
    Make(Op::Pi, [36, 39, 0, 0]),
    Make(Op::Sig, [35, 40, 0, 0]),
    Make(Op::Pi, [24, 41, 0, 0]),
    Make(Op::Sig, [25, 42, 0, 0]),
    // 44: G.{q{1}} >> w{1} : equiv T{1} A{1}
    Conclude(Instances(TmSub), [16, 9, 19, 22, 43, 0, 0, 0, 0, 0], [18, 2, 0, 0, 0, 0, 0]),
    Instance(11, 9),
    Instance(20, 9),
    Instance(22, 9),
    // 48: G >> Glue A{1} q{1} T{1} w{1}
    Conclude(Gluing(GlueTy), [4, 45, 14, 46, 47, 0, 0, 0, 0, 0], [12, 21, 44, 0, 0, 0, 0]),
};

/// `Left` of what comp.glue concludes. Its parts are G A q T w p b a.
pub static COMP_GLUE_LEFT: &[Row] = table! {
    // 0: G.I >> A
    Premise(0),
    // 1: G.I.{q} >> T
    Premise(1),
    // 2: G.I.{q} >> w : equiv T A
    Premise(2),
    // 3: G.{p}.I >> b : Glue A q T w
    Premise(3),
    // 4: G >> a : Glue A{0} q{0} T{0} w{0}
    Premise(4),
    // 5: G.{p} >> a = b{0} : Glue A{0} q{0} T{0} w{0}
    Premise(5),
    Part(0),
    WithName(6),
    Part(1),
    Part(2),
    Part(3),
    Part(4),
    // 12: G.I >> Glue A q T w
    Conclude(Gluing(GlueTy), [7, 8, 9, 10, 11, 0, 0, 0, 0, 0], [0, 1, 2, 0, 0, 0, 0]),
    Make(Op::GlueType, [8, 9, 10, 11]),
    Part(5),
    Part(6),
    Part(7),
    // 17: G >> comp (Glue A q T w) p b a : Glue A{1} q{1} T{1} w{1}
    Conclude(Composition(Comp), [6, 13, 14, 15, 16, 0, 0, 0, 0, 0], [12, 3, 4, 5, 0, 0, 0]),
};
