//! Written by tools/write_entries.py.

use recipes::Row::{Conclude, Instance, Make, Part, Premise, Push, Shift, Var, WithName};
use recipes::{Row, table};
use theory::CompRule::Comp;
use theory::ContextRule::{SubForm, SubId, SubWkName};
use theory::InstanceRule::{TmSub, TySub};
use theory::Op;
use theory::PathRule::PathTy;
use theory::RuleName::{Composition, Contexts, Instances, Paths};

/// `Type` of what comp.path concludes. Its parts are G A u v p b a.
pub static COMP_PATH_TYPE: &[Row] = table! {
    // 0: G.I.I >> A
    Premise(0),
    // 1: G.I >> u : A{0}
    Premise(1),
    // 2: G.I >> v : A{1}
    Premise(2),
    // 3: ctx G
    Premise(3),
    Part(0),
    // 5: id : G to G
    Conclude(Contexts(SubId), [4, 0, 0, 0, 0, 0, 0, 0, 0, 0], [3, 0, 0, 0, 0, 0, 0]),
    Shift(0),
    // 7: up : G.I to G
    Conclude(Contexts(SubWkName), [4, 6, 4, 0, 0, 0, 0, 0, 0, 0], [5, 0, 0, 0, 0, 0, 0]),
    WithName(4),
    Shift(1),
    Make(Op::I1, [0, 0, 0, 0]),
    // 11: push up i1 : G.I to G.I
    Conclude(Contexts(SubForm), [8, 9, 4, 10, 0, 0, 0, 0, 0, 0], [7, 0, 0, 0, 0, 0, 0]),
    Push(9, 10),
    Var(0),
    // 14: push (push up i1) (var 0) : G.I to G.I.I
    Conclude(Contexts(SubForm), [8, 12, 8, 13, 0, 0, 0, 0, 0, 0], [11, 0, 0, 0, 0, 0, 0]),
    Push(12, 13),
    WithName(8),
    Part(1),
    // 18: G.I >> A[push (push up i1) (var 0)]
    Conclude(Instances(TySub), [8, 15, 16, 17, 0, 0, 0, 0, 0, 0], [14, 0, 0, 0, 0, 0, 0]),
    // 19: push id i1 : G to G.I
    Conclude(Contexts(SubForm), [4, 6, 4, 10, 0, 0, 0, 0, 0, 0], [5, 0, 0, 0, 0, 0, 0]),
    Push(6, 10),
    Part(2),
    Make(Op::I0, [0, 0, 0, 0]),
    Push(6, 22),
    Instance(17, 23),
    // 25: G >> u{1} : A[push (push id i1) i0]
    Conclude(Instances(TmSub), [4, 20, 8, 21, 24, 0, 0, 0, 0, 0], [19, 1, 0, 0, 0, 0, 0]),
    Part(3),
    Instance(17, 20),
    // 28: G >> v{1} : A[push (push id i1) i1]
    Conclude(Instances(TmSub), [4, 20, 8, 26, 27, 0, 0, 0, 0, 0], [19, 2, 0, 0, 0, 0, 0]),
    Instance(17, 15),
    Instance(21, 20),
    Instance(26, 20),
    // 32: G >> pathp A[push (push up i1) (var 0)] u{1} v{1}
    Conclude(Paths(PathTy), [4, 29, 30, 31, 0, 0, 0, 0, 0, 0], [18, 25, 28, 0, 0, 0, 0]),
};

/// `Left` of what comp.path concludes. Its parts are G A u v p b a.
pub static COMP_PATH_LEFT: &[Row] = table! {
    // 0: G.I.I >> A
    Premise(0),
    // 1: G.I >> u : A{0}
    Premise(1),
    // 2: G.I >> v : A{1}
    Premise(2),
    // 3: G.{p}.I >> b : pathp A u v
    Premise(3),
    // 4: G >> a : pathp A[push (push up i0) (var 0)] u{0} v{0}
    Premise(4),
    // 5: G.{p} >> a = b{0} : pathp A[push (push up i0) (var 0)] u{0} v{0}
    Premise(5),
    Part(0),
    WithName(6),
    Part(1),
    Part(2),
    Part(3),
    // 11: G.I >> pathp A u v
    Conclude(Paths(PathTy), [7, 8, 9, 10, 0, 0, 0, 0, 0, 0], [0, 1, 2, 0, 0, 0, 0]),
    Make(Op::PathP, [8, 9, 10, 0]),
    Part(4),
    Part(5),
    Part(6),
    // 16: G >> comp (pathp A u v) p b a : pathp A[push (push up i1) (var 0)] u{1} v{1}
    Conclude(Composition(Comp), [6, 12, 13, 14, 15, 0, 0, 0, 0, 0], [11, 3, 4, 5, 0, 0, 0]),
};
