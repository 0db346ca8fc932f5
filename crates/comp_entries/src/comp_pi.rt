//! Written by tools/write_entries.py.

use recipes::Row::{Conclude, Instance, Make, Part, Premise, Push, Shift, Var, WithName, WithVar};
use recipes::{Row, table};
use theory::CompRule::Comp;
use theory::ContextRule::{SubForm, SubId, SubVar, SubWk};
use theory::InstanceRule::{TmVar, TySub};
use theory::Op;
use theory::PiRule::PiTy;
use theory::RuleName::{Composition, Contexts, Instances, Pi};

/// `Type` of what comp.pi concludes. Its parts are G A B p b a.
pub static COMP_PI_TYPE: &[Row] = table! {
    // 0: G.I >> A
    Premise(0),
    // 1: G.I.A >> B
    Premise(1),
    // 2: ctx G
    Premise(2),
    Part(0),
    // 4: id : G to G
    Conclude(Contexts(SubId), [3, 0, 0, 0, 0, 0, 0, 0, 0, 0], [2, 0, 0, 0, 0, 0, 0]),
    Shift(0),
    Make(Op::I1, [0, 0, 0, 0]),
    // 7: push id i1 : G to G.I
    Conclude(Contexts(SubForm), [3, 5, 3, 6, 0, 0, 0, 0, 0, 0], [4, 0, 0, 0, 0, 0, 0]),
    Push(5, 6),
    WithName(3),
    Part(1),
    // 11: G >> A{1}
    Conclude(Instances(TySub), [3, 8, 9, 10, 0, 0, 0, 0, 0, 0], [7, 0, 0, 0, 0, 0, 0]),
    Instance(10, 8),
    // 13: up : G.A{1} to G
    Conclude(Contexts(SubWk), [3, 5, 3, 12, 0, 0, 0, 0, 0, 0], [4, 11, 0, 0, 0, 0, 0]),
    WithVar(3, 12),
    Shift(1),
    // 16: push up i1 : G.A{1} to G.I
    Conclude(Contexts(SubForm), [14, 15, 3, 6, 0, 0, 0, 0, 0, 0], [13, 0, 0, 0, 0, 0, 0]),
    // 17: G.A{1} >> var 0 : A[push up i1]
    Conclude(Instances(TmVar), [3, 12, 0, 0, 0, 0, 0, 0, 0, 0], [11, 0, 0, 0, 0, 0, 0]),
    Push(15, 6),
    Var(0),
    // 20: push (push up i1) (var 0) : G.A{1} to G.I.A
    Conclude(Contexts(SubVar), [14, 18, 9, 10, 19, 0, 0, 0, 0, 0], [16, 0, 17, 0, 0, 0, 0]),
    Push(18, 19),
    WithVar(9, 10),
    Part(2),
    // 24: G.A{1} >> B[push (push up i1) (var 0)]
    Conclude(Instances(TySub), [14, 21, 22, 23, 0, 0, 0, 0, 0, 0], [20, 1, 0, 0, 0, 0, 0]),
    Instance(23, 21),
    // 26: G >> pi A{1} B[push (push up i1) (var 0)]
    Conclude(Pi(PiTy), [3, 12, 25, 0, 0, 0, 0, 0, 0, 0], [11, 24, 0, 0, 0, 0, 0]),
};

/// `Left` of what comp.pi concludes. Its parts are G A B p b a.
pub static COMP_PI_LEFT: &[Row] = table! {
    // 0: G.I >> A
    Premise(0),
    // 1: G.I.A >> B
    Premise(1),
    // 2: G.{p}.I >> b : pi A B
    Premise(2),
    // 3: G >> a : pi A{0} B[push (push up i0) (var 0)]
    Premise(3),
    // 4: G.{p} >> a = b{0} : pi A{0} B[push (push up i0) (var 0)]
    Premise(4),
    Part(0),
    WithName(5),
    Part(1),
    Part(2),
    // 9: G.I >> pi A B
    Conclude(Pi(PiTy), [6, 7, 8, 0, 0, 0, 0, 0, 0, 0], [0, 1, 0, 0, 0, 0, 0]),
    Make(Op::Pi, [7, 8, 0, 0]),
    Part(3),
    Part(4),
    Part(5),
    // 14: G >> comp (pi A B) p b a : pi A{1} B[push (push up i1) (var 0)]
    Conclude(Composition(Comp), [5, 10, 11, 12, 13, 0, 0, 0, 0, 0], [9, 2, 3, 4, 0, 0, 0]),
};
