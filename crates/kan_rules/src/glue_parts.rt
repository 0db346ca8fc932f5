//! Written by tools/write_recipes.py.

use recipes::Row::{Conclude, Field, Instance, Make, Part, Premise, Shift, Var, WithFace};
use recipes::{Row, table};
use theory::ContextRule::{SubFace, SubWkFace};
use theory::InstanceRule::{TmSub, TySub};
use theory::Op;
use theory::RuleName::{Contexts, Instances};

/// The parts of a glued type under a substitution.
/// Its parts are p H d G A T w.
pub static GLUE_PARTS: &[Row] = table! {
    // 0: d : H to G
    Premise(0),
    // 1: G >> A
    Premise(1),
    // 2: G.{p} >> T
    Premise(2),
    // 3: G.{p} >> w : equiv T A
    Premise(3),
    Field(0, 0),
    Field(0, 1),
    Field(0, 2),
    Part(0),
    Instance(7, 5),
    // 9: d : H.{p[d]} to G
    Conclude(Contexts(SubWkFace), [4, 5, 6, 8, 0, 0, 0, 0, 0, 0], [0, 0, 0, 0, 0, 0, 0]),
    WithFace(4, 8),
    // 11: d : H.{p[d]} to G.{p}
    Conclude(Contexts(SubFace), [10, 5, 6, 7, 0, 0, 0, 0, 0, 0], [9, 0, 0, 0, 0, 0, 0]),
    Field(1, 1),
    // 13: H >> A[d]
    Conclude(Instances(TySub), [4, 5, 6, 12, 0, 0, 0, 0, 0, 0], [0, 1, 0, 0, 0, 0, 0]),
    WithFace(6, 7),
    Field(2, 1),
    // 16: H.{p[d]} >> T[d]
    Conclude(Instances(TySub), [10, 5, 14, 15, 0, 0, 0, 0, 0, 0], [11, 2, 0, 0, 0, 0, 0]),
    Field(3, 1),
    Shift(1),
    Instance(12, 18),
    Make(Op::Pi, [15, 19, 0, 0]),
    Shift(2),
    Instance(15, 21),
    Shift(4),
    Instance(12, 23),
    Var(1),
    Var(2),
    Var(0),
    Make(Op::App, [26, 27, 0, 0]),
    Make(Op::PathP, [24, 25, 28, 0]),
    Make(Op::Sig, [22, 29, 0, 0]),
    Instance(30, 18),
    Shift(3),
    Instance(30, 32),
    Make(Op::PathP, [33, 25, 27, 0]),
    Make(Op::Pi, [31, 34, 0, 0]),
    Make(Op::Sig, [30, 35, 0, 0]),
    Make(Op::Pi, [19, 36, 0, 0]),
    Make(Op::Sig, [20, 37, 0, 0]),
    // 39: H.{p[d]} >> w[d] : (equiv T A)[d]
    Conclude(Instances(TmSub), [10, 5, 14, 17, 38, 0, 0, 0, 0, 0], [11, 3, 0, 0, 0, 0, 0]),
};

/// The rows of what it gives: base, type, map, lifted.
pub static GLUE_PARTS_GIVES: &[u16] = &[13, 16, 39, 11];
