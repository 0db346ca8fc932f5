//! Written by tools/write_recipes.py.

use recipes::Row::{Conclude, Field, Instance, Make, Part, Premise, Shift, Var, WithFace};
use recipes::{Row, table};
use theory::ContextRule::{SubFace, SubWkFace};
use theory::InstanceRule::{TmEqSub, TmSub, TySub};
use theory::Op;
use theory::RuleName::{Contexts, Instances};

/// The parts of an element of a glued type, under a substitution.
/// Its parts are H d G A p T w c a.
pub static OPEN_GLUE: &[Row] = table! {
    // 0: d : H to G
    Premise(0),
    // 1: G >> A
    Premise(1),
    // 2: G.{p} >> T
    Premise(2),
    // 3: G.{p} >> w : equiv T A
    Premise(3),
    // 4: G.{p} >> c : T
    Premise(4),
    // 5: G >> a : A
    Premise(5),
    // 6: G.{p} >> app (fst w) c = a : A
    Premise(6),
    Field(0, 0),
    Field(0, 1),
    Field(0, 2),
    Part(4),
    Instance(10, 8),
    // 12: d : H.{p[d]} to G
    Conclude(Contexts(SubWkFace), [7, 8, 9, 11, 0, 0, 0, 0, 0, 0], [0, 0, 0, 0, 0, 0, 0]),
    WithFace(7, 11),
    // 14: d : H.{p[d]} to G.{p}
    Conclude(Contexts(SubFace), [13, 8, 9, 10, 0, 0, 0, 0, 0, 0], [12, 0, 0, 0, 0, 0, 0]),
    Field(1, 1),
    // 16: H >> A[d]
    Conclude(Instances(TySub), [7, 8, 9, 15, 0, 0, 0, 0, 0, 0], [0, 1, 0, 0, 0, 0, 0]),
    WithFace(9, 10),
    Field(2, 1),
    // 19: H.{p[d]} >> T[d]
    Conclude(Instances(TySub), [13, 8, 17, 18, 0, 0, 0, 0, 0, 0], [14, 2, 0, 0, 0, 0, 0]),
    Field(3, 1),
    Shift(1),
    Instance(15, 21),
    Make(Op::Pi, [18, 22, 0, 0]),
    Shift(2),
    Instance(18, 24),
    Shift(4),
    Instance(15, 26),
    Var(1),
    Var(2),
    Var(0),
    Make(Op::App, [29, 30, 0, 0]),
    Make(Op::PathP, [27, 28, 31, 0]),
    Make(Op::Sig, [25, 32, 0, 0]),
    Instance(33, 21),
    Shift(3),
    Instance(33, 35),
    Make(Op::PathP, [36, 28, 30, 0]),
    Make(Op::Pi, [34, 37, 0, 0]),
    Make(Op::Sig, [33, 38, 0, 0]),
    Make(Op::Pi, [22, 39, 0, 0]),
    Make(Op::Sig, [23, 40, 0, 0]),
    // 42: H.{p[d]} >> w[d] : equiv T[d] A[d]
    Conclude(Instances(TmSub), [13, 8, 17, 20, 41, 0, 0, 0, 0, 0], [14, 3, 0, 0, 0, 0, 0]),
    Field(4, 1),
    // 44: H.{p[d]} >> c[d] : T[d]
    Conclude(Instances(TmSub), [13, 8, 17, 43, 18, 0, 0, 0, 0, 0], [14, 4, 0, 0, 0, 0, 0]),
    Field(5, 1),
    // 46: H >> a[d] : A[d]
    Conclude(Instances(TmSub), [7, 8, 9, 45, 15, 0, 0, 0, 0, 0], [0, 5, 0, 0, 0, 0, 0]),
    Make(Op::Fst, [20, 0, 0, 0]),
    Make(Op::App, [47, 43, 0, 0]),
    // 49: H.{p[d]} >> app (fst w[d]) c[d] = a[d] : A[d]
    Conclude(Instances(TmEqSub), [13, 8, 17, 48, 45, 15, 0, 0, 0, 0], [14, 6, 0, 0, 0, 0, 0]),
};

/// The rows of what it gives: base, side, equiv, part, whole, agree.
pub static OPEN_GLUE_GIVES: &[u16] = &[16, 19, 42, 44, 46, 49];
