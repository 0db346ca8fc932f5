//! Written by tools/write_recipes.py.

use recipes::Row::{Conclude, Field, Instance, Make, Premise, Push, Shift, Then, Var, WithName};
use recipes::{Row, table};
use theory::ContextRule::{SubForm, SubWkName};
use theory::InstanceRule::{TmSub, TySub};
use theory::Op;
use theory::RuleName::{Contexts, Instances};

/// The parts of a type of paths, under a substitution.
/// Its parts are H d G A u v.
pub static OPEN_PATHP: &[Row] = table! {
    // 0: d : H to G
    Premise(0),
    // 1: G.I >> A
    Premise(1),
    // 2: G >> u : A{0}
    Premise(2),
    // 3: G >> v : A{1}
    Premise(3),
    Field(0, 0),
    Field(0, 1),
    Field(0, 2),
    // 7: d then up : H.I to G
    Conclude(Contexts(SubWkName), [4, 5, 6, 0, 0, 0, 0, 0, 0, 0], [0, 0, 0, 0, 0, 0, 0]),
    WithName(4),
    Shift(1),
    Then(5, 9),
    Var(0),
    // 12: push (d then up) (var 0) : H.I to G.I
    Conclude(Contexts(SubForm), [8, 10, 6, 11, 0, 0, 0, 0, 0, 0], [7, 0, 0, 0, 0, 0, 0]),
    Push(10, 11),
    WithName(6),
    Field(1, 1),
    // 16: H.I >> A[push (d then up) (var 0)]
    Conclude(Instances(TySub), [8, 13, 14, 15, 0, 0, 0, 0, 0, 0], [12, 1, 0, 0, 0, 0, 0]),
    Field(2, 1),
    Shift(0),
    Make(Op::I0, [0, 0, 0, 0]),
    Push(18, 19),
    Instance(15, 20),
    // 22: H >> u[d] : A[push d i0]
    Conclude(Instances(TmSub), [4, 5, 6, 17, 21, 0, 0, 0, 0, 0], [0, 2, 0, 0, 0, 0, 0]),
    Field(3, 1),
    Make(Op::I1, [0, 0, 0, 0]),
    Push(18, 24),
    Instance(15, 25),
    // 27: H >> v[d] : A[push d i1]
    Conclude(Instances(TmSub), [4, 5, 6, 23, 26, 0, 0, 0, 0, 0], [0, 3, 0, 0, 0, 0, 0]),
};

/// The rows of what it gives: line, left_end, right_end.
pub static OPEN_PATHP_GIVES: &[u16] = &[16, 22, 27];
