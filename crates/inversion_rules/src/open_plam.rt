//! Written by tools/write_recipes.py.

use recipes::Row::{Conclude, Field, Instance, Make, Premise, Push, Shift, Then, Var, WithName};
use recipes::{Row, table};
use theory::ContextRule::{SubForm, SubWkName};
use theory::InstanceRule::{TmEqSub, TmSub};
use theory::Op;
use theory::RuleName::{Contexts, Instances};

/// The parts of a path, under a substitution.
/// Its parts are H d G A b u v.
pub static OPEN_PLAM: &[Row] = table! {
    // 0: d : H to G
    Premise(0),
    // 1: G.I >> b : A
    Premise(1),
    // 2: G >> b{0} = u : A{0}
    Premise(2),
    // 3: G >> b{1} = v : A{1}
    Premise(3),
    Field(0, 0),
    Field(0, 1),
    Field(0, 2),
    // 7: d then up : H.I to G
    Conclude(Contexts(SubWkName), [4, 5, 6, 0, 0, 0, 0, 0, 0, 0], [0, 0, 0, 0, 0, 0, 0]),
    WithName(4),
    Shift(1),
    Then(5, 9),
    Var(0),
    // 12: push (d then up) (var 0) : H.I to G.I
    Conclude(Contexts(SubForm), [8, 10, 6, 11, 0, 0, 0, 0, 0, 0], [7, 0, 0, 0, 0, 0, 0]),
    Push(10, 11),
    WithName(6),
    Field(1, 1),
    Field(1, 2),
    // 17: H.I >> b[push (d then up) (var 0)] : A[push (d then up) (var 0)]
    Conclude(Instances(TmSub), [8, 13, 14, 15, 16, 0, 0, 0, 0, 0], [12, 1, 0, 0, 0, 0, 0]),
    Shift(0),
    Make(Op::I0, [0, 0, 0, 0]),
    Push(18, 19),
    Instance(15, 20),
    Field(2, 2),
    Instance(16, 20),
    // 24: H >> b[push d i0] = u[d] : A[push d i0]
    Conclude(Instances(TmEqSub), [4, 5, 6, 21, 22, 23, 0, 0, 0, 0], [0, 2, 0, 0, 0, 0, 0]),
    Make(Op::I1, [0, 0, 0, 0]),
    Push(18, 25),
    Instance(15, 26),
    Field(3, 2),
    Instance(16, 26),
    // 30: H >> b[push d i1] = v[d] : A[push d i1]
    Conclude(Instances(TmEqSub), [4, 5, 6, 27, 28, 29, 0, 0, 0, 0], [0, 3, 0, 0, 0, 0, 0]),
};

/// The rows of what it gives: body, left_end, right_end.
pub static OPEN_PLAM_GIVES: &[u16] = &[17, 24, 30];
