//! Written by tools/write_recipes.py.

use recipes::Row::{Conclude, Field, Instance, Make, Premise, Push, Shift, Then, Var, WithVar};
use recipes::{Row, table};
use theory::ContextRule::{SubVar, SubWk};
use theory::InstanceRule::{TmSub, TmVar, TySub};
use theory::Op;
use theory::RuleName::{Contexts, Instances};

/// The parts of a recursion under a substitution.
/// Its parts are H d G P a b.
pub static NATREC_PARTS: &[Row] = table! {
    // 0: d : H to G
    Premise(0),
    // 1: G >> nat
    Premise(1),
    // 2: G.nat >> P
    Premise(2),
    // 3: G >> a : P{zero}
    Premise(3),
    // 4: G >> b : pi nat (pi P P[next])
    Premise(4),
    Field(0, 0),
    Field(0, 1),
    Field(0, 2),
    Make(Op::Nat, [0, 0, 0, 0]),
    // 9: H >> nat
    Conclude(Instances(TySub), [5, 6, 7, 8, 0, 0, 0, 0, 0, 0], [0, 1, 0, 0, 0, 0, 0]),
    // 10: d then up : H.nat to G
    Conclude(Contexts(SubWk), [5, 6, 7, 8, 0, 0, 0, 0, 0, 0], [0, 9, 0, 0, 0, 0, 0]),
    // 11: H.nat >> var 0 : nat
    Conclude(Instances(TmVar), [5, 8, 0, 0, 0, 0, 0, 0, 0, 0], [9, 0, 0, 0, 0, 0, 0]),
    WithVar(5, 8),
    Shift(1),
    Then(6, 13),
    Var(0),
    // 16: over : H.nat to G.nat
    Conclude(Contexts(SubVar), [12, 14, 7, 8, 15, 0, 0, 0, 0, 0], [10, 1, 11, 0, 0, 0, 0]),
    Push(14, 15),
    WithVar(7, 8),
    Field(2, 1),
    // 20: H.nat >> P[over]
    Conclude(Instances(TySub), [12, 17, 18, 19, 0, 0, 0, 0, 0, 0], [16, 2, 0, 0, 0, 0, 0]),
    Field(3, 1),
    Shift(0),
    Make(Op::Zero, [0, 0, 0, 0]),
    Push(22, 23),
    Instance(19, 24),
    // 26: H >> a[d] : P[push d zero]
    Conclude(Instances(TmSub), [5, 6, 7, 21, 25, 0, 0, 0, 0, 0], [0, 3, 0, 0, 0, 0, 0]),
    Field(4, 1),
    Shift(2),
    Var(1),
    Make(Op::Suc, [29, 0, 0, 0]),
    Push(28, 30),
    Instance(19, 31),
    Make(Op::Pi, [19, 32, 0, 0]),
    Make(Op::Pi, [8, 33, 0, 0]),
    // 35: H >> b[d] : (pi nat (pi P P[next]))[d]
    Conclude(Instances(TmSub), [5, 6, 7, 27, 34, 0, 0, 0, 0, 0], [0, 4, 0, 0, 0, 0, 0]),
};

/// The rows of what it gives: motive, base, step.
pub static NATREC_PARTS_GIVES: &[u16] = &[20, 26, 35];
