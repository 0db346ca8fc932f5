//! Written by tools/write_recipes.py.

use recipes::Row::{Conclude, Field, Instance, Make, Premise, Push, Shift, Then, Var, WithVar};
use recipes::{Row, table};
use theory::ContextRule::{SubVar, SubWk};
use theory::EqualityRule::{TmEqRefl, TmEqTrans};
use theory::InstanceRule::{TmSub, TmVar, TySub};
use theory::Op;
use theory::PiRule::{AppCong, PiBeta};
use theory::RuleName::{Contexts, Equality, Instances, Pi};

/// What equals a function under a substitution, applied: the body, under the argument.
/// Its parts are H e K C b E a f.
pub static FIRE_BETA: &[Row] = table! {
    // 0: e : H to K
    Premise(0),
    // 1: K >> C
    Premise(1),
    // 2: K.C >> b : E
    Premise(2),
    // 3: H >> a : C[e]
    Premise(3),
    // 4: H >> f = lam C[e] b[over] : pi C[e] E[over]
    Premise(4),
    Field(0, 0),
    Field(0, 1),
    Field(0, 2),
    Field(1, 1),
    // 9: H >> C[e]
    Conclude(Instances(TySub), [5, 6, 7, 8, 0, 0, 0, 0, 0, 0], [0, 1, 0, 0, 0, 0, 0]),
    Instance(8, 6),
    // 11: e then up : H.C[e] to K
    Conclude(Contexts(SubWk), [5, 6, 7, 10, 0, 0, 0, 0, 0, 0], [0, 9, 0, 0, 0, 0, 0]),
    // 12: H.C[e] >> var 0 : C[e then up]
    Conclude(Instances(TmVar), [5, 10, 0, 0, 0, 0, 0, 0, 0, 0], [9, 0, 0, 0, 0, 0, 0]),
    WithVar(5, 10),
    Shift(1),
    Then(6, 14),
    Var(0),
    // 17: over : H.C[e] to K.C
    Conclude(Contexts(SubVar), [13, 15, 7, 8, 16, 0, 0, 0, 0, 0], [11, 1, 12, 0, 0, 0, 0]),
    Push(15, 16),
    WithVar(7, 8),
    Field(2, 1),
    Field(2, 2),
    // 22: H.C[e] >> b[over] : E[over]
    Conclude(Instances(TmSub), [13, 18, 19, 20, 21, 0, 0, 0, 0, 0], [17, 2, 0, 0, 0, 0, 0]),
    Field(3, 1),
    // 24: H >> a = a : C[e]
    Conclude(Equality(TmEqRefl), [5, 23, 10, 0, 0, 0, 0, 0, 0, 0], [3, 0, 0, 0, 0, 0, 0]),
    Field(4, 1),
    Instance(20, 18),
    Make(Op::Lam, [10, 26, 0, 0]),
    Instance(21, 18),
    // 29: H >> app f a = app (lam C[e] b[over]) a : E[push e a]
    Conclude(Pi(AppCong), [5, 25, 27, 23, 23, 10, 28, 0, 0, 0], [4, 24, 0, 0, 0, 0, 0]),
    // 30: H >> app (lam C[e] b[over]) a = b[push e a] : E[push e a]
    Conclude(Pi(PiBeta), [5, 10, 26, 23, 28, 0, 0, 0, 0, 0], [22, 3, 0, 0, 0, 0, 0]),
    Make(Op::App, [25, 23, 0, 0]),
    Make(Op::App, [27, 23, 0, 0]),
    Push(6, 23),
    Instance(20, 33),
    Instance(21, 33),
    // 36: H >> app f a = b[push e a] : E[push e a]
    Conclude(Equality(TmEqTrans), [5, 31, 32, 34, 35, 0, 0, 0, 0, 0], [29, 30, 0, 0, 0, 0, 0]),
    // 37: push e a : H to K.C
    Conclude(Contexts(SubVar), [5, 6, 7, 8, 23, 0, 0, 0, 0, 0], [0, 1, 3, 0, 0, 0, 0]),
};

/// The rows of what it gives: equal, pushed.
pub static FIRE_BETA_GIVES: &[u16] = &[36, 37];
