//! Written by tools/write_recipes.py.

use recipes::Row::{Conclude, Field, Instance, Make, Premise, Push, Shift, Var, WithVar};
use recipes::{Row, table};
use theory::ContextRule::{SubId, SubVar, SubWk};
use theory::EqualityRule::TmEqTrans;
use theory::InstanceRule::{TmSub, TmVar, TySub};
use theory::Op;
use theory::PiRule::{Lam, PiBeta, PiEta};
use theory::RuleName::{Contexts, Equality, Instances, Pi};

/// A function that agrees on a variable with the body of one equals that.
/// Its parts are H A b B g.
pub static LAM_LEFT: &[Row] = table! {
    // 0: ctx H
    Premise(0),
    // 1: H >> A
    Premise(1),
    // 2: H.A >> b : B
    Premise(2),
    // 3: H >> g : pi A B
    Premise(3),
    // 4: H.A >> b = app g+ x : B
    Premise(4),
    Field(0, 0),
    // 6: id : H to H
    Conclude(Contexts(SubId), [5, 0, 0, 0, 0, 0, 0, 0, 0, 0], [0, 0, 0, 0, 0, 0, 0]),
    Shift(0),
    Field(1, 1),
    // 9: up : H.A to H
    Conclude(Contexts(SubWk), [5, 7, 5, 8, 0, 0, 0, 0, 0, 0], [6, 1, 0, 0, 0, 0, 0]),
    WithVar(5, 8),
    Shift(1),
    // 12: H.A >> A+
    Conclude(Instances(TySub), [10, 11, 5, 8, 0, 0, 0, 0, 0, 0], [9, 1, 0, 0, 0, 0, 0]),
    Instance(8, 11),
    // 14: shift 2 : H.A.A+ to H
    Conclude(Contexts(SubWk), [10, 11, 5, 13, 0, 0, 0, 0, 0, 0], [9, 12, 0, 0, 0, 0, 0]),
    // 15: H.A.A+ >> x : A[shift 2]
    Conclude(Instances(TmVar), [10, 13, 0, 0, 0, 0, 0, 0, 0, 0], [12, 0, 0, 0, 0, 0, 0]),
    WithVar(10, 13),
    Shift(2),
    Var(0),
    // 19: aside : H.A.A+ to H.A
    Conclude(Contexts(SubVar), [16, 17, 5, 8, 18, 0, 0, 0, 0, 0], [14, 1, 15, 0, 0, 0, 0]),
    // 20: H.A >> x : A+
    Conclude(Instances(TmVar), [5, 8, 0, 0, 0, 0, 0, 0, 0, 0], [1, 0, 0, 0, 0, 0, 0]),
    Push(17, 18),
    Field(2, 1),
    Field(2, 2),
    // 24: H.A.A+ >> b[aside] : B[aside]
    Conclude(Instances(TmSub), [16, 21, 10, 22, 23, 0, 0, 0, 0, 0], [19, 2, 0, 0, 0, 0, 0]),
    Instance(22, 21),
    Instance(23, 21),
    // 27: H.A >> app (lam A+ b[aside]) x = b : B
    Conclude(Pi(PiBeta), [10, 13, 25, 18, 26, 0, 0, 0, 0, 0], [24, 20, 0, 0, 0, 0, 0]),
    Make(Op::Lam, [13, 25, 0, 0]),
    Make(Op::App, [28, 18, 0, 0]),
    Field(3, 1),
    Instance(30, 11),
    Make(Op::App, [31, 18, 0, 0]),
    // 33: H.A >> app (lam A+ b[aside]) x = app g+ x : B
    Conclude(Equality(TmEqTrans), [10, 29, 22, 32, 23, 0, 0, 0, 0, 0], [27, 4, 0, 0, 0, 0, 0]),
    // 34: H >> lam A b : pi A B
    Conclude(Pi(Lam), [5, 8, 22, 23, 0, 0, 0, 0, 0, 0], [1, 2, 0, 0, 0, 0, 0]),
    Make(Op::Lam, [8, 22, 0, 0]),
    // 36: H >> lam A b = g : pi A B
    Conclude(Pi(PiEta), [5, 35, 30, 8, 23, 0, 0, 0, 0, 0], [34, 3, 33, 0, 0, 0, 0]),
};

/// The rows of what it gives: equal.
pub static LAM_LEFT_GIVES: &[u16] = &[36];
