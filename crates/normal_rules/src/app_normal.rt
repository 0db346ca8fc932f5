//! Written by tools/write_recipes.py.

use recipes::Row::{Conclude, Field, Instance, Make, Part, Premise, Push, Shift, Then, Var};
use recipes::{Row, table};
use theory::EqualityRule::{TmEqConv, TyEqSym};
use theory::InstanceRule::TyCong;
use theory::Op;
use theory::PiRule::{App, AppCong};
use theory::RuleName::{Equality, Instances, Pi};

/// An application whose parts are in normal form.
/// Its parts are A H d G B f u a b.
pub static APP_NORMAL: &[Row] = table! {
    // 0: d : H to G
    Premise(0),
    // 1: G.A >> B
    Premise(1),
    // 2: H >> f = u : pi A[d] B[over]
    Premise(2),
    // 3: H >> u : pi A[d] B[over]
    Premise(3),
    // 4: H >> a = b : A[d]
    Premise(4),
    // 5: H >> b : A[d]
    Premise(5),
    Field(0, 0),
    Field(2, 1),
    Field(2, 2),
    Field(4, 1),
    Field(4, 2),
    Part(0),
    Field(0, 1),
    Instance(11, 12),
    Field(1, 1),
    Shift(1),
    Then(12, 15),
    Var(0),
    Push(16, 17),
    Instance(14, 18),
    // 20: H >> app f a = app u b : B[push d a]
    Conclude(Pi(AppCong), [6, 7, 8, 9, 10, 13, 19, 0, 0, 0], [2, 4, 0, 0, 0, 0, 0]),
    Field(0, 2),
    // 22: H >> B[push d a] = B[push d b]
    Conclude(Instances(TyCong), [6, 12, 21, 11, 9, 10, 14, 0, 0, 0], [0, 1, 4, 0, 0, 0, 0]),
    Push(12, 9),
    Instance(14, 23),
    Push(12, 10),
    Instance(14, 25),
    // 27: H >> B[push d b] = B[push d a]
    Conclude(Equality(TyEqSym), [6, 24, 26, 0, 0, 0, 0, 0, 0, 0], [22, 0, 0, 0, 0, 0, 0]),
    Make(Op::App, [7, 9, 0, 0]),
    Make(Op::App, [8, 10, 0, 0]),
    // 30: H >> app f a = app u b : B[push d b]
    Conclude(Equality(TmEqConv), [6, 28, 29, 24, 26, 0, 0, 0, 0, 0], [20, 22, 0, 0, 0, 0, 0]),
    // 31: H >> app u b : B[push d b]
    Conclude(Pi(App), [6, 8, 10, 13, 19, 0, 0, 0, 0, 0], [3, 5, 0, 0, 0, 0, 0]),
};

/// The rows of what it gives: equal, turn, term.
pub static APP_NORMAL_GIVES: &[u16] = &[30, 27, 31];
