//! Written by tools/write_recipes.py.

use recipes::Row::{Conclude, Field, Instance, Premise, Push, Shift, Var, WithVar};
use recipes::{Row, table};
use theory::ContextRule::{SubId, SubVar, SubWk};
use theory::EqualityRule::{TmConv, TyEqSym};
use theory::InstanceRule::{TmVar, TyEqSub, TySub};
use theory::PiRule::{PiTy, PiTyCong};
use theory::RuleName::{Contexts, Equality, Instances, Pi};

/// A type of functions whose parts are in normal form.
/// Its parts are H A N B M.
pub static PI_NORMAL: &[Row] = table! {
    // 0: ctx H
    Premise(0),
    // 1: H >> A = N
    Premise(1),
    // 2: H >> N
    Premise(2),
    // 3: H.A >> B = M
    Premise(3),
    // 4: H.A >> M
    Premise(4),
    // 5: H >> A
    Premise(5),
    Field(0, 0),
    Field(1, 1),
    Field(1, 2),
    Field(3, 1),
    Field(3, 2),
    // 11: H >> pi A B = pi N M
    Conclude(Pi(PiTyCong), [6, 7, 8, 9, 10, 0, 0, 0, 0, 0], [1, 3, 0, 0, 0, 0, 0]),
    // 12: id : H to H
    Conclude(Contexts(SubId), [6, 0, 0, 0, 0, 0, 0, 0, 0, 0], [0, 0, 0, 0, 0, 0, 0]),
    Shift(0),
    // 14: up : H.N to H
    Conclude(Contexts(SubWk), [6, 13, 6, 8, 0, 0, 0, 0, 0, 0], [12, 2, 0, 0, 0, 0, 0]),
    // 15: H >> N = A
    Conclude(Equality(TyEqSym), [6, 7, 8, 0, 0, 0, 0, 0, 0, 0], [1, 0, 0, 0, 0, 0, 0]),
    WithVar(6, 8),
    Shift(1),
    // 18: H.N >> N+ = A+
    Conclude(Instances(TyEqSub), [16, 17, 6, 8, 7, 0, 0, 0, 0, 0], [14, 15, 0, 0, 0, 0, 0]),
    // 19: H.N >> var 0 : N+
    Conclude(Instances(TmVar), [6, 8, 0, 0, 0, 0, 0, 0, 0, 0], [2, 0, 0, 0, 0, 0, 0]),
    Var(0),
    Instance(8, 17),
    Instance(7, 17),
    // 23: H.N >> var 0 : A+
    Conclude(Equality(TmConv), [16, 20, 21, 22, 0, 0, 0, 0, 0, 0], [19, 18, 0, 0, 0, 0, 0]),
    // 24: push up (var 0) : H.N to H.A
    Conclude(Contexts(SubVar), [16, 17, 6, 7, 20, 0, 0, 0, 0, 0], [14, 5, 23, 0, 0, 0, 0]),
    Push(17, 20),
    WithVar(6, 7),
    // 27: H.N >> M
    Conclude(Instances(TySub), [16, 25, 26, 10, 0, 0, 0, 0, 0, 0], [24, 4, 0, 0, 0, 0, 0]),
    // 28: H >> pi N M
    Conclude(Pi(PiTy), [6, 8, 10, 0, 0, 0, 0, 0, 0, 0], [2, 27, 0, 0, 0, 0, 0]),
};

/// The rows of what it gives: equal, term.
pub static PI_NORMAL_GIVES: &[u16] = &[11, 28];
