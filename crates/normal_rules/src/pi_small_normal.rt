//! Written by tools/write_recipes.py.

use recipes::Row::{Conclude, Field, Instance, Make, Premise, Push, Shift, Var, WithVar};
use recipes::{Row, table};
use theory::ContextRule::{SubId, SubVar, SubWk};
use theory::EqualityRule::{TmConv, TyEqSym};
use theory::InstanceRule::{TmSub, TmVar, TyEqSub};
use theory::Op;
use theory::PiRule::{PiU, PiUCong};
use theory::RuleName::{Contexts, Equality, Instances, Pi, Universe};
use theory::UniverseRule::{TyEqU, TyU};

/// A type of functions in the universe whose parts are in normal form.
/// Its parts are H A N B M.
pub static PI_SMALL_NORMAL: &[Row] = table! {
    // 0: ctx H
    Premise(0),
    // 1: H >> A = N : U
    Premise(1),
    // 2: H >> N : U
    Premise(2),
    // 3: H.A >> B = M : U
    Premise(3),
    // 4: H.A >> M : U
    Premise(4),
    // 5: H >> A
    Premise(5),
    Field(0, 0),
    Field(1, 1),
    Field(1, 2),
    Field(3, 1),
    Field(3, 2),
    // 11: H >> pi A B = pi N M : U
    Conclude(Pi(PiUCong), [6, 7, 8, 9, 10, 0, 0, 0, 0, 0], [1, 3, 0, 0, 0, 0, 0]),
    // 12: id : H to H
    Conclude(Contexts(SubId), [6, 0, 0, 0, 0, 0, 0, 0, 0, 0], [0, 0, 0, 0, 0, 0, 0]),
    // 13: H >> N
    Conclude(Universe(TyU), [6, 8, 0, 0, 0, 0, 0, 0, 0, 0], [2, 0, 0, 0, 0, 0, 0]),
    Shift(0),
    // 15: up : H.N to H
    Conclude(Contexts(SubWk), [6, 14, 6, 8, 0, 0, 0, 0, 0, 0], [12, 13, 0, 0, 0, 0, 0]),
    // 16: H >> A = N
    Conclude(Universe(TyEqU), [6, 7, 8, 0, 0, 0, 0, 0, 0, 0], [1, 0, 0, 0, 0, 0, 0]),
    // 17: H >> N = A
    Conclude(Equality(TyEqSym), [6, 7, 8, 0, 0, 0, 0, 0, 0, 0], [16, 0, 0, 0, 0, 0, 0]),
    WithVar(6, 8),
    Shift(1),
    // 20: H.N >> N+ = A+
    Conclude(Instances(TyEqSub), [18, 19, 6, 8, 7, 0, 0, 0, 0, 0], [15, 17, 0, 0, 0, 0, 0]),
    // 21: H.N >> var 0 : N+
    Conclude(Instances(TmVar), [6, 8, 0, 0, 0, 0, 0, 0, 0, 0], [13, 0, 0, 0, 0, 0, 0]),
    Var(0),
    Instance(8, 19),
    Instance(7, 19),
    // 25: H.N >> var 0 : A+
    Conclude(Equality(TmConv), [18, 22, 23, 24, 0, 0, 0, 0, 0, 0], [21, 20, 0, 0, 0, 0, 0]),
    // 26: push up (var 0) : H.N to H.A
    Conclude(Contexts(SubVar), [18, 19, 6, 7, 22, 0, 0, 0, 0, 0], [15, 5, 25, 0, 0, 0, 0]),
    Push(19, 22),
    WithVar(6, 7),
    Make(Op::U, [0, 0, 0, 0]),
    // 30: H.N >> M : U
    Conclude(Instances(TmSub), [18, 27, 28, 10, 29, 0, 0, 0, 0, 0], [26, 4, 0, 0, 0, 0, 0]),
    // 31: H >> pi N M : U
    Conclude(Pi(PiU), [6, 8, 10, 0, 0, 0, 0, 0, 0, 0], [2, 30, 0, 0, 0, 0, 0]),
};

/// The rows of what it gives: equal, term.
pub static PI_SMALL_NORMAL_GIVES: &[u16] = &[11, 31];
