//! Written by tools/write_recipes.py.

use recipes::Row::{
    Conclude, Field, Instance, Make, Part, Premise, Push, Shift, WithFace, WithName,
};
use recipes::{Row, table};
use theory::ContextRule::{CtxFace, SubForm, SubId, SubWkFace};
use theory::EqualityRule::{TmEqSym, TmEqTrans};
use theory::InstanceRule::{TmEqSub, TmSub};
use theory::Op;
use theory::RuleName::{Contexts, Equality, Instances};

/// Where the face of a side is true, its start equals what the base equals.
/// Its parts are p H b a m.
pub static BASE_AT_START: &[Row] = table! {
    // 0: ctx H
    Premise(0),
    // 1: HpI >> b : nat
    Premise(1),
    // 2: H >> a : nat
    Premise(2),
    // 3: Hp >> a = b{i0} : nat
    Premise(3),
    // 4: H >> a = suc m : nat
    Premise(4),
    // 5: H >> m : nat
    Premise(5),
    Field(0, 0),
    // 7: id : H to H
    Conclude(Contexts(SubId), [6, 0, 0, 0, 0, 0, 0, 0, 0, 0], [0, 0, 0, 0, 0, 0, 0]),
    Shift(0),
    Part(0),
    // 10: id : Hp to H
    Conclude(Contexts(SubWkFace), [6, 8, 6, 9, 0, 0, 0, 0, 0, 0], [7, 0, 0, 0, 0, 0, 0]),
    // 11: ctx Hp
    Conclude(Contexts(CtxFace), [6, 9, 0, 0, 0, 0, 0, 0, 0, 0], [0, 0, 0, 0, 0, 0, 0]),
    WithFace(6, 9),
    // 13: id : Hp to Hp
    Conclude(Contexts(SubId), [12, 0, 0, 0, 0, 0, 0, 0, 0, 0], [11, 0, 0, 0, 0, 0, 0]),
    Make(Op::I0, [0, 0, 0, 0]),
    // 15: push id i0 : Hp to HpI
    Conclude(Contexts(SubForm), [12, 8, 12, 14, 0, 0, 0, 0, 0, 0], [13, 0, 0, 0, 0, 0, 0]),
    Field(5, 1),
    Make(Op::Nat, [0, 0, 0, 0]),
    // 18: Hp >> m : nat
    Conclude(Instances(TmSub), [12, 8, 6, 16, 17, 0, 0, 0, 0, 0], [10, 5, 0, 0, 0, 0, 0]),
    Push(8, 14),
    WithName(12),
    Field(1, 1),
    // 22: Hp >> b{i0} : nat
    Conclude(Instances(TmSub), [12, 19, 20, 21, 17, 0, 0, 0, 0, 0], [15, 1, 0, 0, 0, 0, 0]),
    Field(2, 1),
    Make(Op::Suc, [16, 0, 0, 0]),
    // 25: Hp >> a = suc m : nat
    Conclude(Instances(TmEqSub), [12, 8, 6, 23, 24, 17, 0, 0, 0, 0], [10, 4, 0, 0, 0, 0, 0]),
    Instance(21, 19),
    // 27: Hp >> b{i0} = a : nat
    Conclude(Equality(TmEqSym), [12, 23, 26, 17, 0, 0, 0, 0, 0, 0], [3, 0, 0, 0, 0, 0, 0]),
    // 28: Hp >> b{i0} = suc m : nat
    Conclude(Equality(TmEqTrans), [12, 26, 23, 24, 17, 0, 0, 0, 0, 0], [27, 25, 0, 0, 0, 0, 0]),
};

/// The rows of what it gives: context, start, number, equal.
pub static BASE_AT_START_GIVES: &[u16] = &[11, 22, 18, 28];
