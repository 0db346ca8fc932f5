//! Written by tools/write_recipes.py.

use recipes::Row::{Conclude, Field, Make, Part, Premise, WithFace, WithName};
use recipes::{Row, table};
use theory::CompRule::{CompCong, CompZero};
use theory::ContextRule::{CtxFace, CtxName};
use theory::EqualityRule::{TmEqAbsurd, TmEqTrans, TyEqRefl};
use theory::NatRule::Zero;
use theory::Op;
use theory::RuleName::{Composition, Contexts, Equality, Naturals};

/// A composition of numbers over a face that is never true, of what equals zero.
/// Its parts are p H b a.
pub static COMP_NAT_ZERO: &[Row] = table! {
    // 0: ctx H
    Premise(0),
    // 1: H.I >> nat
    Premise(1),
    // 2: HpI >> b : nat
    Premise(2),
    // 3: H >> a : nat
    Premise(3),
    // 4: Hp >> a = b{i0} : nat
    Premise(4),
    // 5: H >> a = zero : nat
    Premise(5),
    Field(0, 0),
    Part(0),
    // 8: ctx Hp
    Conclude(Contexts(CtxFace), [6, 7, 0, 0, 0, 0, 0, 0, 0, 0], [0, 0, 0, 0, 0, 0, 0]),
    WithFace(6, 7),
    // 10: ctx HpI
    Conclude(Contexts(CtxName), [9, 0, 0, 0, 0, 0, 0, 0, 0, 0], [8, 0, 0, 0, 0, 0, 0]),
    WithName(9),
    // 12: HpI >> zero : nat
    Conclude(Naturals(Zero), [11, 0, 0, 0, 0, 0, 0, 0, 0, 0], [10, 0, 0, 0, 0, 0, 0]),
    Field(2, 1),
    Make(Op::Zero, [0, 0, 0, 0]),
    Make(Op::Nat, [0, 0, 0, 0]),
    // 16: HpI >> b = zero : nat
    Conclude(Equality(TmEqAbsurd), [11, 13, 14, 15, 0, 0, 0, 0, 0, 0], [2, 12, 0, 0, 0, 0, 0]),
    WithName(6),
    // 18: H.I >> nat = nat
    Conclude(Equality(TyEqRefl), [17, 15, 0, 0, 0, 0, 0, 0, 0, 0], [1, 0, 0, 0, 0, 0, 0]),
    Field(3, 1),
    // 20: H >> comp nat p b a = comp nat p zero zero : nat
    Conclude(Composition(CompCong), [6, 15, 15, 7, 7, 13, 14, 19, 14, 0], [18, 2, 3, 4, 16, 5, 0]),
    // 21: H >> comp nat p zero zero = zero : nat
    Conclude(Composition(CompZero), [6, 7, 0, 0, 0, 0, 0, 0, 0, 0], [0, 0, 0, 0, 0, 0, 0]),
    Make(Op::Comp, [15, 7, 13, 19]),
    Make(Op::Comp, [15, 7, 14, 14]),
    // 24: H >> comp nat p b a = zero : nat
    Conclude(Equality(TmEqTrans), [6, 22, 23, 14, 15, 0, 0, 0, 0, 0], [20, 21, 0, 0, 0, 0, 0]),
    // 25: H >> zero : nat
    Conclude(Naturals(Zero), [6, 0, 0, 0, 0, 0, 0, 0, 0, 0], [0, 0, 0, 0, 0, 0, 0]),
};

/// The rows of what it gives: equal, term.
pub static COMP_NAT_ZERO_GIVES: &[u16] = &[24, 25];
