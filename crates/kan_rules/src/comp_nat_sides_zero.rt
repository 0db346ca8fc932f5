//! Written by tools/write_recipes.py.

use recipes::Row::{Conclude, Field, Make, Part, Premise, WithName};
use recipes::{Row, table};
use theory::CompRule::{CompCong, CompZero};
use theory::EqualityRule::{TmEqTrans, TyEqRefl};
use theory::NatRule::Zero;
use theory::Op;
use theory::RuleName::{Composition, Equality, Naturals};

/// A composition of numbers whose base and side equal zero.
/// Its parts are p H b a.
pub static COMP_NAT_SIDES_ZERO: &[Row] = table! {
    // 0: ctx H
    Premise(0),
    // 1: H.I >> nat
    Premise(1),
    // 2: HpI >> b : nat
    Premise(2),
    // 3: H >> a : nat
    Premise(3),
    // 4: Hp >> a = b{i0} : nat
    Premise(4),
    // 5: H >> a = zero : nat
    Premise(5),
    // 6: HpI >> b = zero : nat
    Premise(6),
    Field(0, 0),
    WithName(7),
    Make(Op::Nat, [0, 0, 0, 0]),
    // 10: H.I >> nat = nat
    Conclude(Equality(TyEqRefl), [8, 9, 0, 0, 0, 0, 0, 0, 0, 0], [1, 0, 0, 0, 0, 0, 0]),
    Part(0),
    Field(2, 1),
    Make(Op::Zero, [0, 0, 0, 0]),
    Field(3, 1),
    // 15: H >> comp nat p b a = comp nat p zero zero : nat
    Conclude(Composition(CompCong), [7, 9, 9, 11, 11, 12, 13, 14, 13, 0], [10, 2, 3, 4, 6, 5, 0]),
    // 16: H >> comp nat p zero zero = zero : nat
    Conclude(Composition(CompZero), [7, 11, 0, 0, 0, 0, 0, 0, 0, 0], [0, 0, 0, 0, 0, 0, 0]),
    Make(Op::Comp, [9, 11, 12, 14]),
    Make(Op::Comp, [9, 11, 13, 13]),
    // 19: H >> comp nat p b a = zero : nat
    Conclude(Equality(TmEqTrans), [7, 17, 18, 13, 9, 0, 0, 0, 0, 0], [15, 16, 0, 0, 0, 0, 0]),
    // 20: H >> zero : nat
    Conclude(Naturals(Zero), [7, 0, 0, 0, 0, 0, 0, 0, 0, 0], [0, 0, 0, 0, 0, 0, 0]),
};

/// The rows of what it gives: equal, term.
pub static COMP_NAT_SIDES_ZERO_GIVES: &[u16] = &[19, 20];
