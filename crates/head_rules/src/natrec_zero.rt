//! Written by tools/write_recipes.py.

use recipes::Row::{Conclude, Field, Instance, Make, Premise, Push, Shift, Var, WithVar};
use recipes::{Row, table};
use theory::EqualityRule::{TmEqConv, TmEqRefl, TmEqTrans, TyEqRefl, TyEqSym};
use theory::InstanceRule::TyCong;
use theory::NatRule::{NatRecCong, NatRecZero};
use theory::Op;
use theory::RuleName::{Equality, Instances, Naturals};

/// A recursion over what equals zero.
/// Its parts are H P a b n.
pub static NATREC_ZERO: &[Row] = table! {
    // 0: id : H to H
    Premise(0),
    // 1: H.nat >> P
    Premise(1),
    // 2: H >> a : P{zero}
    Premise(2),
    // 3: H >> b : pi nat (pi P P[next])
    Premise(3),
    // 4: H >> n = zero : nat
    Premise(4),
    Field(0, 0),
    Make(Op::Nat, [0, 0, 0, 0]),
    WithVar(5, 6),
    Field(1, 1),
    // 9: H.nat >> P = P
    Conclude(Equality(TyEqRefl), [7, 8, 0, 0, 0, 0, 0, 0, 0, 0], [1, 0, 0, 0, 0, 0, 0]),
    Field(2, 1),
    Shift(0),
    Make(Op::Zero, [0, 0, 0, 0]),
    Push(11, 12),
    Instance(8, 13),
    // 15: H >> a = a : P{zero}
    Conclude(Equality(TmEqRefl), [5, 10, 14, 0, 0, 0, 0, 0, 0, 0], [2, 0, 0, 0, 0, 0, 0]),
    Field(3, 1),
    Shift(2),
    Var(1),
    Make(Op::Suc, [18, 0, 0, 0]),
    Push(17, 19),
    Instance(8, 20),
    Make(Op::Pi, [8, 21, 0, 0]),
    Make(Op::Pi, [6, 22, 0, 0]),
    // 24: H >> b = b : pi nat (pi P P[next])
    Conclude(Equality(TmEqRefl), [5, 16, 23, 0, 0, 0, 0, 0, 0, 0], [3, 0, 0, 0, 0, 0, 0]),
    Field(4, 1),
    // 26: H >> natrec P a b n = natrec P a b zero : P{n}
    Conclude(Naturals(NatRecCong), [5, 8, 8, 10, 10, 16, 16, 25, 12, 0], [9, 15, 24, 4, 0, 0, 0]),
    // 27: H >> natrec P a b zero = a : P{zero}
    Conclude(Naturals(NatRecZero), [5, 8, 10, 16, 0, 0, 0, 0, 0, 0], [1, 2, 3, 0, 0, 0, 0]),
    // 28: H >> P{n} = P{zero}
    Conclude(Instances(TyCong), [5, 11, 5, 6, 25, 12, 8, 0, 0, 0], [0, 1, 4, 0, 0, 0, 0]),
    Push(11, 25),
    Instance(8, 29),
    // 31: H >> P{zero} = P{n}
    Conclude(Equality(TyEqSym), [5, 30, 14, 0, 0, 0, 0, 0, 0, 0], [28, 0, 0, 0, 0, 0, 0]),
    Make(Op::NatRec, [8, 10, 16, 25]),
    Make(Op::NatRec, [8, 10, 16, 12]),
    // 34: H >> natrec P a b n = natrec P a b zero : P{zero}
    Conclude(Equality(TmEqConv), [5, 32, 33, 30, 14, 0, 0, 0, 0, 0], [26, 28, 0, 0, 0, 0, 0]),
    // 35: H >> natrec P a b n = a : P{zero}
    Conclude(Equality(TmEqTrans), [5, 32, 33, 10, 14, 0, 0, 0, 0, 0], [34, 27, 0, 0, 0, 0, 0]),
};

/// The rows of what it gives: equal, turn.
pub static NATREC_ZERO_GIVES: &[u16] = &[35, 31];
