//! Written by tools/write_recipes.py.

use recipes::Row::{Conclude, Field, Instance, Make, Premise, Push, Shift, Var, WithVar};
use recipes::{Row, table};
use theory::EqualityRule::{TmEqConv, TmEqRefl, TyEqRefl, TyEqSym};
use theory::InstanceRule::TyCong;
use theory::NatRule::{NatRec, NatRecCong};
use theory::Op;
use theory::RuleName::{Equality, Instances, Naturals};

/// A recursion over what equals another number.
/// Its parts are H P a b n u.
pub static NATREC_STAYS: &[Row] = table! {
    // 0: id : H to H
    Premise(0),
    // 1: H.nat >> P
    Premise(1),
    // 2: H >> a : P{zero}
    Premise(2),
    // 3: H >> b : pi nat (pi P P[next])
    Premise(3),
    // 4: H >> n = u : nat
    Premise(4),
    // 5: H >> u : nat
    Premise(5),
    Field(0, 0),
    Make(Op::Nat, [0, 0, 0, 0]),
    WithVar(6, 7),
    Field(1, 1),
    // 10: H.nat >> P = P
    Conclude(Equality(TyEqRefl), [8, 9, 0, 0, 0, 0, 0, 0, 0, 0], [1, 0, 0, 0, 0, 0, 0]),
    Field(2, 1),
    Shift(0),
    Make(Op::Zero, [0, 0, 0, 0]),
    Push(12, 13),
    Instance(9, 14),
    // 16: H >> a = a : P{zero}
    Conclude(Equality(TmEqRefl), [6, 11, 15, 0, 0, 0, 0, 0, 0, 0], [2, 0, 0, 0, 0, 0, 0]),
    Field(3, 1),
    Shift(2),
    Var(1),
    Make(Op::Suc, [19, 0, 0, 0]),
    Push(18, 20),
    Instance(9, 21),
    Make(Op::Pi, [9, 22, 0, 0]),
    Make(Op::Pi, [7, 23, 0, 0]),
    // 25: H >> b = b : pi nat (pi P P[next])
    Conclude(Equality(TmEqRefl), [6, 17, 24, 0, 0, 0, 0, 0, 0, 0], [3, 0, 0, 0, 0, 0, 0]),
    Field(4, 1),
    Field(4, 2),
    // 28: H >> natrec P a b n = natrec P a b u : P{n}
    Conclude(Naturals(NatRecCong), [6, 9, 9, 11, 11, 17, 17, 26, 27, 0], [10, 16, 25, 4, 0, 0, 0]),
    // 29: H >> P{n} = P{u}
    Conclude(Instances(TyCong), [6, 12, 6, 7, 26, 27, 9, 0, 0, 0], [0, 1, 4, 0, 0, 0, 0]),
    Push(12, 26),
    Instance(9, 30),
    Push(12, 27),
    Instance(9, 32),
    // 34: H >> P{u} = P{n}
    Conclude(Equality(TyEqSym), [6, 31, 33, 0, 0, 0, 0, 0, 0, 0], [29, 0, 0, 0, 0, 0, 0]),
    Make(Op::NatRec, [9, 11, 17, 26]),
    Make(Op::NatRec, [9, 11, 17, 27]),
    // 37: H >> natrec P a b n = natrec P a b u : P{u}
    Conclude(Equality(TmEqConv), [6, 35, 36, 31, 33, 0, 0, 0, 0, 0], [28, 29, 0, 0, 0, 0, 0]),
    // 38: H >> natrec P a b u : P{u}
    Conclude(Naturals(NatRec), [6, 9, 11, 17, 27, 0, 0, 0, 0, 0], [1, 2, 3, 5, 0, 0, 0]),
};

/// The rows of what it gives: equal, turn, term.
pub static NATREC_STAYS_GIVES: &[u16] = &[37, 34, 38];
