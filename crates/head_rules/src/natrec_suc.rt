//! Written by tools/write_recipes.py.

use recipes::Row::{Conclude, Field, Instance, Make, Premise, Push, Shift, Var, WithVar};
use recipes::{Row, table};
use theory::EqualityRule::{TmEqConv, TmEqRefl, TmEqTrans, TyEqRefl, TyEqSym};
use theory::InstanceRule::TyCong;
use theory::NatRule::{NatRec, NatRecCong, NatRecSuc};
use theory::Op;
use theory::PiRule::App;
use theory::RuleName::{Equality, Instances, Naturals, Pi};

/// A recursion over what equals a successor.
/// Its parts are H P a b n m.
pub static NATREC_SUC: &[Row] = table! {
    // 0: id : H to H
    Premise(0),
    // 1: H.nat >> P
    Premise(1),
    // 2: H >> a : P{zero}
    Premise(2),
    // 3: H >> b : pi nat (pi P P[next])
    Premise(3),
    // 4: H >> n = suc m : nat
    Premise(4),
    // 5: H >> m : nat
    Premise(5),
    Field(0, 0),
    Make(Op::Nat, [0, 0, 0, 0]),
    WithVar(6, 7),
    Field(1, 1),
    // 10: H.nat >> P = P
    Conclude(Equality(TyEqRefl), [8, 9, 0, 0, 0, 0, 0, 0, 0, 0], [1, 0, 0, 0, 0, 0, 0]),
    Field(2, 1),
    Shift(0),
    Make(Op::Zero, [0, 0, 0, 0]),
    Push(12, 13),
    Instance(9, 14),
    // 16: H >> a = a : P{zero}
    Conclude(Equality(TmEqRefl), [6, 11, 15, 0, 0, 0, 0, 0, 0, 0], [2, 0, 0, 0, 0, 0, 0]),
    Field(3, 1),
    Shift(2),
    Var(1),
    Make(Op::Suc, [19, 0, 0, 0]),
    Push(18, 20),
    Instance(9, 21),
    Make(Op::Pi, [9, 22, 0, 0]),
    Make(Op::Pi, [7, 23, 0, 0]),
    // 25: H >> b = b : pi nat (pi P P[next])
    Conclude(Equality(TmEqRefl), [6, 17, 24, 0, 0, 0, 0, 0, 0, 0], [3, 0, 0, 0, 0, 0, 0]),
    Field(4, 1),
    Field(5, 1),
    Make(Op::Suc, [27, 0, 0, 0]),
    // 29: H >> natrec P a b n = natrec P a b (suc m) : P{n}
    Conclude(Naturals(NatRecCong), [6, 9, 9, 11, 11, 17, 17, 26, 28, 0], [10, 16, 25, 4, 0, 0, 0]),
    // 30: H >> natrec P a b (suc m) = value : P{suc m}
    Conclude(Naturals(NatRecSuc), [6, 9, 11, 17, 27, 0, 0, 0, 0, 0], [1, 2, 3, 5, 0, 0, 0]),
    // 31: H >> P{n} = P{suc m}
    Conclude(Instances(TyCong), [6, 12, 6, 7, 26, 28, 9, 0, 0, 0], [0, 1, 4, 0, 0, 0, 0]),
    Push(12, 26),
    Instance(9, 32),
    Push(12, 28),
    Instance(9, 34),
    // 36: H >> P{suc m} = P{n}
    Conclude(Equality(TyEqSym), [6, 33, 35, 0, 0, 0, 0, 0, 0, 0], [31, 0, 0, 0, 0, 0, 0]),
    Make(Op::NatRec, [9, 11, 17, 26]),
    Make(Op::NatRec, [9, 11, 17, 28]),
    // 39: H >> natrec P a b n = natrec P a b (suc m) : P{suc m}
    Conclude(Equality(TmEqConv), [6, 37, 38, 33, 35, 0, 0, 0, 0, 0], [29, 31, 0, 0, 0, 0, 0]),
    Make(Op::App, [17, 27, 0, 0]),
    Make(Op::NatRec, [9, 11, 17, 27]),
    Make(Op::App, [40, 41, 0, 0]),
    // 43: H >> natrec P a b n = value : P{suc m}
    Conclude(Equality(TmEqTrans), [6, 37, 38, 42, 35, 0, 0, 0, 0, 0], [39, 30, 0, 0, 0, 0, 0]),
    // 44: H >> natrec P a b m : P{m}
    Conclude(Naturals(NatRec), [6, 9, 11, 17, 27, 0, 0, 0, 0, 0], [1, 2, 3, 5, 0, 0, 0]),
    // 45: H >> app b m : pi P{m} P[push up (suc m[up])]
    Conclude(Pi(App), [6, 17, 27, 7, 23, 0, 0, 0, 0, 0], [3, 5, 0, 0, 0, 0, 0]),
    Push(12, 27),
    Instance(9, 46),
    Shift(1),
    Instance(27, 48),
    Make(Op::Suc, [49, 0, 0, 0]),
    Push(48, 50),
    Instance(9, 51),
    // 53: H >> value : P{suc m}
    Conclude(Pi(App), [6, 40, 41, 47, 52, 0, 0, 0, 0, 0], [45, 44, 0, 0, 0, 0, 0]),
};

/// The rows of what it gives: equal, turn, term.
pub static NATREC_SUC_GIVES: &[u16] = &[43, 36, 53];
