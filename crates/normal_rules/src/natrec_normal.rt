//! Written by tools/write_recipes.py.

use recipes::Row::{Conclude, Field, Instance, Make, Premise, Push, Shift, Var, WithVar};
use recipes::{Row, table};
use theory::ContextRule::{SubId, SubVar};
use theory::EqualityRule::{TmConv, TmEqConv, TyEqSym, TyEqTrans};
use theory::InstanceRule::{TyCong, TyEqSub};
use theory::NatRule::{NatRec, NatRecCong, NatU};
use theory::Op;
use theory::RuleName::{Contexts, Equality, Instances, Naturals, Universe};
use theory::UniverseRule::TyU;

/// A recursion whose parts are in normal form.
/// Its parts are H P Q a c b k n m.
pub static NATREC_NORMAL: &[Row] = table! {
    // 0: ctx H
    Premise(0),
    // 1: H.nat >> P = Q
    Premise(1),
    // 2: H.nat >> Q
    Premise(2),
    // 3: H >> P{zero} = Q{zero}
    Premise(3),
    // 4: H >> pi nat (pi P P[next]) = pi nat (pi Q Q[next])
    Premise(4),
    // 5: H >> a = c : P{zero}
    Premise(5),
    // 6: H >> c : P{zero}
    Premise(6),
    // 7: H >> b = k : pi nat (pi P P[next])
    Premise(7),
    // 8: H >> k : pi nat (pi P P[next])
    Premise(8),
    // 9: H >> n = m : nat
    Premise(9),
    // 10: H >> m : nat
    Premise(10),
    // 11: H.nat >> P
    Premise(11),
    Field(0, 0),
    Field(1, 1),
    Field(1, 2),
    Field(5, 1),
    Field(5, 2),
    Field(7, 1),
    Field(7, 2),
    Field(9, 1),
    Field(9, 2),
    // 21: H >> natrec P a b n = natrec Q c k m : P{n}
    Conclude(Naturals(NatRecCong), [12, 13, 14, 15, 16, 17, 18, 19, 20, 0], [1, 5, 7, 9, 0, 0, 0]),
    // 22: id : H to H
    Conclude(Contexts(SubId), [12, 0, 0, 0, 0, 0, 0, 0, 0, 0], [0, 0, 0, 0, 0, 0, 0]),
    // 23: H >> nat : U
    Conclude(Naturals(NatU), [12, 0, 0, 0, 0, 0, 0, 0, 0, 0], [0, 0, 0, 0, 0, 0, 0]),
    Make(Op::Nat, [0, 0, 0, 0]),
    // 25: H >> nat
    Conclude(Universe(TyU), [12, 24, 0, 0, 0, 0, 0, 0, 0, 0], [23, 0, 0, 0, 0, 0, 0]),
    Shift(0),
    // 27: H >> P{n} = P{m}
    Conclude(Instances(TyCong), [12, 26, 12, 24, 19, 20, 13, 0, 0, 0], [22, 11, 9, 0, 0, 0, 0]),
    // 28: push id m : H to H.nat
    Conclude(Contexts(SubVar), [12, 26, 12, 24, 20, 0, 0, 0, 0, 0], [22, 25, 10, 0, 0, 0, 0]),
    Push(26, 20),
    WithVar(12, 24),
    // 31: H >> P{m} = Q{m}
    Conclude(Instances(TyEqSub), [12, 29, 30, 13, 14, 0, 0, 0, 0, 0], [28, 1, 0, 0, 0, 0, 0]),
    Push(26, 19),
    Instance(13, 32),
    Instance(13, 29),
    Instance(14, 29),
    // 36: H >> P{n} = Q{m}
    Conclude(Equality(TyEqTrans), [12, 33, 34, 35, 0, 0, 0, 0, 0, 0], [27, 31, 0, 0, 0, 0, 0]),
    // 37: H >> Q{m} = P{n}
    Conclude(Equality(TyEqSym), [12, 33, 35, 0, 0, 0, 0, 0, 0, 0], [36, 0, 0, 0, 0, 0, 0]),
    Make(Op::NatRec, [13, 15, 17, 19]),
    Make(Op::NatRec, [14, 16, 18, 20]),
    // 40: H >> natrec P a b n = natrec Q c k m : Q{m}
    Conclude(Equality(TmEqConv), [12, 38, 39, 33, 35, 0, 0, 0, 0, 0], [21, 36, 0, 0, 0, 0, 0]),
    Make(Op::Zero, [0, 0, 0, 0]),
    Push(26, 41),
    Instance(13, 42),
    Instance(14, 42),
    // 45: H >> c : Q{zero}
    Conclude(Equality(TmConv), [12, 16, 43, 44, 0, 0, 0, 0, 0, 0], [6, 3, 0, 0, 0, 0, 0]),
    Shift(2),
    Var(1),
    Make(Op::Suc, [47, 0, 0, 0]),
    Push(46, 48),
    Instance(13, 49),
    Make(Op::Pi, [13, 50, 0, 0]),
    Make(Op::Pi, [24, 51, 0, 0]),
    Instance(14, 49),
    Make(Op::Pi, [14, 53, 0, 0]),
    Make(Op::Pi, [24, 54, 0, 0]),
    // 56: H >> k : pi nat (pi Q Q[next])
    Conclude(Equality(TmConv), [12, 18, 52, 55, 0, 0, 0, 0, 0, 0], [8, 4, 0, 0, 0, 0, 0]),
    // 57: H >> natrec Q c k m : Q{m}
    Conclude(Naturals(NatRec), [12, 14, 16, 18, 20, 0, 0, 0, 0, 0], [2, 45, 56, 10, 0, 0, 0]),
};

/// The rows of what it gives: equal, turn, term.
pub static NATREC_NORMAL_GIVES: &[u16] = &[40, 37, 57];
