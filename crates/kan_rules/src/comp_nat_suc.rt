//! Written by tools/write_recipes.py.

use recipes::Row::{Conclude, Field, Instance, Make, Part, Premise, Shift, WithFace, WithName};
use recipes::{Row, table};
use theory::CompRule::{Comp, CompCong, CompSuc};
use theory::ContextRule::{SubId, SubWkFace, SubWkName};
use theory::EqualityRule::{TmEqAbsurd, TmEqRefl, TmEqTrans, TyEqRefl};
use theory::InstanceRule::TmSub;
use theory::NatRule::Suc;
use theory::Op;
use theory::RuleName::{Composition, Contexts, Equality, Instances, Naturals};

/// A composition of numbers over a face that is never true, of what equals a successor.
/// Its parts are p H b a m.
pub static COMP_NAT_SUC: &[Row] = table! {
    // 0: ctx H
    Premise(0),
    // 1: H.I >> nat
    Premise(1),
    // 2: HpI >> b : nat
    Premise(2),
    // 3: H >> a : nat
    Premise(3),
    // 4: Hp >> a = b{i0} : nat
    Premise(4),
    // 5: H >> a = suc m : nat
    Premise(5),
    // 6: H >> m : nat
    Premise(6),
    Field(0, 0),
    // 8: id : H to H
    Conclude(Contexts(SubId), [7, 0, 0, 0, 0, 0, 0, 0, 0, 0], [0, 0, 0, 0, 0, 0, 0]),
    Shift(0),
    Part(0),
    // 11: id : Hp to H
    Conclude(Contexts(SubWkFace), [7, 9, 7, 10, 0, 0, 0, 0, 0, 0], [8, 0, 0, 0, 0, 0, 0]),
    WithFace(7, 10),
    // 13: up : HpI to H
    Conclude(Contexts(SubWkName), [12, 9, 7, 0, 0, 0, 0, 0, 0, 0], [11, 0, 0, 0, 0, 0, 0]),
    WithName(12),
    Shift(1),
    Field(6, 1),
    Make(Op::Nat, [0, 0, 0, 0]),
    // 18: HpI >> m+ : nat
    Conclude(Instances(TmSub), [14, 15, 7, 16, 17, 0, 0, 0, 0, 0], [13, 6, 0, 0, 0, 0, 0]),
    Instance(16, 15),
    // 20: HpI >> suc m+ : nat
    Conclude(Naturals(Suc), [14, 19, 0, 0, 0, 0, 0, 0, 0, 0], [18, 0, 0, 0, 0, 0, 0]),
    Field(2, 1),
    Make(Op::Suc, [19, 0, 0, 0]),
    // 23: HpI >> b = suc m+ : nat
    Conclude(Equality(TmEqAbsurd), [14, 21, 22, 17, 0, 0, 0, 0, 0, 0], [2, 20, 0, 0, 0, 0, 0]),
    WithName(7),
    // 25: H.I >> nat = nat
    Conclude(Equality(TyEqRefl), [24, 17, 0, 0, 0, 0, 0, 0, 0, 0], [1, 0, 0, 0, 0, 0, 0]),
    Field(3, 1),
    Make(Op::Suc, [16, 0, 0, 0]),
    // 28: H >> comp nat p b a = comp nat p (suc m+) (suc m) : nat
    Conclude(Composition(CompCong), [7, 17, 17, 10, 10, 21, 22, 26, 27, 0],
        [25, 2, 3, 4, 23, 5, 0]),
    // 29: Hp >> m : nat
    Conclude(Instances(TmSub), [12, 9, 7, 16, 17, 0, 0, 0, 0, 0], [11, 6, 0, 0, 0, 0, 0]),
    // 30: Hp >> m = m : nat
    Conclude(Equality(TmEqRefl), [12, 16, 17, 0, 0, 0, 0, 0, 0, 0], [29, 0, 0, 0, 0, 0, 0]),
    // 31: H >> comp nat p (suc m+) (suc m) = suc (comp nat p m+ m) : nat
    Conclude(Composition(CompSuc), [7, 10, 19, 16, 0, 0, 0, 0, 0, 0], [18, 6, 30, 0, 0, 0, 0]),
    Make(Op::Comp, [17, 10, 21, 26]),
    Make(Op::Comp, [17, 10, 22, 27]),
    Make(Op::Comp, [17, 10, 19, 16]),
    Make(Op::Suc, [34, 0, 0, 0]),
    // 36: H >> comp nat p b a = suc (comp nat p m+ m) : nat
    Conclude(Equality(TmEqTrans), [7, 32, 33, 35, 17, 0, 0, 0, 0, 0], [28, 31, 0, 0, 0, 0, 0]),
    // 37: H >> comp nat p m+ m : nat
    Conclude(Composition(Comp), [7, 17, 10, 19, 16, 0, 0, 0, 0, 0], [1, 18, 6, 30, 0, 0, 0]),
    // 38: H >> suc (comp nat p m+ m) : nat
    Conclude(Naturals(Suc), [7, 34, 0, 0, 0, 0, 0, 0, 0, 0], [37, 0, 0, 0, 0, 0, 0]),
};

/// The rows of what it gives: equal, term.
pub static COMP_NAT_SUC_GIVES: &[u16] = &[36, 38];
