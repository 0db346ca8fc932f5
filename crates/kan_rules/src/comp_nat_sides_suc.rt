//! Written by tools/write_recipes.py.

use recipes::Row::{Conclude, Field, Make, Part, Premise, WithName};
use recipes::{Row, table};
use theory::CompRule::{Comp, CompCong, CompSuc};
use theory::EqualityRule::{TmEqTrans, TyEqRefl};
use theory::NatRule::Suc;
use theory::Op;
use theory::RuleName::{Composition, Equality, Naturals};

/// A composition of numbers whose base and side equal successors.
/// Its parts are p H b a m n.
pub static COMP_NAT_SIDES_SUC: &[Row] = table! {
    // 0: H.I >> nat
    Premise(0),
    // 1: HpI >> b : nat
    Premise(1),
    // 2: H >> a : nat
    Premise(2),
    // 3: Hp >> a = b{i0} : nat
    Premise(3),
    // 4: H >> a = suc m : nat
    Premise(4),
    // 5: H >> m : nat
    Premise(5),
    // 6: HpI >> b = suc n : nat
    Premise(6),
    // 7: HpI >> n : nat
    Premise(7),
    // 8: Hp >> m = n{i0} : nat
    Premise(8),
    Field(2, 0),
    WithName(9),
    Make(Op::Nat, [0, 0, 0, 0]),
    // 12: H.I >> nat = nat
    Conclude(Equality(TyEqRefl), [10, 11, 0, 0, 0, 0, 0, 0, 0, 0], [0, 0, 0, 0, 0, 0, 0]),
    Part(0),
    Field(1, 1),
    Field(7, 1),
    Make(Op::Suc, [15, 0, 0, 0]),
    Field(2, 1),
    Field(5, 1),
    Make(Op::Suc, [18, 0, 0, 0]),
    // 20: H >> comp nat p b a = comp nat p (suc n) (suc m) : nat
    Conclude(Composition(CompCong), [9, 11, 11, 13, 13, 14, 16, 17, 19, 0], [12, 1, 2, 3, 6, 4, 0]),
    // 21: H >> comp nat p (suc n) (suc m) = suc (comp nat p n m) : nat
    Conclude(Composition(CompSuc), [9, 13, 15, 18, 0, 0, 0, 0, 0, 0], [7, 5, 8, 0, 0, 0, 0]),
    Make(Op::Comp, [11, 13, 14, 17]),
    Make(Op::Comp, [11, 13, 16, 19]),
    Make(Op::Comp, [11, 13, 15, 18]),
    Make(Op::Suc, [24, 0, 0, 0]),
    // 26: H >> comp nat p b a = suc (comp nat p n m) : nat
    Conclude(Equality(TmEqTrans), [9, 22, 23, 25, 11, 0, 0, 0, 0, 0], [20, 21, 0, 0, 0, 0, 0]),
    // 27: H >> comp nat p n m : nat
    Conclude(Composition(Comp), [9, 11, 13, 15, 18, 0, 0, 0, 0, 0], [0, 7, 5, 8, 0, 0, 0]),
    // 28: H >> suc (comp nat p n m) : nat
    Conclude(Naturals(Suc), [9, 24, 0, 0, 0, 0, 0, 0, 0, 0], [27, 0, 0, 0, 0, 0, 0]),
};

/// The rows of what it gives: equal, term.
pub static COMP_NAT_SIDES_SUC_GIVES: &[u16] = &[26, 28];
