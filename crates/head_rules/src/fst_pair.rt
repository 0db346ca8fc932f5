//! Written by tools/write_recipes.py.

use recipes::Row::{Conclude, Field, Instance, Make, Premise, Push, Shift, Then, Var, WithVar};
use recipes::{Row, table};
use theory::ContextRule::{SubVar, SubWk};
use theory::EqualityRule::TmEqTrans;
use theory::InstanceRule::{TmSub, TmVar, TySub};
use theory::Op;
use theory::RuleName::{Contexts, Equality, Instances, Sigma};
use theory::SigmaRule::{FstCong, SigBeta1};

/// The first half of what equals a pair under a substitution.
/// Its parts are H e K C E a b c.
pub static FST_PAIR: &[Row] = table! {
    // 0: e : H to K
    Premise(0),
    // 1: K >> C
    Premise(1),
    // 2: K.C >> E
    Premise(2),
    // 3: K >> a : C
    Premise(3),
    // 4: K >> b : E{a}
    Premise(4),
    // 5: H >> c = pair a[e] b[e] : sig C[e] E[over]
    Premise(5),
    Field(0, 0),
    Field(0, 1),
    Field(0, 2),
    Field(1, 1),
    // 10: H >> C[e]
    Conclude(Instances(TySub), [6, 7, 8, 9, 0, 0, 0, 0, 0, 0], [0, 1, 0, 0, 0, 0, 0]),
    Instance(9, 7),
    // 12: e then up : H.C[e] to K
    Conclude(Contexts(SubWk), [6, 7, 8, 11, 0, 0, 0, 0, 0, 0], [0, 10, 0, 0, 0, 0, 0]),
    // 13: H.C[e] >> var 0 : C[e then up]
    Conclude(Instances(TmVar), [6, 11, 0, 0, 0, 0, 0, 0, 0, 0], [10, 0, 0, 0, 0, 0, 0]),
    WithVar(6, 11),
    Shift(1),
    Then(7, 15),
    Var(0),
    // 18: over : H.C[e] to K.C
    Conclude(Contexts(SubVar), [14, 16, 8, 9, 17, 0, 0, 0, 0, 0], [12, 1, 13, 0, 0, 0, 0]),
    Push(16, 17),
    WithVar(8, 9),
    Field(2, 1),
    // 22: H.C[e] >> E[over]
    Conclude(Instances(TySub), [14, 19, 20, 21, 0, 0, 0, 0, 0, 0], [18, 2, 0, 0, 0, 0, 0]),
    Field(3, 1),
    // 24: H >> a[e] : C[e]
    Conclude(Instances(TmSub), [6, 7, 8, 23, 9, 0, 0, 0, 0, 0], [0, 3, 0, 0, 0, 0, 0]),
    Field(4, 1),
    Shift(0),
    Push(26, 23),
    Instance(21, 27),
    // 29: H >> b[e] : E[push e a[e]]
    Conclude(Instances(TmSub), [6, 7, 8, 25, 28, 0, 0, 0, 0, 0], [0, 4, 0, 0, 0, 0, 0]),
    Instance(23, 7),
    Instance(25, 7),
    Instance(21, 19),
    // 33: H >> fst (pair a[e] b[e]) = a[e] : C[e]
    Conclude(Sigma(SigBeta1), [6, 30, 31, 11, 32, 0, 0, 0, 0, 0], [22, 24, 29, 0, 0, 0, 0]),
    Field(5, 1),
    Make(Op::Pair, [30, 31, 0, 0]),
    // 36: H >> fst c = fst (pair a[e] b[e]) : C[e]
    Conclude(Sigma(FstCong), [6, 34, 35, 11, 32, 0, 0, 0, 0, 0], [5, 0, 0, 0, 0, 0, 0]),
    Make(Op::Fst, [34, 0, 0, 0]),
    Make(Op::Fst, [35, 0, 0, 0]),
    // 39: H >> fst c = a[e] : C[e]
    Conclude(Equality(TmEqTrans), [6, 37, 38, 30, 11, 0, 0, 0, 0, 0], [36, 33, 0, 0, 0, 0, 0]),
};

/// The rows of what it gives: equal.
pub static FST_PAIR_GIVES: &[u16] = &[39];
