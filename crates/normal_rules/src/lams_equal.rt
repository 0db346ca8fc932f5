//! Written by tools/write_recipes.py.

use recipes::Row::{Conclude, Field, Instance, Make, Premise, Push, Shift, Var, WithVar};
use recipes::{Row, table};
use theory::ContextRule::{SubId, SubVar, SubWk};
use theory::EqualityRule::{TmEqSym, TmEqTrans};
use theory::InstanceRule::{TmSub, TmVar, TySub};
use theory::Op;
use theory::PiRule::{Lam, PiBeta, PiEta};
use theory::RuleName::{Contexts, Equality, Instances, Pi};

/// Functions of equal bodies are equal.
/// Its parts are H A b B c.
pub static LAMS_EQUAL: &[Row] = table! {
    // 0: ctx H
    Premise(0),
    // 1: H >> A
    Premise(1),
    // 2: H.A >> b : B
    Premise(2),
    // 3: H.A >> c : B
    Premise(3),
    // 4: H.A >> b = c : B
    Premise(4),
    Field(0, 0),
    // 6: id : H to H
    Conclude(Contexts(SubId), [5, 0, 0, 0, 0, 0, 0, 0, 0, 0], [0, 0, 0, 0, 0, 0, 0]),
    Shift(0),
    Field(1, 1),
    // 9: up : H.A to H
    Conclude(Contexts(SubWk), [5, 7, 5, 8, 0, 0, 0, 0, 0, 0], [6, 1, 0, 0, 0, 0, 0]),
    WithVar(5, 8),
    Shift(1),
    // 12: H.A >> A+
    Conclude(Instances(TySub), [10, 11, 5, 8, 0, 0, 0, 0, 0, 0], [9, 1, 0, 0, 0, 0, 0]),
    Instance(8, 11),
    // 14: shift 2 : H.A.A+ to H
    Conclude(Contexts(SubWk), [10, 11, 5, 13, 0, 0, 0, 0, 0, 0], [9, 12, 0, 0, 0, 0, 0]),
    // 15: H.A.A+ >> x : A[shift 2]
    Conclude(Instances(TmVar), [10, 13, 0, 0, 0, 0, 0, 0, 0, 0], [12, 0, 0, 0, 0, 0, 0]),
    WithVar(10, 13),
    Shift(2),
    Var(0),
    // 19: aside : H.A.A+ to H.A
    Conclude(Contexts(SubVar), [16, 17, 5, 8, 18, 0, 0, 0, 0, 0], [14, 1, 15, 0, 0, 0, 0]),
    // 20: H.A >> x : A+
    Conclude(Instances(TmVar), [5, 8, 0, 0, 0, 0, 0, 0, 0, 0], [1, 0, 0, 0, 0, 0, 0]),
    Push(17, 18),
    Field(2, 1),
    Field(2, 2),
    // 24: H.A.A+ >> b[aside] : B[aside]
    Conclude(Instances(TmSub), [16, 21, 10, 22, 23, 0, 0, 0, 0, 0], [19, 2, 0, 0, 0, 0, 0]),
    Instance(22, 21),
    Instance(23, 21),
    // 27: H.A >> app (lam A+ b[aside]) x = b : B
    Conclude(Pi(PiBeta), [10, 13, 25, 18, 26, 0, 0, 0, 0, 0], [24, 20, 0, 0, 0, 0, 0]),
    Field(3, 1),
    // 29: H.A.A+ >> c[aside] : B[aside]
    Conclude(Instances(TmSub), [16, 21, 10, 28, 23, 0, 0, 0, 0, 0], [19, 3, 0, 0, 0, 0, 0]),
    Instance(28, 21),
    // 31: H.A >> app (lam A+ c[aside]) x = c : B
    Conclude(Pi(PiBeta), [10, 13, 30, 18, 26, 0, 0, 0, 0, 0], [29, 20, 0, 0, 0, 0, 0]),
    Make(Op::Lam, [13, 30, 0, 0]),
    Make(Op::App, [32, 18, 0, 0]),
    // 34: H.A >> c = app (lam A+ c[aside]) x : B
    Conclude(Equality(TmEqSym), [10, 33, 28, 23, 0, 0, 0, 0, 0, 0], [31, 0, 0, 0, 0, 0, 0]),
    // 35: H.A >> b = app (lam A+ c[aside]) x : B
    Conclude(Equality(TmEqTrans), [10, 22, 28, 33, 23, 0, 0, 0, 0, 0], [4, 34, 0, 0, 0, 0, 0]),
    Make(Op::Lam, [13, 25, 0, 0]),
    Make(Op::App, [36, 18, 0, 0]),
    // 38: H.A >> app (lam A+ b[aside]) x = app (lam A+ c[aside]) x : B
    Conclude(Equality(TmEqTrans), [10, 37, 22, 33, 23, 0, 0, 0, 0, 0], [27, 35, 0, 0, 0, 0, 0]),
    // 39: H >> lam A b : pi A B
    Conclude(Pi(Lam), [5, 8, 22, 23, 0, 0, 0, 0, 0, 0], [1, 2, 0, 0, 0, 0, 0]),
    // 40: H >> lam A c : pi A B
    Conclude(Pi(Lam), [5, 8, 28, 23, 0, 0, 0, 0, 0, 0], [1, 3, 0, 0, 0, 0, 0]),
    Make(Op::Lam, [8, 22, 0, 0]),
    Make(Op::Lam, [8, 28, 0, 0]),
    // 43: H >> lam A b = lam A c : pi A B
    Conclude(Pi(PiEta), [5, 41, 42, 8, 23, 0, 0, 0, 0, 0], [39, 40, 38, 0, 0, 0, 0]),
};

/// The rows of what it gives: equal, term.
pub static LAMS_EQUAL_GIVES: &[u16] = &[43, 40];
