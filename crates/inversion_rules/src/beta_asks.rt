//! Written by tools/write_recipes.py.

use recipes::Row::{Conclude, Field, Premise, Push, Shift, WithVar};
use recipes::{Row, table};
use theory::ContextRule::{SubId, SubVar};
use theory::EqualityRule::{TmConv, TyEqSym};
use theory::InstanceRule::TySub;
use theory::RuleName::{Contexts, Equality, Instances};

/// What a function applied at another domain asks: that its argument has its domain, and the types
/// that are to be compared.
/// Its parts are G C b E A B a.
pub static BETA_ASKS: &[Row] = table! {
    // 0: ctx G
    Premise(0),
    // 1: G >> C
    Premise(1),
    // 2: G.C >> b : E
    Premise(2),
    // 3: G >> A
    Premise(3),
    // 4: G.A >> B
    Premise(4),
    // 5: G >> a : A
    Premise(5),
    // 6: G.C >> E
    Premise(6),
    // 7: G >> C = A
    Premise(7),
    Field(0, 0),
    Field(1, 1),
    Field(3, 1),
    // 11: G >> A = C
    Conclude(Equality(TyEqSym), [8, 9, 10, 0, 0, 0, 0, 0, 0, 0], [7, 0, 0, 0, 0, 0, 0]),
    Field(5, 1),
    // 13: G >> a : C
    Conclude(Equality(TmConv), [8, 12, 10, 9, 0, 0, 0, 0, 0, 0], [5, 11, 0, 0, 0, 0, 0]),
    // 14: id : G to G
    Conclude(Contexts(SubId), [8, 0, 0, 0, 0, 0, 0, 0, 0, 0], [0, 0, 0, 0, 0, 0, 0]),
    Shift(0),
    // 16: push id a : G to G.C
    Conclude(Contexts(SubVar), [8, 15, 8, 9, 12, 0, 0, 0, 0, 0], [14, 1, 13, 0, 0, 0, 0]),
    Push(15, 12),
    WithVar(8, 9),
    Field(2, 2),
    // 20: G >> E{a}
    Conclude(Instances(TySub), [8, 17, 18, 19, 0, 0, 0, 0, 0, 0], [16, 6, 0, 0, 0, 0, 0]),
    // 21: push id a : G to G.A
    Conclude(Contexts(SubVar), [8, 15, 8, 10, 12, 0, 0, 0, 0, 0], [14, 3, 5, 0, 0, 0, 0]),
    WithVar(8, 10),
    Field(4, 1),
    // 24: G >> B{a}
    Conclude(Instances(TySub), [8, 17, 22, 23, 0, 0, 0, 0, 0, 0], [21, 4, 0, 0, 0, 0, 0]),
};

/// The rows of what it gives: argument, has, wants.
pub static BETA_ASKS_GIVES: &[u16] = &[13, 20, 24];
