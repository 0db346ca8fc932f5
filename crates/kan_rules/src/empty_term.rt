//! Written by tools/write_recipes.py.

use recipes::Row::{Conclude, Field, Make, Premise};
use recipes::{Row, table};
use theory::EqualityRule::{TmEqAbsurd, TyEqAbsurd};
use theory::NatRule::{NatU, Zero};
use theory::Op;
use theory::RuleName::{Equality, Naturals, Systems, Universe};
use theory::SystemRule::EmptyTm;
use theory::UniverseRule::TyU;

/// Where nothing is true, the term of no sides is zero, and the type of the numbers is any.
/// Its parts are H A.
pub static EMPTY_TERM: &[Row] = table! {
    // 0: ctx H
    Premise(0),
    // 1: H >> A
    Premise(1),
    Field(0, 0),
    // 3: H >> nat : U
    Conclude(Naturals(NatU), [2, 0, 0, 0, 0, 0, 0, 0, 0, 0], [0, 0, 0, 0, 0, 0, 0]),
    Make(Op::Nat, [0, 0, 0, 0]),
    // 5: H >> nat
    Conclude(Universe(TyU), [2, 4, 0, 0, 0, 0, 0, 0, 0, 0], [3, 0, 0, 0, 0, 0, 0]),
    Field(1, 1),
    // 7: H >> nat = A
    Conclude(Equality(TyEqAbsurd), [2, 4, 6, 0, 0, 0, 0, 0, 0, 0], [5, 1, 0, 0, 0, 0, 0]),
    // 8: H >> empty : nat
    Conclude(Systems(EmptyTm), [2, 4, 0, 0, 0, 0, 0, 0, 0, 0], [5, 0, 0, 0, 0, 0, 0]),
    // 9: H >> zero : nat
    Conclude(Naturals(Zero), [2, 0, 0, 0, 0, 0, 0, 0, 0, 0], [0, 0, 0, 0, 0, 0, 0]),
    Make(Op::Empty, [0, 0, 0, 0]),
    Make(Op::Zero, [0, 0, 0, 0]),
    // 12: H >> empty = zero : nat
    Conclude(Equality(TmEqAbsurd), [2, 10, 11, 4, 0, 0, 0, 0, 0, 0], [8, 9, 0, 0, 0, 0, 0]),
};

/// The rows of what it gives: equal, turn, term.
pub static EMPTY_TERM_GIVES: &[u16] = &[12, 7, 9];
