//! Written by tools/write_recipes.py.

use recipes::Row::{Conclude, Make, Nil};
use recipes::{Row, table};
use theory::ContextRule::CtxNil;
use theory::EqualityRule::TyEqRefl;
use theory::NatRule::NatU;
use theory::Op;
use theory::RuleName::{Contexts, Equality, Naturals, Universe};
use theory::UniverseRule::TyU;

/// The type of numbers equals itself.
pub static EQUAL_NUMBERS: &[Row] = table! {
    // 0: ctx []
    Conclude(Contexts(CtxNil), [0, 0, 0, 0, 0, 0, 0, 0, 0, 0], [0, 0, 0, 0, 0, 0, 0]),
    Nil,
    // 2: [] >> nat : U
    Conclude(Naturals(NatU), [1, 0, 0, 0, 0, 0, 0, 0, 0, 0], [0, 0, 0, 0, 0, 0, 0]),
    Make(Op::Nat, [0, 0, 0, 0]),
    // 4: [] >> nat
    Conclude(Universe(TyU), [1, 3, 0, 0, 0, 0, 0, 0, 0, 0], [2, 0, 0, 0, 0, 0, 0]),
    // 5: [] >> nat = nat
    Conclude(Equality(TyEqRefl), [1, 3, 0, 0, 0, 0, 0, 0, 0, 0], [4, 0, 0, 0, 0, 0, 0]),
};

/// The rows of what it gives: equation.
pub static EQUAL_NUMBERS_GIVES: &[u16] = &[5];
