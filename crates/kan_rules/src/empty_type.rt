//! Written by tools/write_recipes.py.

use recipes::Row::{Conclude, Field, Make, Premise};
use recipes::{Row, table};
use theory::EqualityRule::TyEqAbsurd;
use theory::NatRule::NatU;
use theory::Op;
use theory::RuleName::{Equality, Naturals, Systems, Universe};
use theory::SystemRule::EmptyTy;
use theory::UniverseRule::TyU;

/// Where nothing is true, the type of no sides is that of the numbers.
/// Its parts are H.
pub static EMPTY_TYPE: &[Row] = table! {
    // 0: ctx H
    Premise(0),
    Field(0, 0),
    // 2: H >> empty
    Conclude(Systems(EmptyTy), [1, 0, 0, 0, 0, 0, 0, 0, 0, 0], [0, 0, 0, 0, 0, 0, 0]),
    // 3: H >> nat : U
    Conclude(Naturals(NatU), [1, 0, 0, 0, 0, 0, 0, 0, 0, 0], [0, 0, 0, 0, 0, 0, 0]),
    Make(Op::Nat, [0, 0, 0, 0]),
    // 5: H >> nat
    Conclude(Universe(TyU), [1, 4, 0, 0, 0, 0, 0, 0, 0, 0], [3, 0, 0, 0, 0, 0, 0]),
    Make(Op::Empty, [0, 0, 0, 0]),
    // 7: H >> empty = nat
    Conclude(Equality(TyEqAbsurd), [1, 6, 4, 0, 0, 0, 0, 0, 0, 0], [2, 5, 0, 0, 0, 0, 0]),
};

/// The rows of what it gives: equal, term.
pub static EMPTY_TYPE_GIVES: &[u16] = &[7, 3];
