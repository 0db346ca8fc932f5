//! Written by tools/write_recipes.py.

use recipes::Row::{Conclude, Field, Premise};
use recipes::{Row, table};
use theory::EqualityRule::TyEqSym;
use theory::RuleName::Equality;

/// An equation of types, turned.
/// Its parts are H A B.
pub static TYPE_TURNED: &[Row] = table! {
    // 0: H >> A = B
    Premise(0),
    Field(0, 0),
    Field(0, 1),
    Field(0, 2),
    // 4: H >> B = A
    Conclude(Equality(TyEqSym), [1, 2, 3, 0, 0, 0, 0, 0, 0, 0], [0, 0, 0, 0, 0, 0, 0]),
};

/// The rows of what it gives: equal.
pub static TYPE_TURNED_GIVES: &[u16] = &[4];
