//! Written by tools/write_recipes.py.

use recipes::Row::{Conclude, Field, Make, Premise};
use recipes::{Row, table};
use theory::EqualityRule::TyEqAbsurd;
use theory::Op;
use theory::RuleName::{Equality, Systems};
use theory::SystemRule::EmptyTy;

/// Where nothing is true, a type equals the type of no sides.
/// Its parts are K A.
pub static NOTHING_TYPE: &[Row] = table! {
    // 0: ctx K
    Premise(0),
    // 1: K >> A
    Premise(1),
    Field(0, 0),
    // 3: K >> empty
    Conclude(Systems(EmptyTy), [2, 0, 0, 0, 0, 0, 0, 0, 0, 0], [0, 0, 0, 0, 0, 0, 0]),
    Field(1, 1),
    Make(Op::Empty, [0, 0, 0, 0]),
    // 6: K >> A = empty
    Conclude(Equality(TyEqAbsurd), [2, 4, 5, 0, 0, 0, 0, 0, 0, 0], [1, 3, 0, 0, 0, 0, 0]),
};

/// The rows of what it gives: equal, term.
pub static NOTHING_TYPE_GIVES: &[u16] = &[6, 3];
