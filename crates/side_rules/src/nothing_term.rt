//! Written by tools/write_recipes.py.

use recipes::Row::{Conclude, Field, Make, Premise};
use recipes::{Row, table};
use theory::EqualityRule::TmEqAbsurd;
use theory::Op;
use theory::RuleName::{Equality, Systems};
use theory::SystemRule::EmptyTm;

/// Where nothing is true, a term equals the term of no sides.
/// Its parts are K a A.
pub static NOTHING_TERM: &[Row] = table! {
    // 0: K >> A
    Premise(0),
    // 1: K >> a : A
    Premise(1),
    Field(0, 0),
    Field(0, 1),
    // 4: K >> empty : A
    Conclude(Systems(EmptyTm), [2, 3, 0, 0, 0, 0, 0, 0, 0, 0], [0, 0, 0, 0, 0, 0, 0]),
    Field(1, 1),
    Make(Op::Empty, [0, 0, 0, 0]),
    // 7: K >> a = empty : A
    Conclude(Equality(TmEqAbsurd), [2, 5, 6, 3, 0, 0, 0, 0, 0, 0], [1, 4, 0, 0, 0, 0, 0]),
};

/// The rows of what it gives: equal, term.
pub static NOTHING_TERM_GIVES: &[u16] = &[7, 4];
