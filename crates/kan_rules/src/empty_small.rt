//! Written by tools/write_recipes.py.

use recipes::Row::{Conclude, Field, Make, Premise};
use recipes::{Row, table};
use theory::EqualityRule::TmEqAbsurd;
use theory::NatRule::NatU;
use theory::Op;
use theory::RuleName::{Equality, Naturals, Systems, Universe};
use theory::SystemRule::EmptyTm;
use theory::UniverseRule::TyUniv;

/// Where nothing is true, the type of no sides, as a term of the universe, is that of the numbers.
/// Its parts are H.
pub static EMPTY_SMALL: &[Row] = table! {
    // 0: ctx H
    Premise(0),
    Field(0, 0),
    // 2: H >> U
    Conclude(Universe(TyUniv), [1, 0, 0, 0, 0, 0, 0, 0, 0, 0], [0, 0, 0, 0, 0, 0, 0]),
    Make(Op::U, [0, 0, 0, 0]),
    // 4: H >> empty : U
    Conclude(Systems(EmptyTm), [1, 3, 0, 0, 0, 0, 0, 0, 0, 0], [2, 0, 0, 0, 0, 0, 0]),
    // 5: H >> nat : U
    Conclude(Naturals(NatU), [1, 0, 0, 0, 0, 0, 0, 0, 0, 0], [0, 0, 0, 0, 0, 0, 0]),
    Make(Op::Empty, [0, 0, 0, 0]),
    Make(Op::Nat, [0, 0, 0, 0]),
    // 8: H >> empty = nat : U
    Conclude(Equality(TmEqAbsurd), [1, 6, 7, 3, 0, 0, 0, 0, 0, 0], [4, 5, 0, 0, 0, 0, 0]),
};

/// The rows of what it gives: equal, term.
pub static EMPTY_SMALL_GIVES: &[u16] = &[8, 5];
