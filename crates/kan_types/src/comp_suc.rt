//! Written by tools/write_recipes.py.

use recipes::Row::{Conclude, Field, Part, Premise};
use recipes::{Row, table};
use theory::CompRule::{Comp, CompSuc};
use theory::ContextRule::CtxName;
use theory::NatRule::{NatU, Suc};
use theory::RuleName::{Composition, Contexts, Naturals, Universe};
use theory::UniverseRule::TyU;

/// Composition of successors, as in the paper by Cohen et al., section 4.5.
/// Its parts are G p n m.
pub static COMP_SUC: &[Row] = table! {
    Premise(0),
    Premise(1),
    Premise(2),
    Premise(3),
    Part(0),
    Conclude(Contexts(CtxName), [4, 0, 0, 0, 0, 0, 0, 0, 0, 0], [0, 0, 0, 0, 0, 0, 0]),
    Field(5, 0),
    Conclude(Naturals(NatU), [6, 0, 0, 0, 0, 0, 0, 0, 0, 0], [5, 0, 0, 0, 0, 0, 0]),
    Field(1, 2),
    Conclude(Universe(TyU), [6, 8, 0, 0, 0, 0, 0, 0, 0, 0], [7, 0, 0, 0, 0, 0, 0]),
    Part(1),
    Part(2),
    Part(3),
    Conclude(Composition(Comp), [4, 8, 10, 11, 12, 0, 0, 0, 0, 0], [9, 1, 2, 3, 0, 0, 0]),
    Field(13, 1),
    // 15: suc (comp (i. nat) p (i. n) m) : nat
    Conclude(Naturals(Suc), [4, 14, 0, 0, 0, 0, 0, 0, 0, 0], [13, 0, 0, 0, 0, 0, 0]),
    // 16: comp (i. nat) p (i. suc n) (suc m) = suc (comp (i. nat) p (i. n) m) : nat
    Conclude(Composition(CompSuc), [4, 10, 11, 12, 0, 0, 0, 0, 0, 0], [1, 2, 3, 0, 0, 0, 0]),
};

/// The rows of what it gives: typing, equal.
pub static COMP_SUC_GIVES: &[u16] = &[15, 16];
