//! Written by tools/write_entries.py.

use recipes::Row::{Conclude, Make, Part, Premise};
use recipes::{Row, table};
use theory::NatRule::NatU;
use theory::Op;
use theory::RuleName::{Naturals, Universe};
use theory::UniverseRule::TyU;

/// `Type` of what zero concludes. Its parts are G.
pub static ZERO_TYPE: &[Row] = table! {
    // 0: ctx G
    Premise(0),
    Part(0),
    // 2: G >> nat : U
    Conclude(Naturals(NatU), [1, 0, 0, 0, 0, 0, 0, 0, 0, 0], [0, 0, 0, 0, 0, 0, 0]),
    Make(Op::Nat, [0, 0, 0, 0]),
    // 4: G >> nat
    Conclude(Universe(TyU), [1, 3, 0, 0, 0, 0, 0, 0, 0, 0], [2, 0, 0, 0, 0, 0, 0]),
};
