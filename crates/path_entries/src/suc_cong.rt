//! Written by tools/write_entries.py.

use recipes::Row::{Conclude, Make, Part, Premise};
use recipes::{Row, table};
use theory::NatRule::{NatU, Suc};
use theory::Op;
use theory::RuleName::{Naturals, Universe};
use theory::UniverseRule::TyU;

/// `Type` of what suc.cong concludes. Its parts are G n m.
pub static SUC_CONG_TYPE: &[Row] = table! {
    // 0: ctx G
    Premise(0),
    Part(0),
    // 2: G >> nat : U
    Conclude(Naturals(NatU), [1, 0, 0, 0, 0, 0, 0, 0, 0, 0], [0, 0, 0, 0, 0, 0, 0]),
    Make(Op::Nat, [0, 0, 0, 0]),
    // 4: G >> nat
    Conclude(Universe(TyU), [1, 3, 0, 0, 0, 0, 0, 0, 0, 0], [2, 0, 0, 0, 0, 0, 0]),
};

/// `Left` of what suc.cong concludes. Its parts are G n m.
pub static SUC_CONG_LEFT: &[Row] = table! {
    // 0: G >> n : nat
    Premise(0),
    Part(0),
    Part(1),
    // 3: G >> suc n : nat
    Conclude(Naturals(Suc), [1, 2, 0, 0, 0, 0, 0, 0, 0, 0], [0, 0, 0, 0, 0, 0, 0]),
};

/// `Right` of what suc.cong concludes. Its parts are G n m.
pub static SUC_CONG_RIGHT: &[Row] = table! {
    // 0: G >> m : nat
    Premise(0),
    Part(0),
    Part(2),
    // 3: G >> suc m : nat
    Conclude(Naturals(Suc), [1, 2, 0, 0, 0, 0, 0, 0, 0, 0], [0, 0, 0, 0, 0, 0, 0]),
};
