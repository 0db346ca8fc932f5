//! Written by tools/write_entries.py.

use recipes::Row::{Conclude, Make, Part, Premise};
use recipes::{Row, table};
use theory::NatRule::{NatRec, Zero};
use theory::Op;
use theory::RuleName::Naturals;

/// `Left` of what natrec.zero concludes. Its parts are G P a b.
pub static NATREC_ZERO_LEFT: &[Row] = table! {
    // 0: G.nat >> P
    Premise(0),
    // 1: G >> a : P{zero}
    Premise(1),
    // 2: G >> b : motive_step P
    Premise(2),
    // 3: ctx G
    Premise(3),
    Part(0),
    // 5: G >> zero : nat
    Conclude(Naturals(Zero), [4, 0, 0, 0, 0, 0, 0, 0, 0, 0], [3, 0, 0, 0, 0, 0, 0]),
    Part(1),
    Part(2),
    Part(3),
    Make(Op::Zero, [0, 0, 0, 0]),
    // 10: G >> natrec P a b zero : P{zero}
    Conclude(Naturals(NatRec), [4, 6, 7, 8, 9, 0, 0, 0, 0, 0], [0, 1, 2, 5, 0, 0, 0]),
};
