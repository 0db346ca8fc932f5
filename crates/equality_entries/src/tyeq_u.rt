//! Written by tools/write_entries.py.

use recipes::Row::{Conclude, Part, Premise};
use recipes::{Row, table};
use theory::RuleName::Universe;
use theory::UniverseRule::TyU;

/// `Left` of what tyeq.u concludes. Its parts are G A B.
pub static TYEQ_U_LEFT: &[Row] = table! {
    // 0: G >> A : U
    Premise(0),
    Part(0),
    Part(1),
    // 3: G >> A
    Conclude(Universe(TyU), [1, 2, 0, 0, 0, 0, 0, 0, 0, 0], [0, 0, 0, 0, 0, 0, 0]),
};

/// `Right` of what tyeq.u concludes. Its parts are G A B.
pub static TYEQ_U_RIGHT: &[Row] = table! {
    // 0: G >> B : U
    Premise(0),
    Part(0),
    Part(2),
    // 3: G >> B
    Conclude(Universe(TyU), [1, 2, 0, 0, 0, 0, 0, 0, 0, 0], [0, 0, 0, 0, 0, 0, 0]),
};
