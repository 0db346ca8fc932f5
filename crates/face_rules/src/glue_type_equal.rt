//! Written by tools/write_recipes.py.

use recipes::Row::{Conclude, Field, Part, Premise};
use recipes::{Row, table};
use theory::GlueRule::GlueTyCong;
use theory::RuleName::Gluing;

/// Glued types of equal parts, at faces that are the same.
/// Its parts are p q H A B T V w z.
pub static GLUE_TYPE_EQUAL: &[Row] = table! {
    // 0: H >> A = B
    Premise(0),
    // 1: H.{p} >> T = V
    Premise(1),
    // 2: H.{p} >> w = z : equiv T A
    Premise(2),
    Field(0, 0),
    Field(0, 1),
    Field(0, 2),
    Part(0),
    Part(1),
    Field(1, 1),
    Field(1, 2),
    Field(2, 1),
    Field(2, 2),
    // 12: H >> Glue A p T w = Glue B q V z
    Conclude(Gluing(GlueTyCong), [3, 4, 5, 6, 7, 8, 9, 10, 11, 0], [0, 1, 2, 0, 0, 0, 0]),
};

/// The rows of what it gives: equal.
pub static GLUE_TYPE_EQUAL_GIVES: &[u16] = &[12];
