//! Written by tools/write_recipes.py.

use recipes::Row::{Conclude, Field, Part, Premise};
use recipes::{Row, table};
use theory::GlueRule::UnglueCong;
use theory::RuleName::Gluing;

/// Elements of glued types that are equal, unglued, where their parts are equal.
/// Its parts are p q H A T w V z b c.
pub static UNGLUE_EQUAL: &[Row] = table! {
    // 0: H >> A
    Premise(0),
    // 1: H.{p} >> T
    Premise(1),
    // 2: H.{p} >> w : equiv T A
    Premise(2),
    // 3: H.{p} >> T = V
    Premise(3),
    // 4: H.{p} >> w = z : equiv T A
    Premise(4),
    // 5: H >> b = c : Glue A p T w
    Premise(5),
    Field(0, 0),
    Field(0, 1),
    Part(0),
    Field(1, 1),
    Field(2, 1),
    Part(1),
    Field(3, 2),
    Field(4, 2),
    Field(5, 1),
    Field(5, 2),
    // 16: H >> unglue p T w b = unglue q V z c : A
    Conclude(Gluing(UnglueCong), [6, 7, 8, 9, 10, 11, 12, 13, 14, 15], [0, 1, 2, 3, 4, 5, 0]),
};

/// The rows of what it gives: equal.
pub static UNGLUE_EQUAL_GIVES: &[u16] = &[16];
