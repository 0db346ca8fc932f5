//! Written by tools/write_recipes.py.

use recipes::Row::{Conclude, Field, Part, Premise};
use recipes::{Row, table};
use theory::GlueRule::GlueEta;
use theory::RuleName::Gluing;

/// Elements of a glued type that are equal, unglued and where the face is true.
/// Its parts are p H A T w b c.
pub static GLUE_EQUAL: &[Row] = table! {
    // 0: H >> A
    Premise(0),
    // 1: H.{p} >> T
    Premise(1),
    // 2: H.{p} >> w : equiv T A
    Premise(2),
    // 3: H >> b : Glue A p T w
    Premise(3),
    // 4: H >> c : Glue A p T w
    Premise(4),
    // 5: H >> unglue p T w b = unglue p T w c : A
    Premise(5),
    // 6: H.{p} >> b = c : T
    Premise(6),
    Field(0, 0),
    Field(0, 1),
    Part(0),
    Field(1, 1),
    Field(2, 1),
    Field(3, 1),
    Field(4, 1),
    // 14: H >> b = c : Glue A p T w
    Conclude(Gluing(GlueEta), [7, 8, 9, 10, 11, 12, 13, 0, 0, 0], [0, 1, 2, 3, 4, 5, 6]),
};

/// The rows of what it gives: equal.
pub static GLUE_EQUAL_GIVES: &[u16] = &[14];
