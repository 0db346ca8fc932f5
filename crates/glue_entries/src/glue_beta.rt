//! Written by tools/write_entries.py.

use recipes::Row::{Conclude, Make, Part, Premise};
use recipes::{Row, table};
use theory::GlueRule::{Glue, Unglue};
use theory::Op;
use theory::RuleName::Gluing;

/// `Left` of what glue.beta concludes. Its parts are G A p T w c a.
pub static GLUE_BETA_LEFT: &[Row] = table! {
    // 0: G >> A
    Premise(0),
    // 1: G.{p} >> T
    Premise(1),
    // 2: G.{p} >> w : equiv T A
    Premise(2),
    // 3: G.{p} >> c : T
    Premise(3),
    // 4: G >> a : A
    Premise(4),
    // 5: G.{p} >> app (fst w) c = a : A
    Premise(5),
    Part(0),
    Part(1),
    Part(2),
    Part(3),
    Part(4),
    Part(5),
    Part(6),
    // 13: G >> glue p c a : Glue A p T w
    Conclude(Gluing(Glue), [6, 7, 8, 9, 10, 11, 12, 0, 0, 0], [0, 1, 2, 3, 4, 5, 0]),
    Make(Op::Glue, [8, 11, 12, 0]),
    // 15: G >> unglue p T w (glue p c a) : A
    Conclude(Gluing(Unglue), [6, 7, 8, 9, 10, 14, 0, 0, 0, 0], [0, 1, 2, 13, 0, 0, 0]),
};
