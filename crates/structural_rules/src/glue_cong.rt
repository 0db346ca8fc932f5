//! Written by tools/write_recipes.py.

use recipes::Row::{Conclude, Make, Part, Premise, WithFace};
use recipes::{Row, table};
use theory::EqualityRule::{TmEqSym, TmEqTrans};
use theory::GlueRule::{Glue, GlueBeta, GlueEta, GlueFace};
use theory::Op;
use theory::RuleName::{Equality, Gluing};

/// Elements of a glued type are equal that are so over the base and on the face.
/// Its parts are G A p T w u a v b.
pub static GLUE_CONG: &[Row] = table! {
    // 0: G >> A
    Premise(1),
    // 1: G.{p} >> T
    Premise(2),
    // 2: G.{p} >> w : equivalence
    Premise(3),
    // 3: G.{p} >> u : T
    Premise(4),
    // 4: G >> a : A
    Premise(5),
    // 5: G.{p} >> app (fst w) u = a : A
    Premise(6),
    // 6: G.{p} >> v : T
    Premise(7),
    // 7: G >> b : A
    Premise(8),
    // 8: G.{p} >> app (fst w) v = b : A
    Premise(9),
    // 9: G.{p} >> u = v : T
    Premise(10),
    // 10: G >> a = b : A
    Premise(11),
    Part(0),
    Part(1),
    Part(2),
    Part(3),
    Part(4),
    Part(5),
    Part(6),
    // 18: G >> glue p u a : Glue A p T w
    Conclude(Gluing(Glue), [11, 12, 13, 14, 15, 16, 17, 0, 0, 0], [0, 1, 2, 3, 4, 5, 0]),
    Part(7),
    Part(8),
    // 21: G >> glue p v b : Glue A p T w
    Conclude(Gluing(Glue), [11, 12, 13, 14, 15, 19, 20, 0, 0, 0], [0, 1, 2, 6, 7, 8, 0]),
    // 22: G >> unglue p T w (glue p u a) = a : A
    Conclude(Gluing(GlueBeta), [11, 12, 13, 14, 15, 16, 17, 0, 0, 0], [0, 1, 2, 3, 4, 5, 0]),
    Make(Op::Glue, [13, 16, 17, 0]),
    Make(Op::Unglue, [13, 14, 15, 23]),
    // 25: G >> unglue p T w (glue p u a) = b : A
    Conclude(Equality(TmEqTrans), [11, 24, 17, 20, 12, 0, 0, 0, 0, 0], [22, 10, 0, 0, 0, 0, 0]),
    // 26: G >> unglue p T w (glue p v b) = b : A
    Conclude(Gluing(GlueBeta), [11, 12, 13, 14, 15, 19, 20, 0, 0, 0], [0, 1, 2, 6, 7, 8, 0]),
    Make(Op::Glue, [13, 19, 20, 0]),
    Make(Op::Unglue, [13, 14, 15, 27]),
    // 29: G >> b = unglue p T w (glue p v b) : A
    Conclude(Equality(TmEqSym), [11, 28, 20, 12, 0, 0, 0, 0, 0, 0], [26, 0, 0, 0, 0, 0, 0]),
    // 30: G >> unglue p T w (glue p u a) = unglue p T w (glue p v b) : A
    Conclude(Equality(TmEqTrans), [11, 24, 20, 28, 12, 0, 0, 0, 0, 0], [25, 29, 0, 0, 0, 0, 0]),
    // 31: G.{p} >> glue p u a = u : T
    Conclude(Gluing(GlueFace), [11, 12, 13, 14, 15, 16, 17, 0, 0, 0], [0, 1, 2, 3, 4, 5, 0]),
    // 32: G.{p} >> glue p v b = v : T
    Conclude(Gluing(GlueFace), [11, 12, 13, 14, 15, 19, 20, 0, 0, 0], [0, 1, 2, 6, 7, 8, 0]),
    WithFace(11, 13),
    // 34: G.{p} >> v = glue p v b : T
    Conclude(Equality(TmEqSym), [33, 27, 19, 14, 0, 0, 0, 0, 0, 0], [32, 0, 0, 0, 0, 0, 0]),
    // 35: G.{p} >> u = glue p v b : T
    Conclude(Equality(TmEqTrans), [33, 16, 19, 27, 14, 0, 0, 0, 0, 0], [9, 34, 0, 0, 0, 0, 0]),
    // 36: G.{p} >> glue p u a = glue p v b : T
    Conclude(Equality(TmEqTrans), [33, 23, 16, 27, 14, 0, 0, 0, 0, 0], [31, 35, 0, 0, 0, 0, 0]),
    // 37: G >> glue p u a = glue p v b : Glue A p T w
    Conclude(Gluing(GlueEta), [11, 12, 13, 14, 15, 23, 27, 0, 0, 0], [0, 1, 2, 18, 21, 30, 36]),
};

/// The rows of what it gives: equal.
pub static GLUE_CONG_GIVES: &[u16] = &[37];
