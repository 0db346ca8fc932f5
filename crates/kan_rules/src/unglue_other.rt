//! Written by tools/write_recipes.py.

use recipes::Row::{Conclude, Field, Make, Part, Premise, WithFace};
use recipes::{Row, table};
use theory::EqualityRule::{TmEqConv, TmEqTrans, TyEqSym};
use theory::GlueRule::{GlueBeta, UnglueCong};
use theory::Op;
use theory::RuleName::{Equality, Gluing};

/// What equals an element of a glued type that is made at another one, unglued.
/// Its parts are p q H A T w B V z c a b.
pub static UNGLUE_OTHER: &[Row] = table! {
    // 0: H >> A
    Premise(0),
    // 1: H.{p} >> T
    Premise(1),
    // 2: H.{p} >> w : equiv T A
    Premise(2),
    // 3: H >> B
    Premise(3),
    // 4: H.{q} >> V
    Premise(4),
    // 5: H.{q} >> z : equiv V B
    Premise(5),
    // 6: H.{q} >> c : V
    Premise(6),
    // 7: H >> a : B
    Premise(7),
    // 8: H.{q} >> app (fst z) c = a : B
    Premise(8),
    // 9: H >> b = glue q c a : Glue A p T w
    Premise(9),
    // 10: H >> B = A
    Premise(10),
    // 11: H.{p} >> V = T
    Premise(11),
    // 12: H.{p} >> w = z : equiv T A
    Premise(12),
    Field(0, 0),
    Part(0),
    WithFace(13, 14),
    Field(4, 1),
    Field(1, 1),
    // 18: H.{p} >> T = V
    Conclude(Equality(TyEqSym), [15, 16, 17, 0, 0, 0, 0, 0, 0, 0], [11, 0, 0, 0, 0, 0, 0]),
    Field(0, 1),
    Field(2, 1),
    Part(1),
    Field(5, 1),
    Field(9, 1),
    Field(6, 1),
    Field(7, 1),
    Make(Op::Glue, [21, 24, 25, 0]),
    // 27: H >> unglue p T w b = unglue q V z (glue q c a) : A
    Conclude(Gluing(UnglueCong), [13, 19, 14, 17, 20, 21, 16, 22, 23, 26], [0, 1, 2, 18, 12, 9, 0]),
    Field(3, 1),
    // 29: H >> unglue q V z (glue q c a) = a : B
    Conclude(Gluing(GlueBeta), [13, 28, 21, 16, 22, 24, 25, 0, 0, 0], [3, 4, 5, 6, 7, 8, 0]),
    Make(Op::Unglue, [21, 16, 22, 26]),
    // 31: H >> unglue q V z (glue q c a) = a : A
    Conclude(Equality(TmEqConv), [13, 30, 25, 28, 19, 0, 0, 0, 0, 0], [29, 10, 0, 0, 0, 0, 0]),
    Make(Op::Unglue, [14, 17, 20, 23]),
    // 33: H >> unglue p T w b = a : A
    Conclude(Equality(TmEqTrans), [13, 32, 30, 25, 19, 0, 0, 0, 0, 0], [27, 31, 0, 0, 0, 0, 0]),
    // 34: H >> A = B
    Conclude(Equality(TyEqSym), [13, 28, 19, 0, 0, 0, 0, 0, 0, 0], [10, 0, 0, 0, 0, 0, 0]),
    // 35: H >> unglue p T w b = a : B
    Conclude(Equality(TmEqConv), [13, 32, 25, 19, 28, 0, 0, 0, 0, 0], [33, 34, 0, 0, 0, 0, 0]),
};

/// The rows of what it gives: equal.
pub static UNGLUE_OTHER_GIVES: &[u16] = &[35];
