//! Written by tools/write_recipes.py.

use recipes::Row::{Conclude, Field, Instance, Make, Part, Premise, Shift, Var, WithFace};
use recipes::{Row, table};
use theory::EqualityRule::{TmEqRefl, TmEqTrans, TyEqRefl};
use theory::GlueRule::{GlueBeta, UnglueCong};
use theory::Op;
use theory::RuleName::{Equality, Gluing};

/// What equals a glued term, unglued.
/// Its parts are p H A T w c a b.
pub static UNGLUE_GLUE: &[Row] = table! {
    // 0: H >> A
    Premise(0),
    // 1: H.{p} >> T
    Premise(1),
    // 2: H.{p} >> w : equiv T A
    Premise(2),
    // 3: H.{p} >> c : T
    Premise(3),
    // 4: H >> a : A
    Premise(4),
    // 5: H.{p} >> app (fst w) c = a : A
    Premise(5),
    // 6: H >> b = glue p c a : Glue A p T w
    Premise(6),
    Field(0, 0),
    Part(0),
    WithFace(7, 8),
    Field(1, 1),
    // 11: H.{p} >> T = T
    Conclude(Equality(TyEqRefl), [9, 10, 0, 0, 0, 0, 0, 0, 0, 0], [1, 0, 0, 0, 0, 0, 0]),
    Field(2, 1),
    Field(0, 1),
    Shift(1),
    Instance(13, 14),
    Make(Op::Pi, [10, 15, 0, 0]),
    Shift(2),
    Instance(10, 17),
    Shift(4),
    Instance(13, 19),
    Var(1),
    Var(2),
    Var(0),
    Make(Op::App, [22, 23, 0, 0]),
    Make(Op::PathP, [20, 21, 24, 0]),
    Make(Op::Sig, [18, 25, 0, 0]),
    Instance(26, 14),
    Shift(3),
    Instance(26, 28),
    Make(Op::PathP, [29, 21, 23, 0]),
    Make(Op::Pi, [27, 30, 0, 0]),
    Make(Op::Sig, [26, 31, 0, 0]),
    Make(Op::Pi, [15, 32, 0, 0]),
    Make(Op::Sig, [16, 33, 0, 0]),
    // 35: H.{p} >> w = w : equiv T A
    Conclude(Equality(TmEqRefl), [9, 12, 34, 0, 0, 0, 0, 0, 0, 0], [2, 0, 0, 0, 0, 0, 0]),
    Field(6, 1),
    Field(3, 1),
    Field(4, 1),
    Make(Op::Glue, [8, 37, 38, 0]),
    // 40: H >> unglue p T w b = unglue p T w (glue p c a) : A
    Conclude(Gluing(UnglueCong), [7, 13, 8, 10, 12, 8, 10, 12, 36, 39], [0, 1, 2, 11, 35, 6, 0]),
    // 41: H >> unglue p T w (glue p c a) = a : A
    Conclude(Gluing(GlueBeta), [7, 13, 8, 10, 12, 37, 38, 0, 0, 0], [0, 1, 2, 3, 4, 5, 0]),
    Make(Op::Unglue, [8, 10, 12, 36]),
    Make(Op::Unglue, [8, 10, 12, 39]),
    // 44: H >> unglue p T w b = a : A
    Conclude(Equality(TmEqTrans), [7, 42, 43, 38, 13, 0, 0, 0, 0, 0], [40, 41, 0, 0, 0, 0, 0]),
};

/// The rows of what it gives: equal.
pub static UNGLUE_GLUE_GIVES: &[u16] = &[44];
