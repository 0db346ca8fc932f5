//! Written by tools/write_recipes.py.

use recipes::Row::{Conclude, Field, Instance, Make, Part, Premise, Shift, Var, WithFace};
use recipes::{Row, table};
use theory::EqualityRule::{TmEqRefl, TyEqRefl};
use theory::GlueRule::{Unglue, UnglueCong};
use theory::Op;
use theory::RuleName::{Equality, Gluing};

/// What equals another term of a glued type, unglued.
/// Its parts are p H A T w b c.
pub static UNGLUE_STAYS: &[Row] = table! {
    // 0: H >> A
    Premise(0),
    // 1: H.{p} >> T
    Premise(1),
    // 2: H.{p} >> w : equiv T A
    Premise(2),
    // 3: H >> b = c : Glue A p T w
    Premise(3),
    // 4: H >> c : Glue A p T w
    Premise(4),
    Field(0, 0),
    Part(0),
    WithFace(5, 6),
    Field(1, 1),
    // 9: H.{p} >> T = T
    Conclude(Equality(TyEqRefl), [7, 8, 0, 0, 0, 0, 0, 0, 0, 0], [1, 0, 0, 0, 0, 0, 0]),
    Field(2, 1),
    Field(0, 1),
    Shift(1),
    Instance(11, 12),
    Make(Op::Pi, [8, 13, 0, 0]),
    Shift(2),
    Instance(8, 15),
    Shift(4),
    Instance(11, 17),
    Var(1),
    Var(2),
    Var(0),
    Make(Op::App, [20, 21, 0, 0]),
    Make(Op::PathP, [18, 19, 22, 0]),
    Make(Op::Sig, [16, 23, 0, 0]),
    Instance(24, 12),
    Shift(3),
    Instance(24, 26),
    Make(Op::PathP, [27, 19, 21, 0]),
    Make(Op::Pi, [25, 28, 0, 0]),
    Make(Op::Sig, [24, 29, 0, 0]),
    Make(Op::Pi, [13, 30, 0, 0]),
    Make(Op::Sig, [14, 31, 0, 0]),
    // 33: H.{p} >> w = w : equiv T A
    Conclude(Equality(TmEqRefl), [7, 10, 32, 0, 0, 0, 0, 0, 0, 0], [2, 0, 0, 0, 0, 0, 0]),
    Field(3, 1),
    Field(3, 2),
    // 36: H >> unglue p T w b = unglue p T w c : A
    Conclude(Gluing(UnglueCong), [5, 11, 6, 8, 10, 6, 8, 10, 34, 35], [0, 1, 2, 9, 33, 3, 0]),
    // 37: H >> unglue p T w c : A
    Conclude(Gluing(Unglue), [5, 11, 6, 8, 10, 35, 0, 0, 0, 0], [0, 1, 2, 4, 0, 0, 0]),
};

/// The rows of what it gives: equal, term.
pub static UNGLUE_STAYS_GIVES: &[u16] = &[36, 37];
