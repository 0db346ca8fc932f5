//! Written by tools/write_entries.py.

use recipes::Row::{Conclude, Make, Part, Premise, WithName};
use recipes::{Row, table};
use theory::CompRule::Comp;
use theory::ContextRule::CtxName;
use theory::Op;
use theory::RuleName::{Composition, Contexts, Universe};
use theory::UniverseRule::TyUniv;

/// `Type` of what comp.u concludes. Its parts are G p b a.
pub static COMP_U_TYPE: &[Row] = table! {
    // 0: ctx G
    Premise(0),
    Part(0),
    // 2: G >> U
    Conclude(Universe(TyUniv), [1, 0, 0, 0, 0, 0, 0, 0, 0, 0], [0, 0, 0, 0, 0, 0, 0]),
};

/// `Left` of what comp.u concludes. Its parts are G p b a.
pub static COMP_U_LEFT: &[Row] = table! {
    // 0: G.{p}.I >> b : U
    Premise(0),
    // 1: G >> a : U
    Premise(1),
    // 2: G.{p} >> a = b{0} : U
    Premise(2),
    // 3: ctx G
    Premise(3),
    Part(0),
    // 5: ctx G.I
    Conclude(Contexts(CtxName), [4, 0, 0, 0, 0, 0, 0, 0, 0, 0], [3, 0, 0, 0, 0, 0, 0]),
    WithName(4),
    // 7: G.I >> U
    Conclude(Universe(TyUniv), [6, 0, 0, 0, 0, 0, 0, 0, 0, 0], [5, 0, 0, 0, 0, 0, 0]),
    Make(Op::U, [0, 0, 0, 0]),
    Part(1),
    Part(2),
    Part(3),
    // 12: G >> comp U p b a : U
    Conclude(Composition(Comp), [4, 8, 9, 10, 11, 0, 0, 0, 0, 0], [7, 0, 1, 2, 0, 0, 0]),
};
