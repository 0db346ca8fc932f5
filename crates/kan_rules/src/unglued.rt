//! Written by tools/write_recipes.py.

use recipes::Row::{Conclude, Field, Instance, Make, Part, Premise, Shift, Var, WithFace};
use recipes::{Row, table};
use theory::ContextRule::{SubId, SubWkFace};
use theory::EqualityRule::TmConv;
use theory::GlueRule::{GlueTyFace, UnglueFace};
use theory::InstanceRule::TmSub;
use theory::Op;
use theory::PiRule::App;
use theory::RuleName::{Contexts, Equality, Gluing, Instances, Pi, Sigma};
use theory::SigmaRule::Fst;

/// Where the face of a glued type is true, a term of it unglued: the function, applied.
/// Its parts are p G A T w b.
pub static UNGLUED: &[Row] = table! {
    // 0: ctx G
    Premise(0),
    // 1: G >> A
    Premise(1),
    // 2: Gp >> T
    Premise(2),
    // 3: Gp >> w : equiv T A
    Premise(3),
    // 4: G >> b : Glue A p T w
    Premise(4),
    Field(0, 0),
    // 6: id : G to G
    Conclude(Contexts(SubId), [5, 0, 0, 0, 0, 0, 0, 0, 0, 0], [0, 0, 0, 0, 0, 0, 0]),
    Shift(0),
    Part(0),
    // 9: id : Gp to G
    Conclude(Contexts(SubWkFace), [5, 7, 5, 8, 0, 0, 0, 0, 0, 0], [6, 0, 0, 0, 0, 0, 0]),
    WithFace(5, 8),
    Field(4, 1),
    Field(1, 1),
    Field(2, 1),
    Field(3, 1),
    Make(Op::GlueType, [12, 8, 13, 14]),
    // 16: Gp >> b : Glue A p T w
    Conclude(Instances(TmSub), [10, 7, 5, 11, 15, 0, 0, 0, 0, 0], [9, 4, 0, 0, 0, 0, 0]),
    // 17: Gp >> Glue A p T w = T
    Conclude(Gluing(GlueTyFace), [5, 12, 8, 13, 14, 0, 0, 0, 0, 0], [1, 2, 3, 0, 0, 0, 0]),
    // 18: Gp >> b : T
    Conclude(Equality(TmConv), [10, 11, 15, 13, 0, 0, 0, 0, 0, 0], [16, 17, 0, 0, 0, 0, 0]),
    Shift(1),
    Instance(12, 19),
    Make(Op::Pi, [13, 20, 0, 0]),
    Shift(2),
    Instance(13, 22),
    Shift(4),
    Instance(12, 24),
    Var(1),
    Var(2),
    Var(0),
    Make(Op::App, [27, 28, 0, 0]),
    Make(Op::PathP, [25, 26, 29, 0]),
    Make(Op::Sig, [23, 30, 0, 0]),
    Instance(31, 19),
    Shift(3),
    Instance(31, 33),
    Make(Op::PathP, [34, 26, 28, 0]),
    Make(Op::Pi, [32, 35, 0, 0]),
    Make(Op::Sig, [31, 36, 0, 0]),
    Make(Op::Pi, [20, 37, 0, 0]),
    // 39: Gp >> fst w : pi T A+
    Conclude(Sigma(Fst), [10, 14, 21, 38, 0, 0, 0, 0, 0, 0], [3, 0, 0, 0, 0, 0, 0]),
    Make(Op::Fst, [14, 0, 0, 0]),
    // 41: Gp >> app (fst w) b : A
    Conclude(Pi(App), [10, 40, 11, 13, 20, 0, 0, 0, 0, 0], [39, 18, 0, 0, 0, 0, 0]),
    // 42: Gp >> unglue p T w b = app (fst w) b : A
    Conclude(Gluing(UnglueFace), [5, 12, 8, 13, 14, 11, 0, 0, 0, 0], [1, 2, 3, 4, 0, 0, 0]),
};

/// The rows of what it gives: term, equal.
pub static UNGLUED_GIVES: &[u16] = &[41, 42];
