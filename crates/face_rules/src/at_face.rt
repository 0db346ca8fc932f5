//! Written by tools/write_recipes.py.

use recipes::Row::{Conclude, Field, Make, Part, Premise, Shift, WithFace};
use recipes::{Row, table};
use theory::ContextRule::{SubId, SubWkFace};
use theory::EqualityRule::TmConv;
use theory::GlueRule::{GlueTyFace, Unglue};
use theory::InstanceRule::TmSub;
use theory::Op;
use theory::RuleName::{Contexts, Equality, Gluing, Instances};

/// An element of a glued type, unglued, and as one of what is glued, where the face is true.
/// Its parts are p H A T w b.
pub static AT_FACE: &[Row] = table! {
    // 0: ctx H
    Premise(0),
    // 1: H >> A
    Premise(1),
    // 2: H.{p} >> T
    Premise(2),
    // 3: H.{p} >> w : equiv T A
    Premise(3),
    // 4: H >> b : Glue A p T w
    Premise(4),
    Field(0, 0),
    Field(1, 1),
    Part(0),
    Field(2, 1),
    Field(3, 1),
    Field(4, 1),
    // 11: H >> unglue p T w b : A
    Conclude(Gluing(Unglue), [5, 6, 7, 8, 9, 10, 0, 0, 0, 0], [1, 2, 3, 4, 0, 0, 0]),
    // 12: id : H to H
    Conclude(Contexts(SubId), [5, 0, 0, 0, 0, 0, 0, 0, 0, 0], [0, 0, 0, 0, 0, 0, 0]),
    Shift(0),
    // 14: id : H.{p} to H
    Conclude(Contexts(SubWkFace), [5, 13, 5, 7, 0, 0, 0, 0, 0, 0], [12, 0, 0, 0, 0, 0, 0]),
    WithFace(5, 7),
    Make(Op::GlueType, [6, 7, 8, 9]),
    // 17: H.{p} >> b : Glue A p T w
    Conclude(Instances(TmSub), [15, 13, 5, 10, 16, 0, 0, 0, 0, 0], [14, 4, 0, 0, 0, 0, 0]),
    // 18: H.{p} >> Glue A p T w = T
    Conclude(Gluing(GlueTyFace), [5, 6, 7, 8, 9, 0, 0, 0, 0, 0], [1, 2, 3, 0, 0, 0, 0]),
    // 19: H.{p} >> b : T
    Conclude(Equality(TmConv), [15, 10, 16, 8, 0, 0, 0, 0, 0, 0], [17, 18, 0, 0, 0, 0, 0]),
};

/// The rows of what it gives: base, face.
pub static AT_FACE_GIVES: &[u16] = &[11, 19];
