//! Written by tools/write_recipes.py.

use recipes::Row::{Conclude, Field, Instance, Make, Part, Premise, Push, Shift, Var};
use recipes::{Row, table};
use theory::CompRule::{Comp, CompFace};
use theory::ContextRule::{SubFace, SubForm, SubId, SubWkFace, SubWkName};
use theory::EqualityRule::{TmEqRefl, TmEqTrans, TyEqRefl};
use theory::GlueRule::{Unglue, UnglueCong, UnglueFace};
use theory::InstanceRule::{TmEqSub, TmSub, TySub};
use theory::Op;
use theory::RuleName::{Composition, Contexts, Equality, Gluing, Instances};

/// The first step of composition at a glued type, as in the paper by Cohen et al., section 6.2: the
/// bases of the sides are composed.
/// Its parts are G A q T w p b a.
pub static GLUE_BASE: &[Row] = table! {
    Premise(0),
    Premise(1),
    Premise(2),
    Premise(3),
    Premise(4),
    Premise(5),
    Premise(6),
    Part(0),
    Conclude(Contexts(SubId), [7, 0, 0, 0, 0, 0, 0, 0, 0, 0], [0, 0, 0, 0, 0, 0, 0]),
    Shift(0),
    Part(5),
    Conclude(Contexts(SubWkFace), [7, 9, 7, 10, 0, 0, 0, 0, 0, 0], [8, 0, 0, 0, 0, 0, 0]),
    Field(6, 0),
    Make(Op::I0, [0, 0, 0, 0]),
    Conclude(Contexts(SubForm), [12, 9, 7, 13, 0, 0, 0, 0, 0, 0], [11, 0, 0, 0, 0, 0, 0]),
    Field(14, 1),
    Field(1, 0),
    Part(1),
    Conclude(Instances(TySub), [12, 15, 16, 17, 0, 0, 0, 0, 0, 0], [14, 1, 0, 0, 0, 0, 0]),
    Part(2),
    Instance(19, 15),
    Conclude(Contexts(SubWkFace), [12, 9, 7, 20, 0, 0, 0, 0, 0, 0], [11, 0, 0, 0, 0, 0, 0]),
    Field(21, 0),
    Conclude(Contexts(SubForm), [22, 9, 7, 13, 0, 0, 0, 0, 0, 0], [21, 0, 0, 0, 0, 0, 0]),
    Conclude(Contexts(SubFace), [22, 15, 16, 19, 0, 0, 0, 0, 0, 0], [23, 0, 0, 0, 0, 0, 0]),
    Field(2, 0),
    Part(3),
    Conclude(Instances(TySub), [22, 15, 25, 26, 0, 0, 0, 0, 0, 0], [24, 2, 0, 0, 0, 0, 0]),
    Part(4),
    Field(3, 2),
    Conclude(Instances(TmSub), [22, 15, 25, 28, 29, 0, 0, 0, 0, 0], [24, 3, 0, 0, 0, 0, 0]),
    Field(27, 1),
    Conclude(Equality(TyEqRefl), [22, 31, 0, 0, 0, 0, 0, 0, 0, 0], [27, 0, 0, 0, 0, 0, 0]),
    Field(30, 1),
    Field(30, 2),
    Conclude(Equality(TmEqRefl), [22, 33, 34, 0, 0, 0, 0, 0, 0, 0], [30, 0, 0, 0, 0, 0, 0]),
    Field(18, 1),
    Part(7),
    Field(6, 2),
    // 39: base_of_start = base_of_sides(0) : A(0)
    Conclude(Gluing(UnglueCong), [12, 36, 20, 31, 33, 20, 31, 33, 37, 38],
        [18, 27, 30, 32, 35, 6, 0]),
    Conclude(Contexts(SubWkName), [12, 9, 7, 0, 0, 0, 0, 0, 0, 0], [11, 0, 0, 0, 0, 0, 0]),
    Field(4, 0),
    Shift(1),
    Var(0),
    Conclude(Contexts(SubForm), [41, 42, 7, 43, 0, 0, 0, 0, 0, 0], [40, 0, 0, 0, 0, 0, 0]),
    Field(44, 1),
    Conclude(Instances(TySub), [41, 45, 16, 17, 0, 0, 0, 0, 0, 0], [44, 1, 0, 0, 0, 0, 0]),
    Conclude(Contexts(SubWkFace), [41, 42, 7, 19, 0, 0, 0, 0, 0, 0], [40, 0, 0, 0, 0, 0, 0]),
    Field(47, 0),
    Conclude(Contexts(SubForm), [48, 42, 7, 43, 0, 0, 0, 0, 0, 0], [47, 0, 0, 0, 0, 0, 0]),
    Conclude(Contexts(SubFace), [48, 45, 16, 19, 0, 0, 0, 0, 0, 0], [49, 0, 0, 0, 0, 0, 0]),
    Conclude(Instances(TySub), [48, 45, 25, 26, 0, 0, 0, 0, 0, 0], [50, 2, 0, 0, 0, 0, 0]),
    Conclude(Instances(TmSub), [48, 45, 25, 28, 29, 0, 0, 0, 0, 0], [50, 3, 0, 0, 0, 0, 0]),
    Part(6),
    Conclude(Gluing(Unglue), [41, 17, 19, 26, 28, 53, 0, 0, 0, 0], [46, 51, 52, 4, 0, 0, 0]),
    Conclude(Contexts(SubForm), [7, 9, 7, 13, 0, 0, 0, 0, 0, 0], [8, 0, 0, 0, 0, 0, 0]),
    Conclude(Instances(TySub), [7, 15, 16, 17, 0, 0, 0, 0, 0, 0], [55, 1, 0, 0, 0, 0, 0]),
    Conclude(Contexts(SubWkFace), [7, 9, 7, 20, 0, 0, 0, 0, 0, 0], [8, 0, 0, 0, 0, 0, 0]),
    Field(57, 0),
    Conclude(Contexts(SubForm), [58, 9, 7, 13, 0, 0, 0, 0, 0, 0], [57, 0, 0, 0, 0, 0, 0]),
    Conclude(Contexts(SubFace), [58, 15, 16, 19, 0, 0, 0, 0, 0, 0], [59, 0, 0, 0, 0, 0, 0]),
    Conclude(Instances(TySub), [58, 15, 25, 26, 0, 0, 0, 0, 0, 0], [60, 2, 0, 0, 0, 0, 0]),
    Conclude(Instances(TmSub), [58, 15, 25, 28, 29, 0, 0, 0, 0, 0], [60, 3, 0, 0, 0, 0, 0]),
    Conclude(Gluing(Unglue), [7, 36, 20, 31, 33, 37, 0, 0, 0, 0], [56, 61, 62, 5, 0, 0, 0]),
    Field(54, 1),
    Field(39, 1),
    // 66: pasted_base : A(1)
    Conclude(Composition(Comp), [7, 17, 10, 64, 65, 0, 0, 0, 0, 0], [1, 54, 63, 39, 0, 0, 0]),
    // 67: pasted_base = base_of_sides(1) : A(1)
    Conclude(Composition(CompFace), [7, 17, 10, 64, 65, 0, 0, 0, 0, 0], [1, 54, 63, 39, 0, 0, 0]),
    // 68: base_of_sides = app (fst w) b : A
    Conclude(Gluing(UnglueFace), [41, 17, 19, 26, 28, 53, 0, 0, 0, 0], [46, 51, 52, 4, 0, 0, 0]),
    Make(Op::I1, [0, 0, 0, 0]),
    Push(9, 69),
    Instance(19, 70),
    Conclude(Contexts(SubWkFace), [7, 9, 7, 71, 0, 0, 0, 0, 0, 0], [8, 0, 0, 0, 0, 0, 0]),
    Field(72, 0),
    Conclude(Contexts(SubWkFace), [73, 9, 7, 10, 0, 0, 0, 0, 0, 0], [72, 0, 0, 0, 0, 0, 0]),
    Field(74, 0),
    Conclude(Contexts(SubFace), [75, 9, 7, 10, 0, 0, 0, 0, 0, 0], [74, 0, 0, 0, 0, 0, 0]),
    Field(66, 1),
    Field(67, 2),
    Field(66, 2),
    Conclude(Instances(TmEqSub), [75, 9, 12, 77, 78, 79, 0, 0, 0, 0], [76, 67, 0, 0, 0, 0, 0]),
    Conclude(Contexts(SubForm), [75, 9, 12, 69, 0, 0, 0, 0, 0, 0], [76, 0, 0, 0, 0, 0, 0]),
    Conclude(Contexts(SubFace), [75, 70, 41, 19, 0, 0, 0, 0, 0, 0], [81, 0, 0, 0, 0, 0, 0]),
    Field(68, 2),
    Conclude(Instances(TmEqSub), [75, 70, 48, 64, 83, 17, 0, 0, 0, 0], [82, 68, 0, 0, 0, 0, 0]),
    Field(84, 2),
    // 86: pasted_base = base_of_sides(1) = app (fst w(1)) b(1) : A(1)
    Conclude(Equality(TmEqTrans), [75, 77, 78, 85, 79, 0, 0, 0, 0, 0], [80, 84, 0, 0, 0, 0, 0]),
};

/// The rows of what it gives: base, on_face, on_both.
pub static GLUE_BASE_GIVES: &[u16] = &[66, 67, 86];
