//! Written by tools/write_recipes.py.

use recipes::Row::{Conclude, Field, Instance, Make, Part, Premise, Shift, Var, WithFace};
use recipes::{Row, table};
use theory::ContextRule::{SubFace, SubId, SubWkFace};
use theory::EqualityRule::{TmConv, TmEqRefl, TmEqSym, TmEqTrans, TyEqRefl};
use theory::GlueRule::{Glue, GlueBeta, GlueEta, GlueFace, GlueTyCong, UnglueCong};
use theory::InstanceRule::{TmEqSub, TmSub, TySub};
use theory::Op;
use theory::PiRule::AppCong;
use theory::RuleName::{Contexts, Equality, Gluing, Instances, Pi, Sigma};
use theory::SigmaRule::Fst;

/// An element of a glued type whose parts are in normal form, at a face that is the same as its
/// own. Its parts are p q H A T w u a v b.
pub static GLUE_NORMAL: &[Row] = table! {
    // 0: ctx H
    Premise(0),
    // 1: H >> A
    Premise(1),
    // 2: P >> T
    Premise(2),
    // 3: P >> w : equiv T A
    Premise(3),
    // 4: P >> u : T
    Premise(4),
    // 5: H >> a : A
    Premise(5),
    // 6: P >> app (fst w) u = a : A
    Premise(6),
    // 7: Q >> u = v : T
    Premise(7),
    // 8: Q >> v : T
    Premise(8),
    // 9: H >> a = b : A
    Premise(9),
    // 10: H >> b : A
    Premise(10),
    Field(0, 0),
    // 12: id : H to H
    Conclude(Contexts(SubId), [11, 0, 0, 0, 0, 0, 0, 0, 0, 0], [0, 0, 0, 0, 0, 0, 0]),
    Shift(0),
    Part(0),
    // 15: id : P to H
    Conclude(Contexts(SubWkFace), [11, 13, 11, 14, 0, 0, 0, 0, 0, 0], [12, 0, 0, 0, 0, 0, 0]),
    WithFace(11, 14),
    Part(1),
    // 18: id : P to Q
    Conclude(Contexts(SubFace), [16, 13, 11, 17, 0, 0, 0, 0, 0, 0], [15, 0, 0, 0, 0, 0, 0]),
    // 19: id : Q to H
    Conclude(Contexts(SubWkFace), [11, 13, 11, 17, 0, 0, 0, 0, 0, 0], [12, 0, 0, 0, 0, 0, 0]),
    WithFace(11, 17),
    // 21: id : Q to P
    Conclude(Contexts(SubFace), [20, 13, 11, 14, 0, 0, 0, 0, 0, 0], [19, 0, 0, 0, 0, 0, 0]),
    Field(2, 1),
    // 23: Q >> T
    Conclude(Instances(TySub), [20, 13, 16, 22, 0, 0, 0, 0, 0, 0], [21, 2, 0, 0, 0, 0, 0]),
    Field(3, 1),
    Field(1, 1),
    Shift(1),
    Instance(25, 26),
    Make(Op::Pi, [22, 27, 0, 0]),
    Shift(2),
    Instance(22, 29),
    Shift(4),
    Instance(25, 31),
    Var(1),
    Var(2),
    Var(0),
    Make(Op::App, [34, 35, 0, 0]),
    Make(Op::PathP, [32, 33, 36, 0]),
    Make(Op::Sig, [30, 37, 0, 0]),
    Instance(38, 26),
    Shift(3),
    Instance(38, 40),
    Make(Op::PathP, [41, 33, 35, 0]),
    Make(Op::Pi, [39, 42, 0, 0]),
    Make(Op::Sig, [38, 43, 0, 0]),
    Make(Op::Pi, [27, 44, 0, 0]),
    Make(Op::Sig, [28, 45, 0, 0]),
    // 47: Q >> w : equiv T A
    Conclude(Instances(TmSub), [20, 13, 16, 24, 46, 0, 0, 0, 0, 0], [21, 3, 0, 0, 0, 0, 0]),
    // 48: Q >> fst w : maps
    Conclude(Sigma(Fst), [20, 24, 28, 45, 0, 0, 0, 0, 0, 0], [47, 0, 0, 0, 0, 0, 0]),
    Make(Op::Fst, [24, 0, 0, 0]),
    // 50: Q >> fst w = fst w : maps
    Conclude(Equality(TmEqRefl), [20, 49, 28, 0, 0, 0, 0, 0, 0, 0], [48, 0, 0, 0, 0, 0, 0]),
    Field(4, 1),
    Field(7, 2),
    // 53: Q >> app (fst w) u = app (fst w) v : A
    Conclude(Pi(AppCong), [20, 49, 49, 51, 52, 22, 27, 0, 0, 0], [50, 7, 0, 0, 0, 0, 0]),
    Make(Op::App, [49, 51, 0, 0]),
    Make(Op::App, [49, 52, 0, 0]),
    // 56: Q >> app (fst w) v = app (fst w) u : A
    Conclude(Equality(TmEqSym), [20, 54, 55, 25, 0, 0, 0, 0, 0, 0], [53, 0, 0, 0, 0, 0, 0]),
    Field(5, 1),
    // 58: Q >> app (fst w) u = a : A
    Conclude(Instances(TmEqSub), [20, 13, 16, 54, 57, 25, 0, 0, 0, 0], [21, 6, 0, 0, 0, 0, 0]),
    // 59: Q >> app (fst w) v = a : A
    Conclude(Equality(TmEqTrans), [20, 55, 54, 57, 25, 0, 0, 0, 0, 0], [56, 58, 0, 0, 0, 0, 0]),
    Field(9, 2),
    // 61: Q >> a = b : A
    Conclude(Instances(TmEqSub), [20, 13, 11, 57, 60, 25, 0, 0, 0, 0], [19, 9, 0, 0, 0, 0, 0]),
    // 62: Q >> app (fst w) v = b : A
    Conclude(Equality(TmEqTrans), [20, 55, 57, 60, 25, 0, 0, 0, 0, 0], [59, 61, 0, 0, 0, 0, 0]),
    // 63: H >> new : Y
    Conclude(Gluing(Glue), [11, 25, 17, 22, 24, 52, 60, 0, 0, 0], [1, 23, 47, 8, 10, 62, 0]),
    // 64: H >> A = A
    Conclude(Equality(TyEqRefl), [11, 25, 0, 0, 0, 0, 0, 0, 0, 0], [1, 0, 0, 0, 0, 0, 0]),
    // 65: Q >> T = T
    Conclude(Equality(TyEqRefl), [20, 22, 0, 0, 0, 0, 0, 0, 0, 0], [23, 0, 0, 0, 0, 0, 0]),
    // 66: Q >> w = w : equiv T A
    Conclude(Equality(TmEqRefl), [20, 24, 46, 0, 0, 0, 0, 0, 0, 0], [47, 0, 0, 0, 0, 0, 0]),
    // 67: H >> Y = X
    Conclude(Gluing(GlueTyCong), [11, 25, 25, 17, 14, 22, 22, 24, 24, 0], [64, 65, 66, 0, 0, 0, 0]),
    Make(Op::Glue, [17, 52, 60, 0]),
    Make(Op::GlueType, [25, 17, 22, 24]),
    Make(Op::GlueType, [25, 14, 22, 24]),
    // 71: H >> new : X
    Conclude(Equality(TmConv), [11, 68, 69, 70, 0, 0, 0, 0, 0, 0], [63, 67, 0, 0, 0, 0, 0]),
    // 72: H >> old : X
    Conclude(Gluing(Glue), [11, 25, 14, 22, 24, 51, 57, 0, 0, 0], [1, 2, 3, 4, 5, 6, 0]),
    // 73: H >> unglue p T w old = a : A
    Conclude(Gluing(GlueBeta), [11, 25, 14, 22, 24, 51, 57, 0, 0, 0], [1, 2, 3, 4, 5, 6, 0]),
    Make(Op::Glue, [14, 51, 57, 0]),
    Make(Op::Unglue, [14, 22, 24, 74]),
    // 76: H >> unglue p T w old = b : A
    Conclude(Equality(TmEqTrans), [11, 75, 57, 60, 25, 0, 0, 0, 0, 0], [73, 9, 0, 0, 0, 0, 0]),
    // 77: H >> new = new : Y
    Conclude(Equality(TmEqRefl), [11, 68, 69, 0, 0, 0, 0, 0, 0, 0], [63, 0, 0, 0, 0, 0, 0]),
    // 78: H >> unglue q T w new = unglue p T w new : A
    Conclude(Gluing(UnglueCong), [11, 25, 17, 22, 24, 14, 22, 24, 68, 68],
        [1, 23, 47, 65, 66, 77, 0]),
    // 79: H >> unglue q T w new = b : A
    Conclude(Gluing(GlueBeta), [11, 25, 17, 22, 24, 52, 60, 0, 0, 0], [1, 23, 47, 8, 10, 62, 0]),
    Make(Op::Unglue, [17, 22, 24, 68]),
    // 81: H >> b = unglue q T w new : A
    Conclude(Equality(TmEqSym), [11, 80, 60, 25, 0, 0, 0, 0, 0, 0], [79, 0, 0, 0, 0, 0, 0]),
    Make(Op::Unglue, [14, 22, 24, 68]),
    // 83: H >> b = unglue p T w new : A
    Conclude(Equality(TmEqTrans), [11, 60, 80, 82, 25, 0, 0, 0, 0, 0], [81, 78, 0, 0, 0, 0, 0]),
    // 84: H >> unglue p T w old = unglue p T w new : A
    Conclude(Equality(TmEqTrans), [11, 75, 60, 82, 25, 0, 0, 0, 0, 0], [76, 83, 0, 0, 0, 0, 0]),
    // 85: P >> old = u : T
    Conclude(Gluing(GlueFace), [11, 25, 14, 22, 24, 51, 57, 0, 0, 0], [1, 2, 3, 4, 5, 6, 0]),
    // 86: P >> u = v : T
    Conclude(Instances(TmEqSub), [16, 13, 20, 51, 52, 22, 0, 0, 0, 0], [18, 7, 0, 0, 0, 0, 0]),
    // 87: P >> old = v : T
    Conclude(Equality(TmEqTrans), [16, 74, 51, 52, 22, 0, 0, 0, 0, 0], [85, 86, 0, 0, 0, 0, 0]),
    // 88: Q >> new = v : T
    Conclude(Gluing(GlueFace), [11, 25, 17, 22, 24, 52, 60, 0, 0, 0], [1, 23, 47, 8, 10, 62, 0]),
    // 89: P >> new = v : T
    Conclude(Instances(TmEqSub), [16, 13, 20, 68, 52, 22, 0, 0, 0, 0], [18, 88, 0, 0, 0, 0, 0]),
    // 90: P >> v = new : T
    Conclude(Equality(TmEqSym), [16, 68, 52, 22, 0, 0, 0, 0, 0, 0], [89, 0, 0, 0, 0, 0, 0]),
    // 91: P >> old = new : T
    Conclude(Equality(TmEqTrans), [16, 74, 52, 68, 22, 0, 0, 0, 0, 0], [87, 90, 0, 0, 0, 0, 0]),
    // 92: H >> old = new : X
    Conclude(Gluing(GlueEta), [11, 25, 14, 22, 24, 74, 68, 0, 0, 0], [1, 2, 3, 72, 71, 84, 91]),
};

/// The rows of what it gives: equal, term.
pub static GLUE_NORMAL_GIVES: &[u16] = &[92, 71];
