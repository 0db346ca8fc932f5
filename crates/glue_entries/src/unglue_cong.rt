//! Written by tools/write_entries.py.

use recipes::Row::{Conclude, Derive, Instance, Make, Part, Premise, Shift, Var, WithFace};
use recipes::{Row, table};
use theory::ContextRule::{SubFace, SubId, SubWkFace};
use theory::EqualityRule::{TmConv, TyEqRefl};
use theory::GlueRule::{GlueTyCong, Unglue};
use theory::InstanceRule::{TmSub, TySub};
use theory::Op;
use theory::RuleName::{Contexts, Equality, Gluing, Instances};

/// `Left` of what unglue.cong concludes. Its parts are G A p T w q V z b c.
pub static UNGLUE_CONG_LEFT: &[Row] = table! {
    // 0: G >> A
    Premise(0),
    // 1: G.{p} >> T
    Premise(1),
    // 2: G.{p} >> w : equiv T A
    Premise(2),
    // 3: G >> b : Glue A p T w
    Premise(3),
    Part(0),
    Part(1),
    Part(2),
    Part(3),
    Part(4),
    Part(8),
    // 10: G >> unglue p T w b : A
    Conclude(Gluing(Unglue), [4, 5, 6, 7, 8, 9, 0, 0, 0, 0], [0, 1, 2, 3, 0, 0, 0]),
};

/// `Right` of what unglue.cong concludes. Its parts are G A p T w q V z b c.
pub static UNGLUE_CONG_RIGHT: &[Row] = table! {
    // 0: G >> A
    Premise(0),
    // 1: G.{p} >> T
    Premise(1),
    // 2: G.{p} >> T = V
    Premise(2),
    // 3: G.{p} >> w = z : equiv T A
    Premise(3),
    // 4: ctx G
    Premise(4),
    // 5: ctx G.{p}
    Premise(5),
    // 6: G.{p} >> V
    Premise(6),
    // 7: G.{p} >> z : equiv T A
    Premise(7),
    // 8: G >> c : Glue A p T w
    Premise(8),
    Part(0),
    // 10: id : G to G
    Conclude(Contexts(SubId), [9, 0, 0, 0, 0, 0, 0, 0, 0, 0], [4, 0, 0, 0, 0, 0, 0]),
    Shift(0),
    Part(5),
    // 13: id : G.{q} to G
    Conclude(Contexts(SubWkFace), [9, 11, 9, 12, 0, 0, 0, 0, 0, 0], [10, 0, 0, 0, 0, 0, 0]),
    WithFace(9, 12),
    Part(2),
    // 16: id : G.{q} to G.{p}
    Conclude(Contexts(SubFace), [14, 11, 9, 15, 0, 0, 0, 0, 0, 0], [13, 0, 0, 0, 0, 0, 0]),
    // 17: id : G.{p} to G
    Conclude(Contexts(SubWkFace), [9, 11, 9, 15, 0, 0, 0, 0, 0, 0], [10, 0, 0, 0, 0, 0, 0]),
    WithFace(9, 15),
    Part(1),
    // 20: G.{p} >> A
    Conclude(Instances(TySub), [18, 11, 9, 19, 0, 0, 0, 0, 0, 0], [17, 0, 0, 0, 0, 0, 0]),
    // 21: G.{p} >> A = A
    Conclude(Equality(TyEqRefl), [18, 19, 0, 0, 0, 0, 0, 0, 0, 0], [20, 0, 0, 0, 0, 0, 0]),
    Part(3),
    Part(6),
    // 24: equiv_tycong
    Derive(0, [18, 22, 19, 23, 19, 0, 0, 0, 0, 0],
        [5, 1, 20, 6, 20, 2, 21, 0, 0, 0, 0, 0, 0, 0, 0, 0]),
    // 25: G >> A = A
    Conclude(Equality(TyEqRefl), [9, 19, 0, 0, 0, 0, 0, 0, 0, 0], [0, 0, 0, 0, 0, 0, 0]),
    Part(4),
    Part(7),
    // 28: G >> Glue A p T w = Glue A q V z
    Conclude(Gluing(GlueTyCong), [9, 19, 19, 15, 12, 22, 23, 26, 27, 0], [25, 2, 3, 0, 0, 0, 0]),
    Part(9),
    Make(Op::GlueType, [19, 15, 22, 26]),
    Make(Op::GlueType, [19, 12, 23, 27]),
    // 32: G >> c : Glue A q V z
    Conclude(Equality(TmConv), [9, 29, 30, 31, 0, 0, 0, 0, 0, 0], [8, 28, 0, 0, 0, 0, 0]),
    // 33: G.{q} >> V
    Conclude(Instances(TySub), [14, 11, 18, 23, 0, 0, 0, 0, 0, 0], [16, 6, 0, 0, 0, 0, 0]),
    Shift(1),
    Instance(19, 34),
    Make(Op::Pi, [22, 35, 0, 0]),
    Shift(2),
    Instance(22, 37),
    Shift(4),
    Instance(19, 39),
    Var(1),
    Var(2),
    Var(0),
    Make(Op::App, [42, 43, 0, 0]),
    Make(Op::PathP, [40, 41, 44, 0]),
    Make(Op::Sig, [38, 45, 0, 0]),
    Instance(46, 34),
    Shift(3),
    Instance(46, 48),
    Make(Op::PathP, [49, 41, 43, 0]),
    Make(Op::Pi, [47, 50, 0, 0]),
    Make(Op::Sig, [46, 51, 0, 0]),
    Make(Op::Pi, [35, 52, 0, 0]),
    Make(Op::Sig, [36, 53, 0, 0]),
    Make(Op::Pi, [23, 35, 0, 0]),
    Instance(23, 37),
    Make(Op::Sig, [56, 45, 0, 0]),
    Instance(57, 34),
    Instance(57, 48),
    Make(Op::PathP, [59, 41, 43, 0]),
    Make(Op::Pi, [58, 60, 0, 0]),
    Make(Op::Sig, [57, 61, 0, 0]),
    Make(Op::Pi, [35, 62, 0, 0]),
    Make(Op::Sig, [55, 63, 0, 0]),
    // 65: G.{p} >> z : equiv V A
    Conclude(Equality(TmConv), [18, 27, 54, 64, 0, 0, 0, 0, 0, 0], [7, 24, 0, 0, 0, 0, 0]),
    // 66: G.{q} >> z : equiv V A
    Conclude(Instances(TmSub), [14, 11, 18, 27, 64, 0, 0, 0, 0, 0], [16, 65, 0, 0, 0, 0, 0]),
    // 67: G >> unglue q V z c : A
    Conclude(Gluing(Unglue), [9, 19, 12, 23, 27, 29, 0, 0, 0, 0], [0, 33, 66, 32, 0, 0, 0]),
};
