//! Written by tools/write_entries.py.

use recipes::Row::{Conclude, Instance, Make, Part, Premise, Push, Shift, WithName};
use recipes::{Row, table};
use theory::ContextRule::{SubForm, SubId};
use theory::EqualityRule::TmConv;
use theory::InstanceRule::TyEqSub;
use theory::Op;
use theory::PathRule::PathU;
use theory::RuleName::{Contexts, Equality, Instances, Paths, Universe};
use theory::UniverseRule::{TyEqU, TyUniv};

/// `Type` of what path.ucong concludes. Its parts are G A B u x v y.
pub static PATH_UCONG_TYPE: &[Row] = table! {
    // 0: ctx G
    Premise(0),
    Part(0),
    // 2: G >> U
    Conclude(Universe(TyUniv), [1, 0, 0, 0, 0, 0, 0, 0, 0, 0], [0, 0, 0, 0, 0, 0, 0]),
};

/// `Left` of what path.ucong concludes. Its parts are G A B u x v y.
pub static PATH_UCONG_LEFT: &[Row] = table! {
    // 0: G.I >> A : U
    Premise(0),
    // 1: G >> u : A{0}
    Premise(1),
    // 2: G >> v : A{1}
    Premise(2),
    Part(0),
    Part(1),
    Part(3),
    Part(5),
    // 7: G >> pathp A u v : U
    Conclude(Paths(PathU), [3, 4, 5, 6, 0, 0, 0, 0, 0, 0], [0, 1, 2, 0, 0, 0, 0]),
};

/// `Right` of what path.ucong concludes. Its parts are G A B u x v y.
pub static PATH_UCONG_RIGHT: &[Row] = table! {
    // 0: G.I >> A = B : U
    Premise(0),
    // 1: G.I >> B : U
    Premise(1),
    // 2: ctx G
    Premise(2),
    // 3: G >> x : A{0}
    Premise(3),
    // 4: G >> y : A{1}
    Premise(4),
    Part(0),
    WithName(5),
    Part(1),
    Part(2),
    // 9: G.I >> A = B
    Conclude(Universe(TyEqU), [6, 7, 8, 0, 0, 0, 0, 0, 0, 0], [0, 0, 0, 0, 0, 0, 0]),
    // 10: id : G to G
    Conclude(Contexts(SubId), [5, 0, 0, 0, 0, 0, 0, 0, 0, 0], [2, 0, 0, 0, 0, 0, 0]),
    Shift(0),
    Make(Op::I0, [0, 0, 0, 0]),
    // 13: push id i0 : G to G.I
    Conclude(Contexts(SubForm), [5, 11, 5, 12, 0, 0, 0, 0, 0, 0], [10, 0, 0, 0, 0, 0, 0]),
    Push(11, 12),
    // 15: G >> A{0} = B{0}
    Conclude(Instances(TyEqSub), [5, 14, 6, 7, 8, 0, 0, 0, 0, 0], [13, 9, 0, 0, 0, 0, 0]),
    Part(4),
    Instance(7, 14),
    Instance(8, 14),
    // 19: G >> x : B{0}
    Conclude(Equality(TmConv), [5, 16, 17, 18, 0, 0, 0, 0, 0, 0], [3, 15, 0, 0, 0, 0, 0]),
    Make(Op::I1, [0, 0, 0, 0]),
    // 21: push id i1 : G to G.I
    Conclude(Contexts(SubForm), [5, 11, 5, 20, 0, 0, 0, 0, 0, 0], [10, 0, 0, 0, 0, 0, 0]),
    Push(11, 20),
    // 23: G >> A{1} = B{1}
    Conclude(Instances(TyEqSub), [5, 22, 6, 7, 8, 0, 0, 0, 0, 0], [21, 9, 0, 0, 0, 0, 0]),
    Part(6),
    Instance(7, 22),
    Instance(8, 22),
    // 27: G >> y : B{1}
    Conclude(Equality(TmConv), [5, 24, 25, 26, 0, 0, 0, 0, 0, 0], [4, 23, 0, 0, 0, 0, 0]),
    // 28: G >> pathp B x y : U
    Conclude(Paths(PathU), [5, 8, 16, 24, 0, 0, 0, 0, 0, 0], [1, 19, 27, 0, 0, 0, 0]),
};
