//! Written by tools/write_entries.py.

use recipes::Row::{Conclude, Instance, Make, Part, Premise, Push, Shift, WithName};
use recipes::{Row, table};
use theory::ContextRule::{SubForm, SubId};
use theory::EqualityRule::TmConv;
use theory::InstanceRule::TyEqSub;
use theory::Op;
use theory::PathRule::PathTy;
use theory::RuleName::{Contexts, Equality, Instances, Paths};

/// `Left` of what path.tycong concludes. Its parts are G A B u x v y.
pub static PATH_TYCONG_LEFT: &[Row] = table! {
    // 0: G.I >> A
    Premise(0),
    // 1: G >> u : A{0}
    Premise(1),
    // 2: G >> v : A{1}
    Premise(2),
    Part(0),
    Part(1),
    Part(3),
    Part(5),
    // 7: G >> pathp A u v
    Conclude(Paths(PathTy), [3, 4, 5, 6, 0, 0, 0, 0, 0, 0], [0, 1, 2, 0, 0, 0, 0]),
};

/// `Right` of what path.tycong concludes. Its parts are G A B u x v y.
pub static PATH_TYCONG_RIGHT: &[Row] = table! {
    // 0: G.I >> A = B
    Premise(0),
    // 1: G.I >> B
    Premise(1),
    // 2: ctx G
    Premise(2),
    // 3: G >> x : A{0}
    Premise(3),
    // 4: G >> y : A{1}
    Premise(4),
    Part(0),
    // 6: id : G to G
    Conclude(Contexts(SubId), [5, 0, 0, 0, 0, 0, 0, 0, 0, 0], [2, 0, 0, 0, 0, 0, 0]),
    Shift(0),
    Make(Op::I0, [0, 0, 0, 0]),
    // 9: push id i0 : G to G.I
    Conclude(Contexts(SubForm), [5, 7, 5, 8, 0, 0, 0, 0, 0, 0], [6, 0, 0, 0, 0, 0, 0]),
    Push(7, 8),
    WithName(5),
    Part(1),
    Part(2),
    // 14: G >> A{0} = B{0}
    Conclude(Instances(TyEqSub), [5, 10, 11, 12, 13, 0, 0, 0, 0, 0], [9, 0, 0, 0, 0, 0, 0]),
    Part(4),
    Instance(12, 10),
    Instance(13, 10),
    // 18: G >> x : B{0}
    Conclude(Equality(TmConv), [5, 15, 16, 17, 0, 0, 0, 0, 0, 0], [3, 14, 0, 0, 0, 0, 0]),
    Make(Op::I1, [0, 0, 0, 0]),
    // 20: push id i1 : G to G.I
    Conclude(Contexts(SubForm), [5, 7, 5, 19, 0, 0, 0, 0, 0, 0], [6, 0, 0, 0, 0, 0, 0]),
    Push(7, 19),
    // 22: G >> A{1} = B{1}
    Conclude(Instances(TyEqSub), [5, 21, 11, 12, 13, 0, 0, 0, 0, 0], [20, 0, 0, 0, 0, 0, 0]),
    Part(6),
    Instance(12, 21),
    Instance(13, 21),
    // 26: G >> y : B{1}
    Conclude(Equality(TmConv), [5, 23, 24, 25, 0, 0, 0, 0, 0, 0], [4, 22, 0, 0, 0, 0, 0]),
    // 27: G >> pathp B x y
    Conclude(Paths(PathTy), [5, 13, 15, 23, 0, 0, 0, 0, 0, 0], [1, 18, 26, 0, 0, 0, 0]),
};
