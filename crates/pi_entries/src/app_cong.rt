//! Written by tools/write_entries.py.

use recipes::Row::{Conclude, Instance, Make, Part, Premise, Push, Shift, WithVar};
use recipes::{Row, table};
use theory::ContextRule::{SubId, SubVar};
use theory::EqualityRule::{TmConv, TmEqSym};
use theory::InstanceRule::{TyCong, TySub};
use theory::Op;
use theory::PiRule::App;
use theory::RuleName::{Contexts, Equality, Instances, Pi};

/// `Type` of what app.cong concludes. Its parts are G f g a b A B.
pub static APP_CONG_TYPE: &[Row] = table! {
    // 0: ctx G
    Premise(0),
    // 1: G >> A
    Premise(1),
    // 2: G >> a : A
    Premise(2),
    // 3: G.A >> B
    Premise(3),
    Part(0),
    // 5: id : G to G
    Conclude(Contexts(SubId), [4, 0, 0, 0, 0, 0, 0, 0, 0, 0], [0, 0, 0, 0, 0, 0, 0]),
    Shift(0),
    Part(5),
    Part(3),
    // 9: push id a : G to G.A
    Conclude(Contexts(SubVar), [4, 6, 4, 7, 8, 0, 0, 0, 0, 0], [5, 1, 2, 0, 0, 0, 0]),
    Push(6, 8),
    WithVar(4, 7),
    Part(6),
    // 13: G >> B{a}
    Conclude(Instances(TySub), [4, 10, 11, 12, 0, 0, 0, 0, 0, 0], [9, 3, 0, 0, 0, 0, 0]),
};

/// `Left` of what app.cong concludes. Its parts are G f g a b A B.
pub static APP_CONG_LEFT: &[Row] = table! {
    // 0: G >> f : pi A B
    Premise(0),
    // 1: G >> a : A
    Premise(1),
    Part(0),
    Part(1),
    Part(3),
    Part(5),
    Part(6),
    // 7: G >> app f a : B{a}
    Conclude(Pi(App), [2, 3, 4, 5, 6, 0, 0, 0, 0, 0], [0, 1, 0, 0, 0, 0, 0]),
};

/// `Right` of what app.cong concludes. Its parts are G f g a b A B.
pub static APP_CONG_RIGHT: &[Row] = table! {
    // 0: G >> a = b : A
    Premise(0),
    // 1: ctx G
    Premise(1),
    // 2: G >> g : pi A B
    Premise(2),
    // 3: G >> b : A
    Premise(3),
    // 4: G.A >> B
    Premise(4),
    Part(0),
    // 6: id : G to G
    Conclude(Contexts(SubId), [5, 0, 0, 0, 0, 0, 0, 0, 0, 0], [1, 0, 0, 0, 0, 0, 0]),
    Part(2),
    Part(4),
    Part(5),
    Part(6),
    // 11: G >> app g b : B{b}
    Conclude(Pi(App), [5, 7, 8, 9, 10, 0, 0, 0, 0, 0], [2, 3, 0, 0, 0, 0, 0]),
    Part(3),
    // 13: G >> b = a : A
    Conclude(Equality(TmEqSym), [5, 12, 8, 9, 0, 0, 0, 0, 0, 0], [0, 0, 0, 0, 0, 0, 0]),
    Shift(0),
    // 15: G >> B{b} = B{a}
    Conclude(Instances(TyCong), [5, 14, 5, 9, 8, 12, 10, 0, 0, 0], [6, 4, 13, 0, 0, 0, 0]),
    Make(Op::App, [7, 8, 0, 0]),
    Push(14, 8),
    Instance(10, 17),
    Push(14, 12),
    Instance(10, 19),
    // 21: G >> app g b : B{a}
    Conclude(Equality(TmConv), [5, 16, 18, 20, 0, 0, 0, 0, 0, 0], [11, 15, 0, 0, 0, 0, 0]),
};
