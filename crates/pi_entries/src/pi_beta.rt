//! Written by tools/write_entries.py.

use recipes::Row::{Conclude, Make, Part, Premise, Push, Shift, WithVar};
use recipes::{Row, table};
use theory::ContextRule::{SubId, SubVar};
use theory::InstanceRule::{TmSub, TySub};
use theory::Op;
use theory::PiRule::{App, Lam};
use theory::RuleName::{Contexts, Instances, Pi};

/// `Type` of what pi.beta concludes. Its parts are G A b a B.
pub static PI_BETA_TYPE: &[Row] = table! {
    // 0: G >> a : A
    Premise(0),
    // 1: G.A >> B
    Premise(1),
    // 2: ctx G
    Premise(2),
    // 3: G >> A
    Premise(3),
    Part(0),
    // 5: id : G to G
    Conclude(Contexts(SubId), [4, 0, 0, 0, 0, 0, 0, 0, 0, 0], [2, 0, 0, 0, 0, 0, 0]),
    Shift(0),
    Part(1),
    Part(3),
    // 9: push id a : G to G.A
    Conclude(Contexts(SubVar), [4, 6, 4, 7, 8, 0, 0, 0, 0, 0], [5, 3, 0, 0, 0, 0, 0]),
    Push(6, 8),
    WithVar(4, 7),
    Part(4),
    // 13: G >> B{a}
    Conclude(Instances(TySub), [4, 10, 11, 12, 0, 0, 0, 0, 0, 0], [9, 1, 0, 0, 0, 0, 0]),
};

/// `Left` of what pi.beta concludes. Its parts are G A b a B.
pub static PI_BETA_LEFT: &[Row] = table! {
    // 0: G.A >> b : B
    Premise(0),
    // 1: G >> a : A
    Premise(1),
    // 2: G >> A
    Premise(2),
    Part(0),
    Part(1),
    Part(2),
    Part(4),
    // 7: G >> lam A b : pi A B
    Conclude(Pi(Lam), [3, 4, 5, 6, 0, 0, 0, 0, 0, 0], [2, 0, 0, 0, 0, 0, 0]),
    Make(Op::Lam, [4, 5, 0, 0]),
    Part(3),
    // 10: G >> app (lam A b) a : B{a}
    Conclude(Pi(App), [3, 8, 9, 4, 6, 0, 0, 0, 0, 0], [7, 1, 0, 0, 0, 0, 0]),
};

/// `Right` of what pi.beta concludes. Its parts are G A b a B.
pub static PI_BETA_RIGHT: &[Row] = table! {
    // 0: G.A >> b : B
    Premise(0),
    // 1: G >> a : A
    Premise(1),
    // 2: ctx G
    Premise(2),
    // 3: G >> A
    Premise(3),
    Part(0),
    // 5: id : G to G
    Conclude(Contexts(SubId), [4, 0, 0, 0, 0, 0, 0, 0, 0, 0], [2, 0, 0, 0, 0, 0, 0]),
    Shift(0),
    Part(1),
    Part(3),
    // 9: push id a : G to G.A
    Conclude(Contexts(SubVar), [4, 6, 4, 7, 8, 0, 0, 0, 0, 0], [5, 3, 1, 0, 0, 0, 0]),
    Push(6, 8),
    WithVar(4, 7),
    Part(2),
    Part(4),
    // 14: G >> b{a} : B{a}
    Conclude(Instances(TmSub), [4, 10, 11, 12, 13, 0, 0, 0, 0, 0], [9, 0, 0, 0, 0, 0, 0]),
};
