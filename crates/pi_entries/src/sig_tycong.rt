//! Written by tools/write_entries.py.

use recipes::Row::{Conclude, Instance, Part, Premise, Push, Shift, Var, WithVar};
use recipes::{Row, table};
use theory::ContextRule::{SubId, SubVar, SubWk};
use theory::EqualityRule::{TmConv, TyEqSym};
use theory::InstanceRule::{TmVar, TyEqSub, TySub};
use theory::RuleName::{Contexts, Equality, Instances, Sigma};
use theory::SigmaRule::SigTy;

/// `Left` of what sig.tycong concludes. Its parts are G A C B D.
pub static SIG_TYCONG_LEFT: &[Row] = table! {
    // 0: G >> A
    Premise(0),
    // 1: G.A >> B
    Premise(1),
    Part(0),
    Part(1),
    Part(3),
    // 5: G >> sig A B
    Conclude(Sigma(SigTy), [2, 3, 4, 0, 0, 0, 0, 0, 0, 0], [0, 1, 0, 0, 0, 0, 0]),
};

/// `Right` of what sig.tycong concludes. Its parts are G A C B D.
pub static SIG_TYCONG_RIGHT: &[Row] = table! {
    // 0: G >> A = C
    Premise(0),
    // 1: ctx G
    Premise(1),
    // 2: G >> A
    Premise(2),
    // 3: G >> C
    Premise(3),
    // 4: G.A >> D
    Premise(4),
    Part(0),
    // 6: id : G to G
    Conclude(Contexts(SubId), [5, 0, 0, 0, 0, 0, 0, 0, 0, 0], [1, 0, 0, 0, 0, 0, 0]),
    Shift(0),
    Part(2),
    // 9: up : G.C to G
    Conclude(Contexts(SubWk), [5, 7, 5, 8, 0, 0, 0, 0, 0, 0], [6, 3, 0, 0, 0, 0, 0]),
    // 10: G.C >> var 0 : C+
    Conclude(Instances(TmVar), [5, 8, 0, 0, 0, 0, 0, 0, 0, 0], [3, 0, 0, 0, 0, 0, 0]),
    WithVar(5, 8),
    Shift(1),
    Part(1),
    // 14: G.C >> A+ = C+
    Conclude(Instances(TyEqSub), [11, 12, 5, 13, 8, 0, 0, 0, 0, 0], [9, 0, 0, 0, 0, 0, 0]),
    Instance(13, 12),
    Instance(8, 12),
    // 17: G.C >> C+ = A+
    Conclude(Equality(TyEqSym), [11, 15, 16, 0, 0, 0, 0, 0, 0, 0], [14, 0, 0, 0, 0, 0, 0]),
    Var(0),
    // 19: G.C >> var 0 : A+
    Conclude(Equality(TmConv), [11, 18, 16, 15, 0, 0, 0, 0, 0, 0], [10, 17, 0, 0, 0, 0, 0]),
    // 20: push up (var 0) : G.C to G.A
    Conclude(Contexts(SubVar), [11, 12, 5, 13, 18, 0, 0, 0, 0, 0], [9, 2, 19, 0, 0, 0, 0]),
    Push(12, 18),
    WithVar(5, 13),
    Part(4),
    // 24: G.C >> D
    Conclude(Instances(TySub), [11, 21, 22, 23, 0, 0, 0, 0, 0, 0], [20, 4, 0, 0, 0, 0, 0]),
    // 25: G >> sig C D
    Conclude(Sigma(SigTy), [5, 8, 23, 0, 0, 0, 0, 0, 0, 0], [3, 24, 0, 0, 0, 0, 0]),
};
