//! Written by tools/write_entries.py.

use recipes::Row::{Conclude, Instance, Make, Part, Premise, Push, Shift, Var, WithVar};
use recipes::{Row, table};
use theory::ContextRule::{SubId, SubVar, SubWk};
use theory::EqualityRule::{TmConv, TyEqSym};
use theory::InstanceRule::{TmEqSub, TmSub, TmVar};
use theory::Op;
use theory::RuleName::{Contexts, Equality, Instances, Sigma, Universe};
use theory::SigmaRule::SigU;
use theory::UniverseRule::{TyEqU, TyU, TyUniv};

/// `Type` of what sig.ucong concludes. Its parts are G A C B D.
pub static SIG_UCONG_TYPE: &[Row] = table! {
    // 0: ctx G
    Premise(0),
    Part(0),
    // 2: G >> U
    Conclude(Universe(TyUniv), [1, 0, 0, 0, 0, 0, 0, 0, 0, 0], [0, 0, 0, 0, 0, 0, 0]),
};

/// `Left` of what sig.ucong concludes. Its parts are G A C B D.
pub static SIG_UCONG_LEFT: &[Row] = table! {
    // 0: G >> A : U
    Premise(0),
    // 1: G.A >> B : U
    Premise(1),
    Part(0),
    Part(1),
    Part(3),
    // 5: G >> sig A B : U
    Conclude(Sigma(SigU), [2, 3, 4, 0, 0, 0, 0, 0, 0, 0], [0, 1, 0, 0, 0, 0, 0]),
};

/// `Right` of what sig.ucong concludes. Its parts are G A C B D.
pub static SIG_UCONG_RIGHT: &[Row] = table! {
    // 0: G >> A = C : U
    Premise(0),
    // 1: ctx G
    Premise(1),
    // 2: G >> C : U
    Premise(2),
    // 3: G.A >> D : U
    Premise(3),
    // 4: G >> A
    Premise(4),
    Part(0),
    // 6: id : G to G
    Conclude(Contexts(SubId), [5, 0, 0, 0, 0, 0, 0, 0, 0, 0], [1, 0, 0, 0, 0, 0, 0]),
    Part(2),
    // 8: G >> C
    Conclude(Universe(TyU), [5, 7, 0, 0, 0, 0, 0, 0, 0, 0], [2, 0, 0, 0, 0, 0, 0]),
    Shift(0),
    // 10: up : G.C to G
    Conclude(Contexts(SubWk), [5, 9, 5, 7, 0, 0, 0, 0, 0, 0], [6, 8, 0, 0, 0, 0, 0]),
    // 11: G.C >> var 0 : C+
    Conclude(Instances(TmVar), [5, 7, 0, 0, 0, 0, 0, 0, 0, 0], [8, 0, 0, 0, 0, 0, 0]),
    WithVar(5, 7),
    Shift(1),
    Part(1),
    Make(Op::U, [0, 0, 0, 0]),
    // 16: G.C >> A+ = C+ : U
    Conclude(Instances(TmEqSub), [12, 13, 5, 14, 7, 15, 0, 0, 0, 0], [10, 0, 0, 0, 0, 0, 0]),
    Instance(14, 13),
    Instance(7, 13),
    // 19: G.C >> A+ = C+
    Conclude(Universe(TyEqU), [12, 17, 18, 0, 0, 0, 0, 0, 0, 0], [16, 0, 0, 0, 0, 0, 0]),
    // 20: G.C >> C+ = A+
    Conclude(Equality(TyEqSym), [12, 17, 18, 0, 0, 0, 0, 0, 0, 0], [19, 0, 0, 0, 0, 0, 0]),
    Var(0),
    // 22: G.C >> var 0 : A+
    Conclude(Equality(TmConv), [12, 21, 18, 17, 0, 0, 0, 0, 0, 0], [11, 20, 0, 0, 0, 0, 0]),
    // 23: push up (var 0) : G.C to G.A
    Conclude(Contexts(SubVar), [12, 13, 5, 14, 21, 0, 0, 0, 0, 0], [10, 4, 22, 0, 0, 0, 0]),
    Push(13, 21),
    WithVar(5, 14),
    Part(4),
    // 27: G.C >> D : U
    Conclude(Instances(TmSub), [12, 24, 25, 26, 15, 0, 0, 0, 0, 0], [23, 3, 0, 0, 0, 0, 0]),
    // 28: G >> sig C D : U
    Conclude(Sigma(SigU), [5, 7, 26, 0, 0, 0, 0, 0, 0, 0], [2, 27, 0, 0, 0, 0, 0]),
};
