//! Written by tools/write_recipes.py.

use recipes::Row::{Conclude, Instance, Make, Part, Premise, Push, Shift, Var, WithName};
use recipes::{Row, table};
use theory::ContextRule::{SubForm, SubId, SubWkName};
use theory::EqualityRule::{TmEqSym, TmEqTrans};
use theory::InstanceRule::TmSub;
use theory::Op;
use theory::PathRule::{PLam, PathBeta, PathEta};
use theory::RuleName::{Contexts, Equality, Instances, Paths};

/// Paths that agree under the name, with ends that are the same, are equal.
/// Its parts are G A b c u v.
pub static PLAM_CONG: &[Row] = table! {
    // 0: ctx G
    Premise(0),
    // 1: G.I >> b : A
    Premise(2),
    // 2: G.I >> c : A
    Premise(3),
    // 3: G.I >> b = c : A
    Premise(4),
    // 4: G >> b{i0} = u : A{i0}
    Premise(7),
    // 5: G >> b{i1} = v : A{i1}
    Premise(8),
    // 6: G >> c{i0} = u : A{i0}
    Premise(9),
    // 7: G >> c{i1} = v : A{i1}
    Premise(10),
    Part(0),
    // 9: id : G to G
    Conclude(Contexts(SubId), [8, 0, 0, 0, 0, 0, 0, 0, 0, 0], [0, 0, 0, 0, 0, 0, 0]),
    Shift(0),
    // 11: up : G.I to G
    Conclude(Contexts(SubWkName), [8, 10, 8, 0, 0, 0, 0, 0, 0, 0], [9, 0, 0, 0, 0, 0, 0]),
    WithName(8),
    Shift(1),
    // 14: shift 2 : G.I.I to G
    Conclude(Contexts(SubWkName), [12, 13, 8, 0, 0, 0, 0, 0, 0, 0], [11, 0, 0, 0, 0, 0, 0]),
    WithName(12),
    Shift(2),
    Var(0),
    // 18: aside : G.I.I to G.I
    Conclude(Contexts(SubForm), [15, 16, 8, 17, 0, 0, 0, 0, 0, 0], [14, 0, 0, 0, 0, 0, 0]),
    Push(16, 17),
    Part(2),
    Part(1),
    // 22: G.I.I >> b_j : A[aside]
    Conclude(Instances(TmSub), [15, 19, 12, 20, 21, 0, 0, 0, 0, 0], [18, 1, 0, 0, 0, 0, 0]),
    Instance(21, 19),
    Instance(20, 19),
    // 25: G.I >> papp (plam b_j) j = b : A
    Conclude(Paths(PathBeta), [12, 23, 24, 17, 0, 0, 0, 0, 0, 0], [22, 0, 0, 0, 0, 0, 0]),
    Part(3),
    // 27: G.I.I >> c_j : A[aside]
    Conclude(Instances(TmSub), [15, 19, 12, 26, 21, 0, 0, 0, 0, 0], [18, 2, 0, 0, 0, 0, 0]),
    Instance(26, 19),
    // 29: G.I >> papp (plam c_j) j = c : A
    Conclude(Paths(PathBeta), [12, 23, 28, 17, 0, 0, 0, 0, 0, 0], [27, 0, 0, 0, 0, 0, 0]),
    Make(Op::PLam, [28, 0, 0, 0]),
    Make(Op::PApp, [30, 17, 0, 0]),
    // 32: G.I >> c = papp (plam c_j) j : A
    Conclude(Equality(TmEqSym), [12, 31, 26, 21, 0, 0, 0, 0, 0, 0], [29, 0, 0, 0, 0, 0, 0]),
    // 33: G.I >> b = papp (plam c_j) j : A
    Conclude(Equality(TmEqTrans), [12, 20, 26, 31, 21, 0, 0, 0, 0, 0], [3, 32, 0, 0, 0, 0, 0]),
    Make(Op::PLam, [24, 0, 0, 0]),
    Make(Op::PApp, [34, 17, 0, 0]),
    // 36: G.I >> papp (plam b_j) j = papp (plam c_j) j : A
    Conclude(Equality(TmEqTrans), [12, 35, 20, 31, 21, 0, 0, 0, 0, 0], [25, 33, 0, 0, 0, 0, 0]),
    Part(4),
    Part(5),
    // 39: G >> plam b : pathp A u v
    Conclude(Paths(PLam), [8, 21, 20, 37, 38, 0, 0, 0, 0, 0], [1, 4, 5, 0, 0, 0, 0]),
    // 40: G >> plam c : pathp A u v
    Conclude(Paths(PLam), [8, 21, 26, 37, 38, 0, 0, 0, 0, 0], [2, 6, 7, 0, 0, 0, 0]),
    Make(Op::PLam, [20, 0, 0, 0]),
    Make(Op::PLam, [26, 0, 0, 0]),
    // 43: G >> plam b = plam c : pathp A u v
    Conclude(Paths(PathEta), [8, 41, 42, 21, 37, 38, 0, 0, 0, 0], [39, 40, 36, 0, 0, 0, 0]),
};

/// The rows of what it gives: equal.
pub static PLAM_CONG_GIVES: &[u16] = &[43];
