//! Written by tools/write_recipes.py.

use recipes::Row::{
    Conclude, Field, Instance, Make, Part, Premise, Push, Shift, Then, Var, WithName,
};
use recipes::{Row, table};
use theory::ContextRule::{SubForm, SubWkName};
use theory::EqualityRule::TmEqTrans;
use theory::InstanceRule::TmSub;
use theory::Op;
use theory::PathRule::{PAppCong, PathBeta};
use theory::RuleName::{Contexts, Equality, Instances, Paths};

/// What equals a path under a substitution, at a formula: its body, under the formula.
/// Its parts are r x y H e K b E f.
pub static FIRE_PATH: &[Row] = table! {
    // 0: e : H to K
    Premise(0),
    // 1: K.I >> b : E
    Premise(1),
    // 2: H >> f = plam b[over] : pathp E[over] x[e] y[e]
    Premise(2),
    Field(0, 0),
    Field(0, 1),
    Field(0, 2),
    // 6: e then up : H.I to K
    Conclude(Contexts(SubWkName), [3, 4, 5, 0, 0, 0, 0, 0, 0, 0], [0, 0, 0, 0, 0, 0, 0]),
    WithName(3),
    Shift(1),
    Then(4, 8),
    Var(0),
    // 11: over : H.I to K.I
    Conclude(Contexts(SubForm), [7, 9, 5, 10, 0, 0, 0, 0, 0, 0], [6, 0, 0, 0, 0, 0, 0]),
    Push(9, 10),
    WithName(5),
    Field(1, 1),
    Field(1, 2),
    // 16: H.I >> b[over] : E[over]
    Conclude(Instances(TmSub), [7, 12, 13, 14, 15, 0, 0, 0, 0, 0], [11, 1, 0, 0, 0, 0, 0]),
    Field(2, 1),
    Instance(14, 12),
    Make(Op::PLam, [18, 0, 0, 0]),
    Part(0),
    Instance(15, 12),
    Part(1),
    Instance(22, 4),
    Part(2),
    Instance(24, 4),
    // 26: H >> papp f r = papp (plam b[over]) r : E[push e r]
    Conclude(Paths(PAppCong), [3, 17, 19, 20, 21, 23, 25, 0, 0, 0], [2, 0, 0, 0, 0, 0, 0]),
    // 27: H >> papp (plam b[over]) r = b[push e r] : E[push e r]
    Conclude(Paths(PathBeta), [3, 21, 18, 20, 0, 0, 0, 0, 0, 0], [16, 0, 0, 0, 0, 0, 0]),
    Make(Op::PApp, [17, 20, 0, 0]),
    Make(Op::PApp, [19, 20, 0, 0]),
    Push(4, 20),
    Instance(14, 30),
    Instance(15, 30),
    // 33: H >> papp f r = b[push e r] : E[push e r]
    Conclude(Equality(TmEqTrans), [3, 28, 29, 31, 32, 0, 0, 0, 0, 0], [26, 27, 0, 0, 0, 0, 0]),
    // 34: push e r : H to K.I
    Conclude(Contexts(SubForm), [3, 4, 5, 20, 0, 0, 0, 0, 0, 0], [0, 0, 0, 0, 0, 0, 0]),
};

/// The rows of what it gives: equal, pushed.
pub static FIRE_PATH_GIVES: &[u16] = &[33, 34];
