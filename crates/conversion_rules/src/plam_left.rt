//! Written by tools/write_recipes.py.

use recipes::Row::{Conclude, Field, Instance, Make, Premise, Push, Shift, Var, WithName};
use recipes::{Row, table};
use theory::ContextRule::{SubForm, SubId, SubWkName};
use theory::EqualityRule::TmEqTrans;
use theory::InstanceRule::TmSub;
use theory::Op;
use theory::PathRule::{PLam, PathBeta, PathEta};
use theory::RuleName::{Contexts, Equality, Instances, Paths};

/// A path that agrees at a name with the body of one equals that.
/// Its parts are H A b u v g.
pub static PLAM_LEFT: &[Row] = table! {
    // 0: ctx H
    Premise(0),
    // 1: H.I >> b : A
    Premise(1),
    // 2: H >> b{i0} = u : A{i0}
    Premise(2),
    // 3: H >> b{i1} = v : A{i1}
    Premise(3),
    // 4: H >> g : pathp A u v
    Premise(4),
    // 5: H.I >> b = papp g+ j : A
    Premise(5),
    Field(0, 0),
    // 7: id : H to H
    Conclude(Contexts(SubId), [6, 0, 0, 0, 0, 0, 0, 0, 0, 0], [0, 0, 0, 0, 0, 0, 0]),
    Shift(0),
    // 9: up : H.I to H
    Conclude(Contexts(SubWkName), [6, 8, 6, 0, 0, 0, 0, 0, 0, 0], [7, 0, 0, 0, 0, 0, 0]),
    WithName(6),
    Shift(1),
    // 12: shift 2 : H.I.I to H
    Conclude(Contexts(SubWkName), [10, 11, 6, 0, 0, 0, 0, 0, 0, 0], [9, 0, 0, 0, 0, 0, 0]),
    WithName(10),
    Shift(2),
    Var(0),
    // 16: aside : H.I.I to H.I
    Conclude(Contexts(SubForm), [13, 14, 6, 15, 0, 0, 0, 0, 0, 0], [12, 0, 0, 0, 0, 0, 0]),
    Push(14, 15),
    Field(1, 1),
    Field(1, 2),
    // 20: H.I.I >> b[aside] : A[aside]
    Conclude(Instances(TmSub), [13, 17, 10, 18, 19, 0, 0, 0, 0, 0], [16, 1, 0, 0, 0, 0, 0]),
    Instance(19, 17),
    Instance(18, 17),
    // 23: H.I >> papp (plam b[aside]) j = b : A
    Conclude(Paths(PathBeta), [10, 21, 22, 15, 0, 0, 0, 0, 0, 0], [20, 0, 0, 0, 0, 0, 0]),
    Make(Op::PLam, [22, 0, 0, 0]),
    Make(Op::PApp, [24, 15, 0, 0]),
    Field(4, 1),
    Instance(26, 11),
    Make(Op::PApp, [27, 15, 0, 0]),
    // 29: H.I >> papp (plam b[aside]) j = papp g+ j : A
    Conclude(Equality(TmEqTrans), [10, 25, 18, 28, 19, 0, 0, 0, 0, 0], [23, 5, 0, 0, 0, 0, 0]),
    Field(2, 2),
    Field(3, 2),
    // 32: H >> plam b : pathp A u v
    Conclude(Paths(PLam), [6, 19, 18, 30, 31, 0, 0, 0, 0, 0], [1, 2, 3, 0, 0, 0, 0]),
    Make(Op::PLam, [18, 0, 0, 0]),
    // 34: H >> plam b = g : pathp A u v
    Conclude(Paths(PathEta), [6, 33, 26, 19, 30, 31, 0, 0, 0, 0], [32, 4, 29, 0, 0, 0, 0]),
};

/// The rows of what it gives: equal.
pub static PLAM_LEFT_GIVES: &[u16] = &[34];
