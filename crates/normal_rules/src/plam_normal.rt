//! Written by tools/write_recipes.py.

use recipes::Row::{Conclude, Field, Instance, Make, Premise, Push, Shift, Var, WithName};
use recipes::{Row, table};
use theory::ContextRule::{SubForm, SubId, SubWkName};
use theory::EqualityRule::{TmEqSym, TmEqTrans};
use theory::InstanceRule::{TmEqSub, TmSub};
use theory::Op;
use theory::PathRule::{PLam, PathBeta, PathEta};
use theory::RuleName::{Contexts, Equality, Instances, Paths};

/// A path whose body is in normal form.
/// Its parts are H A b u v c.
pub static PLAM_NORMAL: &[Row] = table! {
    // 0: ctx H
    Premise(0),
    // 1: H.I >> b : A
    Premise(1),
    // 2: H >> b{i0} = u : A{i0}
    Premise(2),
    // 3: H >> b{i1} = v : A{i1}
    Premise(3),
    // 4: H.I >> b = c : A
    Premise(4),
    // 5: H.I >> c : A
    Premise(5),
    Field(0, 0),
    // 7: id : H to H
    Conclude(Contexts(SubId), [6, 0, 0, 0, 0, 0, 0, 0, 0, 0], [0, 0, 0, 0, 0, 0, 0]),
    Shift(0),
    // 9: up : H.I to H
    Conclude(Contexts(SubWkName), [6, 8, 6, 0, 0, 0, 0, 0, 0, 0], [7, 0, 0, 0, 0, 0, 0]),
    WithName(6),
    Shift(1),
    // 12: shift 2 : H.I.I to H
    Conclude(Contexts(SubWkName), [10, 11, 6, 0, 0, 0, 0, 0, 0, 0], [9, 0, 0, 0, 0, 0, 0]),
    WithName(10),
    Shift(2),
    Var(0),
    // 16: aside : H.I.I to H.I
    Conclude(Contexts(SubForm), [13, 14, 6, 15, 0, 0, 0, 0, 0, 0], [12, 0, 0, 0, 0, 0, 0]),
    Push(14, 15),
    Field(1, 1),
    Field(1, 2),
    // 20: H.I.I >> b_j : A[aside]
    Conclude(Instances(TmSub), [13, 17, 10, 18, 19, 0, 0, 0, 0, 0], [16, 1, 0, 0, 0, 0, 0]),
    Instance(19, 17),
    Instance(18, 17),
    // 23: H.I >> papp (plam b_j) j = b : A
    Conclude(Paths(PathBeta), [10, 21, 22, 15, 0, 0, 0, 0, 0, 0], [20, 0, 0, 0, 0, 0, 0]),
    Field(4, 2),
    // 25: H.I.I >> c_j : A[aside]
    Conclude(Instances(TmSub), [13, 17, 10, 24, 19, 0, 0, 0, 0, 0], [16, 5, 0, 0, 0, 0, 0]),
    Instance(24, 17),
    // 27: H.I >> papp (plam c_j) j = c : A
    Conclude(Paths(PathBeta), [10, 21, 26, 15, 0, 0, 0, 0, 0, 0], [25, 0, 0, 0, 0, 0, 0]),
    Make(Op::PLam, [26, 0, 0, 0]),
    Make(Op::PApp, [28, 15, 0, 0]),
    // 30: H.I >> c = papp (plam c_j) j : A
    Conclude(Equality(TmEqSym), [10, 29, 24, 19, 0, 0, 0, 0, 0, 0], [27, 0, 0, 0, 0, 0, 0]),
    // 31: H.I >> b = papp (plam c_j) j : A
    Conclude(Equality(TmEqTrans), [10, 18, 24, 29, 19, 0, 0, 0, 0, 0], [4, 30, 0, 0, 0, 0, 0]),
    Make(Op::PLam, [22, 0, 0, 0]),
    Make(Op::PApp, [32, 15, 0, 0]),
    // 34: H.I >> papp (plam b_j) j = papp (plam c_j) j : A
    Conclude(Equality(TmEqTrans), [10, 33, 18, 29, 19, 0, 0, 0, 0, 0], [23, 31, 0, 0, 0, 0, 0]),
    Field(2, 2),
    Field(3, 2),
    // 37: H >> plam b : pathp A u v
    Conclude(Paths(PLam), [6, 19, 18, 35, 36, 0, 0, 0, 0, 0], [1, 2, 3, 0, 0, 0, 0]),
    Make(Op::I0, [0, 0, 0, 0]),
    // 39: push id i0 : H to H.I
    Conclude(Contexts(SubForm), [6, 8, 6, 38, 0, 0, 0, 0, 0, 0], [7, 0, 0, 0, 0, 0, 0]),
    Make(Op::I1, [0, 0, 0, 0]),
    // 41: push id i1 : H to H.I
    Conclude(Contexts(SubForm), [6, 8, 6, 40, 0, 0, 0, 0, 0, 0], [7, 0, 0, 0, 0, 0, 0]),
    // 42: H.I >> c = b : A
    Conclude(Equality(TmEqSym), [10, 18, 24, 19, 0, 0, 0, 0, 0, 0], [4, 0, 0, 0, 0, 0, 0]),
    Push(8, 38),
    // 44: H >> c{i0} = b{i0} : A{i0}
    Conclude(Instances(TmEqSub), [6, 43, 10, 24, 18, 19, 0, 0, 0, 0], [39, 42, 0, 0, 0, 0, 0]),
    Push(8, 40),
    // 46: H >> c{i1} = b{i1} : A{i1}
    Conclude(Instances(TmEqSub), [6, 45, 10, 24, 18, 19, 0, 0, 0, 0], [41, 42, 0, 0, 0, 0, 0]),
    Instance(24, 43),
    Instance(18, 43),
    Instance(19, 43),
    // 50: H >> c{i0} = u : A{i0}
    Conclude(Equality(TmEqTrans), [6, 47, 48, 35, 49, 0, 0, 0, 0, 0], [44, 2, 0, 0, 0, 0, 0]),
    Instance(24, 45),
    Instance(18, 45),
    Instance(19, 45),
    // 54: H >> c{i1} = v : A{i1}
    Conclude(Equality(TmEqTrans), [6, 51, 52, 36, 53, 0, 0, 0, 0, 0], [46, 3, 0, 0, 0, 0, 0]),
    // 55: H >> plam c : pathp A u v
    Conclude(Paths(PLam), [6, 19, 24, 35, 36, 0, 0, 0, 0, 0], [5, 50, 54, 0, 0, 0, 0]),
    Make(Op::PLam, [18, 0, 0, 0]),
    Make(Op::PLam, [24, 0, 0, 0]),
    // 58: H >> plam b = plam c : pathp A u v
    Conclude(Paths(PathEta), [6, 56, 57, 19, 35, 36, 0, 0, 0, 0], [37, 55, 34, 0, 0, 0, 0]),
};

/// The rows of what it gives: equal, term.
pub static PLAM_NORMAL_GIVES: &[u16] = &[58, 55];
