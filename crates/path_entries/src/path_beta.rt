//! Written by tools/write_entries.py.

use recipes::Row::{Conclude, Instance, Make, Part, Premise, Push, Shift, WithName};
use recipes::{Row, table};
use theory::ContextRule::{SubForm, SubId};
use theory::EqualityRule::TmEqRefl;
use theory::InstanceRule::{TmSub, TySub};
use theory::Op;
use theory::PathRule::{PApp, PLam};
use theory::RuleName::{Contexts, Equality, Instances, Paths};

/// `Type` of what path.beta concludes. Its parts are G A b r.
pub static PATH_BETA_TYPE: &[Row] = table! {
    // 0: G.I >> A
    Premise(0),
    // 1: ctx G
    Premise(1),
    Part(0),
    // 3: id : G to G
    Conclude(Contexts(SubId), [2, 0, 0, 0, 0, 0, 0, 0, 0, 0], [1, 0, 0, 0, 0, 0, 0]),
    Shift(0),
    Part(3),
    // 6: push id r : G to G.I
    Conclude(Contexts(SubForm), [2, 4, 2, 5, 0, 0, 0, 0, 0, 0], [3, 0, 0, 0, 0, 0, 0]),
    Push(4, 5),
    WithName(2),
    Part(1),
    // 10: G >> A{r}
    Conclude(Instances(TySub), [2, 7, 8, 9, 0, 0, 0, 0, 0, 0], [6, 0, 0, 0, 0, 0, 0]),
};

/// `Left` of what path.beta concludes. Its parts are G A b r.
pub static PATH_BETA_LEFT: &[Row] = table! {
    // 0: G.I >> b : A
    Premise(0),
    // 1: ctx G
    Premise(1),
    Part(0),
    // 3: id : G to G
    Conclude(Contexts(SubId), [2, 0, 0, 0, 0, 0, 0, 0, 0, 0], [1, 0, 0, 0, 0, 0, 0]),
    Shift(0),
    Make(Op::I0, [0, 0, 0, 0]),
    // 6: push id i0 : G to G.I
    Conclude(Contexts(SubForm), [2, 4, 2, 5, 0, 0, 0, 0, 0, 0], [3, 0, 0, 0, 0, 0, 0]),
    Push(4, 5),
    WithName(2),
    Part(2),
    Part(1),
    // 11: G >> b{0} : A{0}
    Conclude(Instances(TmSub), [2, 7, 8, 9, 10, 0, 0, 0, 0, 0], [6, 0, 0, 0, 0, 0, 0]),
    Instance(9, 7),
    Instance(10, 7),
    // 14: G >> b{0} = b{0} : A{0}
    Conclude(Equality(TmEqRefl), [2, 12, 13, 0, 0, 0, 0, 0, 0, 0], [11, 0, 0, 0, 0, 0, 0]),
    Make(Op::I1, [0, 0, 0, 0]),
    // 16: push id i1 : G to G.I
    Conclude(Contexts(SubForm), [2, 4, 2, 15, 0, 0, 0, 0, 0, 0], [3, 0, 0, 0, 0, 0, 0]),
    Push(4, 15),
    // 18: G >> b{1} : A{1}
    Conclude(Instances(TmSub), [2, 17, 8, 9, 10, 0, 0, 0, 0, 0], [16, 0, 0, 0, 0, 0, 0]),
    Instance(9, 17),
    Instance(10, 17),
    // 21: G >> b{1} = b{1} : A{1}
    Conclude(Equality(TmEqRefl), [2, 19, 20, 0, 0, 0, 0, 0, 0, 0], [18, 0, 0, 0, 0, 0, 0]),
    // 22: G >> plam b : pathp A b{0} b{1}
    Conclude(Paths(PLam), [2, 10, 9, 12, 19, 0, 0, 0, 0, 0], [0, 14, 21, 0, 0, 0, 0]),
    Make(Op::PLam, [9, 0, 0, 0]),
    Part(3),
    // 25: G >> papp (plam b) r : A{r}
    Conclude(Paths(PApp), [2, 23, 24, 10, 12, 19, 0, 0, 0, 0], [22, 0, 0, 0, 0, 0, 0]),
};

/// `Right` of what path.beta concludes. Its parts are G A b r.
pub static PATH_BETA_RIGHT: &[Row] = table! {
    // 0: G.I >> b : A
    Premise(0),
    // 1: ctx G
    Premise(1),
    Part(0),
    // 3: id : G to G
    Conclude(Contexts(SubId), [2, 0, 0, 0, 0, 0, 0, 0, 0, 0], [1, 0, 0, 0, 0, 0, 0]),
    Shift(0),
    Part(3),
    // 6: push id r : G to G.I
    Conclude(Contexts(SubForm), [2, 4, 2, 5, 0, 0, 0, 0, 0, 0], [3, 0, 0, 0, 0, 0, 0]),
    Push(4, 5),
    WithName(2),
    Part(2),
    Part(1),
    // 11: G >> b{r} : A{r}
    Conclude(Instances(TmSub), [2, 7, 8, 9, 10, 0, 0, 0, 0, 0], [6, 0, 0, 0, 0, 0, 0]),
};
