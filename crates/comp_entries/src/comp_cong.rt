//! Written by tools/write_entries.py.

use recipes::Row::{Conclude, Instance, Make, Part, Premise, Push, Shift, Var, WithFace, WithName};
use recipes::{Row, table};
use theory::CompRule::Comp;
use theory::ContextRule::{SubFace, SubForm, SubId, SubWkFace, SubWkName};
use theory::EqualityRule::{TmConv, TmEqConv, TmEqSym, TmEqTrans, TyEqSym};
use theory::InstanceRule::{TmEqSub, TmSub, TyEqSub, TySub};
use theory::Op;
use theory::RuleName::{Composition, Contexts, Equality, Instances};

/// `Type` of what comp.cong concludes. Its parts are G A B p q b c a k.
pub static COMP_CONG_TYPE: &[Row] = table! {
    // 0: G.I >> A
    Premise(0),
    // 1: ctx G
    Premise(1),
    Part(0),
    // 3: id : G to G
    Conclude(Contexts(SubId), [2, 0, 0, 0, 0, 0, 0, 0, 0, 0], [1, 0, 0, 0, 0, 0, 0]),
    Shift(0),
    Make(Op::I1, [0, 0, 0, 0]),
    // 6: push id i1 : G to G.I
    Conclude(Contexts(SubForm), [2, 4, 2, 5, 0, 0, 0, 0, 0, 0], [3, 0, 0, 0, 0, 0, 0]),
    Push(4, 5),
    WithName(2),
    Part(1),
    // 10: G >> A{1}
    Conclude(Instances(TySub), [2, 7, 8, 9, 0, 0, 0, 0, 0, 0], [6, 0, 0, 0, 0, 0, 0]),
};

/// `Left` of what comp.cong concludes. Its parts are G A B p q b c a k.
pub static COMP_CONG_LEFT: &[Row] = table! {
    // 0: G.{p}.I >> b : A
    Premise(0),
    // 1: G >> a : A{0}
    Premise(1),
    // 2: G.{p} >> a = b{0} : A{0}
    Premise(2),
    // 3: G.I >> A
    Premise(3),
    Part(0),
    Part(1),
    Part(3),
    Part(5),
    Part(7),
    // 9: G >> comp A p b a : A{1}
    Conclude(Composition(Comp), [4, 5, 6, 7, 8, 0, 0, 0, 0, 0], [3, 0, 1, 2, 0, 0, 0]),
};

/// `Right` of what comp.cong concludes. Its parts are G A B p q b c a k.
pub static COMP_CONG_RIGHT: &[Row] = table! {
    // 0: G.I >> A = B
    Premise(0),
    // 1: G.{p} >> a = b{0} : A{0}
    Premise(1),
    // 2: G.{p}.I >> b = c : A
    Premise(2),
    // 3: G >> a = k : A{0}
    Premise(3),
    // 4: G.I >> B
    Premise(4),
    // 5: ctx G
    Premise(5),
    // 6: ctx G.{p}
    Premise(6),
    // 7: G.{p}.I >> c : A
    Premise(7),
    // 8: G >> k : A{0}
    Premise(8),
    Part(0),
    // 10: id : G to G
    Conclude(Contexts(SubId), [9, 0, 0, 0, 0, 0, 0, 0, 0, 0], [5, 0, 0, 0, 0, 0, 0]),
    Shift(0),
    Part(4),
    // 13: id : G.{q} to G
    Conclude(Contexts(SubWkFace), [9, 11, 9, 12, 0, 0, 0, 0, 0, 0], [10, 0, 0, 0, 0, 0, 0]),
    WithFace(9, 12),
    Part(3),
    // 16: id : G.{q} to G.{p}
    Conclude(Contexts(SubFace), [14, 11, 9, 15, 0, 0, 0, 0, 0, 0], [13, 0, 0, 0, 0, 0, 0]),
    Make(Op::I0, [0, 0, 0, 0]),
    // 18: push id i0 : G to G.I
    Conclude(Contexts(SubForm), [9, 11, 9, 17, 0, 0, 0, 0, 0, 0], [10, 0, 0, 0, 0, 0, 0]),
    Push(11, 17),
    WithName(9),
    Part(1),
    Part(2),
    // 23: G >> A{0} = B{0}
    Conclude(Instances(TyEqSub), [9, 19, 20, 21, 22, 0, 0, 0, 0, 0], [18, 0, 0, 0, 0, 0, 0]),
    Part(7),
    Part(8),
    Instance(21, 19),
    // 27: G >> k = a : A{0}
    Conclude(Equality(TmEqSym), [9, 24, 25, 26, 0, 0, 0, 0, 0, 0], [3, 0, 0, 0, 0, 0, 0]),
    // 28: id : G.{p} to G
    Conclude(Contexts(SubWkFace), [9, 11, 9, 15, 0, 0, 0, 0, 0, 0], [10, 0, 0, 0, 0, 0, 0]),
    WithFace(9, 15),
    // 30: G.{p} >> k = a : A{0}
    Conclude(Instances(TmEqSub), [29, 11, 9, 25, 24, 26, 0, 0, 0, 0], [28, 27, 0, 0, 0, 0, 0]),
    // 31: id : G.{p} to G.{p}
    Conclude(Contexts(SubId), [29, 0, 0, 0, 0, 0, 0, 0, 0, 0], [6, 0, 0, 0, 0, 0, 0]),
    // 32: push id i0 : G.{p} to G.{p}.I
    Conclude(Contexts(SubForm), [29, 11, 29, 17, 0, 0, 0, 0, 0, 0], [31, 0, 0, 0, 0, 0, 0]),
    WithName(29),
    Part(5),
    Part(6),
    // 36: G.{p} >> b{0} = c{0} : A{0}
    Conclude(Instances(TmEqSub), [29, 19, 33, 34, 35, 21, 0, 0, 0, 0], [32, 2, 0, 0, 0, 0, 0]),
    Instance(34, 19),
    // 38: G.{p} >> k = b{0} : A{0}
    Conclude(Equality(TmEqTrans), [29, 25, 24, 37, 26, 0, 0, 0, 0, 0], [30, 1, 0, 0, 0, 0, 0]),
    Instance(35, 19),
    // 40: G.{p} >> k = c{0} : A{0}
    Conclude(Equality(TmEqTrans), [29, 25, 37, 39, 26, 0, 0, 0, 0, 0], [38, 36, 0, 0, 0, 0, 0]),
    Instance(22, 19),
    // 42: G.{p} >> A{0} = B{0}
    Conclude(Instances(TyEqSub), [29, 11, 9, 26, 41, 0, 0, 0, 0, 0], [28, 23, 0, 0, 0, 0, 0]),
    // 43: G.{p} >> k = c{0} : B{0}
    Conclude(Equality(TmEqConv), [29, 25, 39, 26, 41, 0, 0, 0, 0, 0], [40, 42, 0, 0, 0, 0, 0]),
    // 44: G.{q} >> k = c{0} : B{0}
    Conclude(Instances(TmEqSub), [14, 11, 29, 25, 39, 41, 0, 0, 0, 0], [16, 43, 0, 0, 0, 0, 0]),
    // 45: up : G.{p}.I to G
    Conclude(Contexts(SubWkName), [29, 11, 9, 0, 0, 0, 0, 0, 0, 0], [28, 0, 0, 0, 0, 0, 0]),
    Shift(1),
    Var(0),
    // 48: push up (var 0) : G.{p}.I to G.I
    Conclude(Contexts(SubForm), [33, 46, 9, 47, 0, 0, 0, 0, 0, 0], [45, 0, 0, 0, 0, 0, 0]),
    Push(46, 47),
    // 50: G.{p}.I >> A = B
    Conclude(Instances(TyEqSub), [33, 49, 20, 21, 22, 0, 0, 0, 0, 0], [48, 0, 0, 0, 0, 0, 0]),
    // 51: G.{p}.I >> c : B
    Conclude(Equality(TmConv), [33, 35, 21, 22, 0, 0, 0, 0, 0, 0], [7, 50, 0, 0, 0, 0, 0]),
    // 52: up : G.{q}.I to G
    Conclude(Contexts(SubWkName), [14, 11, 9, 0, 0, 0, 0, 0, 0, 0], [13, 0, 0, 0, 0, 0, 0]),
    WithName(14),
    // 54: up : G.{q}.I to G.{p}
    Conclude(Contexts(SubFace), [53, 46, 9, 15, 0, 0, 0, 0, 0, 0], [52, 0, 0, 0, 0, 0, 0]),
    // 55: push up (var 0) : G.{q}.I to G.{p}.I
    Conclude(Contexts(SubForm), [53, 46, 29, 47, 0, 0, 0, 0, 0, 0], [54, 0, 0, 0, 0, 0, 0]),
    // 56: G.{q}.I >> c : B
    Conclude(Instances(TmSub), [53, 49, 33, 35, 22, 0, 0, 0, 0, 0], [55, 51, 0, 0, 0, 0, 0]),
    // 57: G >> k : B{0}
    Conclude(Equality(TmConv), [9, 25, 26, 41, 0, 0, 0, 0, 0, 0], [8, 23, 0, 0, 0, 0, 0]),
    // 58: G >> comp B q c k : B{1}
    Conclude(Composition(Comp), [9, 22, 12, 35, 25, 0, 0, 0, 0, 0], [4, 56, 57, 44, 0, 0, 0]),
    Make(Op::I1, [0, 0, 0, 0]),
    // 60: push id i1 : G to G.I
    Conclude(Contexts(SubForm), [9, 11, 9, 59, 0, 0, 0, 0, 0, 0], [10, 0, 0, 0, 0, 0, 0]),
    Push(11, 59),
    // 62: G >> A{1} = B{1}
    Conclude(Instances(TyEqSub), [9, 61, 20, 21, 22, 0, 0, 0, 0, 0], [60, 0, 0, 0, 0, 0, 0]),
    Instance(21, 61),
    Instance(22, 61),
    // 65: G >> B{1} = A{1}
    Conclude(Equality(TyEqSym), [9, 63, 64, 0, 0, 0, 0, 0, 0, 0], [62, 0, 0, 0, 0, 0, 0]),
    Make(Op::Comp, [22, 12, 35, 25]),
    // 67: G >> comp B q c k : A{1}
    Conclude(Equality(TmConv), [9, 66, 64, 63, 0, 0, 0, 0, 0, 0], [58, 65, 0, 0, 0, 0, 0]),
};
