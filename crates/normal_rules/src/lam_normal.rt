//! Written by tools/write_recipes.py.

use recipes::Row::{Conclude, Field, Instance, Make, Premise, Push, Shift, Var, WithVar};
use recipes::{Row, table};
use theory::ContextRule::{SubId, SubVar, SubWk};
use theory::EqualityRule::{TmConv, TmEqSym, TmEqTrans, TyEqRefl, TyEqSym};
use theory::InstanceRule::{TmSub, TmVar, TyEqSub, TySub};
use theory::Op;
use theory::PiRule::{Lam, PiBeta, PiEta, PiTyCong};
use theory::RuleName::{Contexts, Equality, Instances, Pi};

/// A function whose domain and body are in normal form.
/// Its parts are G A C b c B.
pub static LAM_NORMAL: &[Row] = table! {
    // 0: ctx G
    Premise(0),
    // 1: G >> A
    Premise(1),
    // 2: G >> C
    Premise(2),
    // 3: G >> A = C
    Premise(3),
    // 4: G.A >> B
    Premise(4),
    // 5: G.A >> b : B
    Premise(5),
    // 6: G.A >> c : B
    Premise(6),
    // 7: G.A >> b = c : B
    Premise(7),
    Field(0, 0),
    // 9: id : G to G
    Conclude(Contexts(SubId), [8, 0, 0, 0, 0, 0, 0, 0, 0, 0], [0, 0, 0, 0, 0, 0, 0]),
    Shift(0),
    Field(1, 1),
    // 12: up : G.A to G
    Conclude(Contexts(SubWk), [8, 10, 8, 11, 0, 0, 0, 0, 0, 0], [9, 1, 0, 0, 0, 0, 0]),
    WithVar(8, 11),
    Shift(1),
    // 15: G.A >> A+
    Conclude(Instances(TySub), [13, 14, 8, 11, 0, 0, 0, 0, 0, 0], [12, 1, 0, 0, 0, 0, 0]),
    Instance(11, 14),
    // 17: shift 2 : G.A.A+ to G
    Conclude(Contexts(SubWk), [13, 14, 8, 16, 0, 0, 0, 0, 0, 0], [12, 15, 0, 0, 0, 0, 0]),
    // 18: G.A.A+ >> x : A[shift 2]
    Conclude(Instances(TmVar), [13, 16, 0, 0, 0, 0, 0, 0, 0, 0], [15, 0, 0, 0, 0, 0, 0]),
    WithVar(13, 16),
    Shift(2),
    Var(0),
    // 22: aside : G.A.A+ to G.A
    Conclude(Contexts(SubVar), [19, 20, 8, 11, 21, 0, 0, 0, 0, 0], [17, 1, 18, 0, 0, 0, 0]),
    Push(20, 21),
    Field(5, 1),
    Field(4, 1),
    // 26: G.A.A+ >> b_x : B[aside]
    Conclude(Instances(TmSub), [19, 23, 13, 24, 25, 0, 0, 0, 0, 0], [22, 5, 0, 0, 0, 0, 0]),
    // 27: G.A >> x : A+
    Conclude(Instances(TmVar), [8, 11, 0, 0, 0, 0, 0, 0, 0, 0], [1, 0, 0, 0, 0, 0, 0]),
    Instance(24, 23),
    Instance(25, 23),
    // 30: G.A >> app (lam A+ b_x) x = b : B
    Conclude(Pi(PiBeta), [13, 16, 28, 21, 29, 0, 0, 0, 0, 0], [26, 27, 0, 0, 0, 0, 0]),
    Field(2, 1),
    // 32: G.A >> C+
    Conclude(Instances(TySub), [13, 14, 8, 31, 0, 0, 0, 0, 0, 0], [12, 2, 0, 0, 0, 0, 0]),
    Instance(31, 14),
    // 34: shift 2 : G.A.C+ to G
    Conclude(Contexts(SubWk), [13, 14, 8, 33, 0, 0, 0, 0, 0, 0], [12, 32, 0, 0, 0, 0, 0]),
    // 35: G.A.C+ >> x : C[shift 2]
    Conclude(Instances(TmVar), [13, 33, 0, 0, 0, 0, 0, 0, 0, 0], [32, 0, 0, 0, 0, 0, 0]),
    WithVar(13, 33),
    // 37: G.A.C+ >> A[shift 2] = C[shift 2]
    Conclude(Instances(TyEqSub), [36, 20, 8, 11, 31, 0, 0, 0, 0, 0], [34, 3, 0, 0, 0, 0, 0]),
    Instance(11, 20),
    Instance(31, 20),
    // 40: G.A.C+ >> C[shift 2] = A[shift 2]
    Conclude(Equality(TyEqSym), [36, 38, 39, 0, 0, 0, 0, 0, 0, 0], [37, 0, 0, 0, 0, 0, 0]),
    // 41: G.A.C+ >> x : A[shift 2]
    Conclude(Equality(TmConv), [36, 21, 39, 38, 0, 0, 0, 0, 0, 0], [35, 40, 0, 0, 0, 0, 0]),
    // 42: aside : G.A.C+ to G.A
    Conclude(Contexts(SubVar), [36, 20, 8, 11, 21, 0, 0, 0, 0, 0], [34, 1, 41, 0, 0, 0, 0]),
    Field(6, 1),
    // 44: G.A.C+ >> c_x : B[aside]
    Conclude(Instances(TmSub), [36, 23, 13, 43, 25, 0, 0, 0, 0, 0], [42, 6, 0, 0, 0, 0, 0]),
    // 45: G.A >> A+ = C+
    Conclude(Instances(TyEqSub), [13, 14, 8, 11, 31, 0, 0, 0, 0, 0], [12, 3, 0, 0, 0, 0, 0]),
    // 46: G.A >> x : C+
    Conclude(Equality(TmConv), [13, 21, 16, 33, 0, 0, 0, 0, 0, 0], [27, 45, 0, 0, 0, 0, 0]),
    Instance(43, 23),
    // 48: G.A >> app (lam C+ c_x) x = c : B
    Conclude(Pi(PiBeta), [13, 33, 47, 21, 29, 0, 0, 0, 0, 0], [44, 46, 0, 0, 0, 0, 0]),
    Make(Op::Lam, [33, 47, 0, 0]),
    Make(Op::App, [49, 21, 0, 0]),
    // 51: G.A >> c = app (lam C+ c_x) x : B
    Conclude(Equality(TmEqSym), [13, 50, 43, 25, 0, 0, 0, 0, 0, 0], [48, 0, 0, 0, 0, 0, 0]),
    // 52: G.A >> b = app (lam C+ c_x) x : B
    Conclude(Equality(TmEqTrans), [13, 24, 43, 50, 25, 0, 0, 0, 0, 0], [7, 51, 0, 0, 0, 0, 0]),
    Make(Op::Lam, [16, 28, 0, 0]),
    Make(Op::App, [53, 21, 0, 0]),
    // 55: G.A >> app (lam A+ b_x) x = app (lam C+ c_x) x : B
    Conclude(Equality(TmEqTrans), [13, 54, 24, 50, 25, 0, 0, 0, 0, 0], [30, 52, 0, 0, 0, 0, 0]),
    // 56: G >> lam A b : pi A B
    Conclude(Pi(Lam), [8, 11, 24, 25, 0, 0, 0, 0, 0, 0], [1, 5, 0, 0, 0, 0, 0]),
    // 57: up : G.C to G
    Conclude(Contexts(SubWk), [8, 10, 8, 31, 0, 0, 0, 0, 0, 0], [9, 2, 0, 0, 0, 0, 0]),
    // 58: G.C >> x : C+
    Conclude(Instances(TmVar), [8, 31, 0, 0, 0, 0, 0, 0, 0, 0], [2, 0, 0, 0, 0, 0, 0]),
    WithVar(8, 31),
    // 60: G.C >> A+ = C+
    Conclude(Instances(TyEqSub), [59, 14, 8, 11, 31, 0, 0, 0, 0, 0], [57, 3, 0, 0, 0, 0, 0]),
    // 61: G.C >> C+ = A+
    Conclude(Equality(TyEqSym), [59, 16, 33, 0, 0, 0, 0, 0, 0, 0], [60, 0, 0, 0, 0, 0, 0]),
    // 62: G.C >> x : A+
    Conclude(Equality(TmConv), [59, 21, 33, 16, 0, 0, 0, 0, 0, 0], [58, 61, 0, 0, 0, 0, 0]),
    // 63: push up x : G.C to G.A
    Conclude(Contexts(SubVar), [59, 14, 8, 11, 21, 0, 0, 0, 0, 0], [57, 1, 62, 0, 0, 0, 0]),
    Push(14, 21),
    // 65: G.C >> c : B
    Conclude(Instances(TmSub), [59, 64, 13, 43, 25, 0, 0, 0, 0, 0], [63, 6, 0, 0, 0, 0, 0]),
    // 66: G >> lam C c : pi C B
    Conclude(Pi(Lam), [8, 31, 43, 25, 0, 0, 0, 0, 0, 0], [2, 65, 0, 0, 0, 0, 0]),
    // 67: G >> C = A
    Conclude(Equality(TyEqSym), [8, 11, 31, 0, 0, 0, 0, 0, 0, 0], [3, 0, 0, 0, 0, 0, 0]),
    // 68: G.C >> B
    Conclude(Instances(TySub), [59, 64, 13, 25, 0, 0, 0, 0, 0, 0], [63, 4, 0, 0, 0, 0, 0]),
    // 69: G.C >> B = B
    Conclude(Equality(TyEqRefl), [59, 25, 0, 0, 0, 0, 0, 0, 0, 0], [68, 0, 0, 0, 0, 0, 0]),
    // 70: G >> pi C B = pi A B
    Conclude(Pi(PiTyCong), [8, 31, 11, 25, 25, 0, 0, 0, 0, 0], [67, 69, 0, 0, 0, 0, 0]),
    Make(Op::Lam, [31, 43, 0, 0]),
    Make(Op::Pi, [31, 25, 0, 0]),
    Make(Op::Pi, [11, 25, 0, 0]),
    // 74: G >> lam C c : pi A B
    Conclude(Equality(TmConv), [8, 71, 72, 73, 0, 0, 0, 0, 0, 0], [66, 70, 0, 0, 0, 0, 0]),
    Make(Op::Lam, [11, 24, 0, 0]),
    // 76: G >> lam A b = lam C c : pi A B
    Conclude(Pi(PiEta), [8, 75, 71, 11, 25, 0, 0, 0, 0, 0], [56, 74, 55, 0, 0, 0, 0]),
};

/// The rows of what it gives: equal, term.
pub static LAM_NORMAL_GIVES: &[u16] = &[76, 74];
