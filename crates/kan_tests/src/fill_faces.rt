//! Written by tools/write_recipes.py.

use recipes::Row::{Conclude, Derive, Make, Nil, Var, WithFace, WithName};
use recipes::{Row, table};
use theory::ContextRule::{CtxFace, CtxName, CtxNil};
use theory::EqualityRule::TmEqRefl;
use theory::NatRule::{NatU, Zero};
use theory::Op;
use theory::RuleName::{Contexts, Equality, Naturals, Universe};
use theory::UniverseRule::TyU;

/// Fillings over a line of numbers: of sides on many faces, at many formulas.
pub static FILL_FACES: &[Row] = table! {
    // 0: ctx []
    Conclude(Contexts(CtxNil), [0, 0, 0, 0, 0, 0, 0, 0, 0, 0], [0, 0, 0, 0, 0, 0, 0]),
    Nil,
    // 2: ctx [].I
    Conclude(Contexts(CtxName), [1, 0, 0, 0, 0, 0, 0, 0, 0, 0], [0, 0, 0, 0, 0, 0, 0]),
    WithName(1),
    // 4: ctx G
    Conclude(Contexts(CtxName), [3, 0, 0, 0, 0, 0, 0, 0, 0, 0], [2, 0, 0, 0, 0, 0, 0]),
    WithName(3),
    // 6: ctx G.I
    Conclude(Contexts(CtxName), [5, 0, 0, 0, 0, 0, 0, 0, 0, 0], [4, 0, 0, 0, 0, 0, 0]),
    WithName(5),
    // 8: G.I >> nat : U
    Conclude(Naturals(NatU), [7, 0, 0, 0, 0, 0, 0, 0, 0, 0], [6, 0, 0, 0, 0, 0, 0]),
    Make(Op::Nat, [0, 0, 0, 0]),
    // 10: G.I >> nat
    Conclude(Universe(TyU), [7, 9, 0, 0, 0, 0, 0, 0, 0, 0], [8, 0, 0, 0, 0, 0, 0]),
    // 11: G >> zero : nat
    Conclude(Naturals(Zero), [5, 0, 0, 0, 0, 0, 0, 0, 0, 0], [4, 0, 0, 0, 0, 0, 0]),
    Make(Op::F0, [0, 0, 0, 0]),
    // 13: ctx P1
    Conclude(Contexts(CtxFace), [5, 12, 0, 0, 0, 0, 0, 0, 0, 0], [4, 0, 0, 0, 0, 0, 0]),
    WithFace(5, 12),
    // 15: ctx P1.I
    Conclude(Contexts(CtxName), [14, 0, 0, 0, 0, 0, 0, 0, 0, 0], [13, 0, 0, 0, 0, 0, 0]),
    WithName(14),
    // 17: P1.I >> zero : nat
    Conclude(Naturals(Zero), [16, 0, 0, 0, 0, 0, 0, 0, 0, 0], [15, 0, 0, 0, 0, 0, 0]),
    // 18: P1 >> zero : nat
    Conclude(Naturals(Zero), [14, 0, 0, 0, 0, 0, 0, 0, 0, 0], [13, 0, 0, 0, 0, 0, 0]),
    Make(Op::Zero, [0, 0, 0, 0]),
    // 20: P1 >> zero = zero : nat
    Conclude(Equality(TmEqRefl), [14, 19, 9, 0, 0, 0, 0, 0, 0, 0], [18, 0, 0, 0, 0, 0, 0]),
    Make(Op::I0, [0, 0, 0, 0]),
    // 22: fill
    Derive(0, [5, 9, 12, 19, 19, 21, 0, 0, 0, 0],
        [4, 10, 17, 11, 20, 0, 0, 0, 0, 0, 0, 0, 0, 0, 0, 0]),
    Make(Op::F1, [0, 0, 0, 0]),
    // 27: ctx P2
    Conclude(Contexts(CtxFace), [5, 26, 0, 0, 0, 0, 0, 0, 0, 0], [4, 0, 0, 0, 0, 0, 0]),
    WithFace(5, 26),
    // 29: ctx P2.I
    Conclude(Contexts(CtxName), [28, 0, 0, 0, 0, 0, 0, 0, 0, 0], [27, 0, 0, 0, 0, 0, 0]),
    WithName(28),
    // 31: P2.I >> zero : nat
    Conclude(Naturals(Zero), [30, 0, 0, 0, 0, 0, 0, 0, 0, 0], [29, 0, 0, 0, 0, 0, 0]),
    // 32: P2 >> zero : nat
    Conclude(Naturals(Zero), [28, 0, 0, 0, 0, 0, 0, 0, 0, 0], [27, 0, 0, 0, 0, 0, 0]),
    // 33: P2 >> zero = zero : nat
    Conclude(Equality(TmEqRefl), [28, 19, 9, 0, 0, 0, 0, 0, 0, 0], [32, 0, 0, 0, 0, 0, 0]),
    Make(Op::I1, [0, 0, 0, 0]),
    // 35: fill
    Derive(0, [5, 9, 26, 19, 19, 34, 0, 0, 0, 0],
        [4, 10, 31, 11, 33, 0, 0, 0, 0, 0, 0, 0, 0, 0, 0, 0]),
    Var(0),
    Make(Op::Eq0, [39, 0, 0, 0]),
    // 41: ctx P3
    Conclude(Contexts(CtxFace), [5, 40, 0, 0, 0, 0, 0, 0, 0, 0], [4, 0, 0, 0, 0, 0, 0]),
    WithFace(5, 40),
    // 43: ctx P3.I
    Conclude(Contexts(CtxName), [42, 0, 0, 0, 0, 0, 0, 0, 0, 0], [41, 0, 0, 0, 0, 0, 0]),
    WithName(42),
    // 45: P3.I >> zero : nat
    Conclude(Naturals(Zero), [44, 0, 0, 0, 0, 0, 0, 0, 0, 0], [43, 0, 0, 0, 0, 0, 0]),
    // 46: P3 >> zero : nat
    Conclude(Naturals(Zero), [42, 0, 0, 0, 0, 0, 0, 0, 0, 0], [41, 0, 0, 0, 0, 0, 0]),
    // 47: P3 >> zero = zero : nat
    Conclude(Equality(TmEqRefl), [42, 19, 9, 0, 0, 0, 0, 0, 0, 0], [46, 0, 0, 0, 0, 0, 0]),
    // 48: fill
    Derive(0, [5, 9, 40, 19, 19, 39, 0, 0, 0, 0],
        [4, 10, 45, 11, 47, 0, 0, 0, 0, 0, 0, 0, 0, 0, 0, 0]),
    Var(1),
    Make(Op::Eq1, [52, 0, 0, 0]),
    Make(Op::Join, [40, 53, 0, 0]),
    // 55: ctx P4
    Conclude(Contexts(CtxFace), [5, 54, 0, 0, 0, 0, 0, 0, 0, 0], [4, 0, 0, 0, 0, 0, 0]),
    WithFace(5, 54),
    // 57: ctx P4.I
    Conclude(Contexts(CtxName), [56, 0, 0, 0, 0, 0, 0, 0, 0, 0], [55, 0, 0, 0, 0, 0, 0]),
    WithName(56),
    // 59: P4.I >> zero : nat
    Conclude(Naturals(Zero), [58, 0, 0, 0, 0, 0, 0, 0, 0, 0], [57, 0, 0, 0, 0, 0, 0]),
    // 60: P4 >> zero : nat
    Conclude(Naturals(Zero), [56, 0, 0, 0, 0, 0, 0, 0, 0, 0], [55, 0, 0, 0, 0, 0, 0]),
    // 61: P4 >> zero = zero : nat
    Conclude(Equality(TmEqRefl), [56, 19, 9, 0, 0, 0, 0, 0, 0, 0], [60, 0, 0, 0, 0, 0, 0]),
    Make(Op::Neg, [52, 0, 0, 0]),
    Make(Op::Min, [39, 62, 0, 0]),
    // 64: fill
    Derive(0, [5, 9, 54, 19, 19, 63, 0, 0, 0, 0],
        [4, 10, 59, 11, 61, 0, 0, 0, 0, 0, 0, 0, 0, 0, 0, 0]),
    Make(Op::Meet, [40, 53, 0, 0]),
    // 69: ctx P5
    Conclude(Contexts(CtxFace), [5, 68, 0, 0, 0, 0, 0, 0, 0, 0], [4, 0, 0, 0, 0, 0, 0]),
    WithFace(5, 68),
    // 71: ctx P5.I
    Conclude(Contexts(CtxName), [70, 0, 0, 0, 0, 0, 0, 0, 0, 0], [69, 0, 0, 0, 0, 0, 0]),
    WithName(70),
    // 73: P5.I >> zero : nat
    Conclude(Naturals(Zero), [72, 0, 0, 0, 0, 0, 0, 0, 0, 0], [71, 0, 0, 0, 0, 0, 0]),
    // 74: P5 >> zero : nat
    Conclude(Naturals(Zero), [70, 0, 0, 0, 0, 0, 0, 0, 0, 0], [69, 0, 0, 0, 0, 0, 0]),
    // 75: P5 >> zero = zero : nat
    Conclude(Equality(TmEqRefl), [70, 19, 9, 0, 0, 0, 0, 0, 0, 0], [74, 0, 0, 0, 0, 0, 0]),
    Make(Op::Max, [39, 52, 0, 0]),
    // 77: fill
    Derive(0, [5, 9, 68, 19, 19, 76, 0, 0, 0, 0],
        [4, 10, 73, 11, 75, 0, 0, 0, 0, 0, 0, 0, 0, 0, 0, 0]),
    Make(Op::All, [54, 0, 0, 0]),
    // 82: ctx P6
    Conclude(Contexts(CtxFace), [5, 81, 0, 0, 0, 0, 0, 0, 0, 0], [4, 0, 0, 0, 0, 0, 0]),
    WithFace(5, 81),
    // 84: ctx P6.I
    Conclude(Contexts(CtxName), [83, 0, 0, 0, 0, 0, 0, 0, 0, 0], [82, 0, 0, 0, 0, 0, 0]),
    WithName(83),
    // 86: P6.I >> zero : nat
    Conclude(Naturals(Zero), [85, 0, 0, 0, 0, 0, 0, 0, 0, 0], [84, 0, 0, 0, 0, 0, 0]),
    // 87: P6 >> zero : nat
    Conclude(Naturals(Zero), [83, 0, 0, 0, 0, 0, 0, 0, 0, 0], [82, 0, 0, 0, 0, 0, 0]),
    // 88: P6 >> zero = zero : nat
    Conclude(Equality(TmEqRefl), [83, 19, 9, 0, 0, 0, 0, 0, 0, 0], [87, 0, 0, 0, 0, 0, 0]),
    Make(Op::Neg, [39, 0, 0, 0]),
    // 90: fill
    Derive(0, [5, 9, 81, 19, 19, 89, 0, 0, 0, 0],
        [4, 10, 86, 11, 88, 0, 0, 0, 0, 0, 0, 0, 0, 0, 0, 0]),
};

/// The rows of what it gives: typing1, face1, typing2, face2, typing3, face3, typing4, face4,
/// typing5, face5, typing6, face6.
pub static FILL_FACES_GIVES: &[u16] = &[22, 25, 35, 38, 48, 51, 64, 67, 77, 80, 90, 93];
