//! The programs of derived trees.

ghost use Rattle.rules.specs.Schemas.{Makes};

use super::named::*;
use crate::derived::Derived;
use crate::instruction::Instruction::{Instance, Push, Shift, Var};
use crate::program::Place;

/// A list of instructions, in as many lines as they fill.
macro_rules! program {
    ($($instruction:expr),*) => { &[$($instruction),*] };
}

/// The program of a derived tree.
pub fn derivation(derived: Derived) -> Place
    ensures { Makes derived result.now }
{
    match derived {
        Derived::Fill => program! {
            COMP, Instance, A0, Push, UP, MIN, Instance, R4, UP, Var(0), JOIN, P1, JOIN, EQ_0, R4,
            NO_FACE, SYS, Instance, P1, UP, JOIN, Instance, EQ_0, R4, UP, NO_FACE, Instance, B2,
            Push, UP, MIN, Instance, R4, UP, Var(0), SYS, Instance, EQ_0, R4, UP, NO_FACE, Instance,
            A3, UP, EMPTY, A3
        },
        Derived::Back => program! {
            FILL, Instance, A0, Push, UP, NEG, Var(0), NO_FACE, EMPTY, Y1, NEG, R2
        },
        Derived::IsContr => program! {
            SIG, A0, PI, Instance, A0, UP, PATHP, Instance, Instance, Instance, A0, UP, UP, UP,
            Var(1), Var(0)
        },
        Derived::Fiber => program! {
            SIG, T0, PATHP, Instance, Instance, A1, UP, UP, Instance, Y3, UP, APP, Instance, F2, UP,
            Var(0)
        },
        Derived::IsEquiv => program! {
            PI, A1, IS_CONTR, FIBER, Instance, T0, UP, Instance, A1, UP, Instance, F2, UP, Var(0)
        },
        Derived::Equiv => program! {
            SIG, PI, T0, Instance, A1, UP, IS_EQUIV, Instance, T0, UP, Instance, A1, UP, Var(0)
        },
        Derived::Contr => program! {
            COMP, Instance, A0, UP, P2, PAPP, Instance, APP, SND, C1, B3, UP, Var(0), FST, C1
        },
        Derived::Ext => program! {
            CONTR, FIBER, T0, A1, FST, W2, A5, APP, SND, W2, A5, P3, Z4
        },
        Derived::Pres => program! {
            PLAM, COMP, Instance, A1, Push, Shift(2), Var(0), JOIN, Instance, P3, UP, EQ_1, Var(0),
            Instance, APP, F2, FILL, Instance, T0, Push, Shift(2), Var(0), Instance, P3, UP,
            Instance, T4, Push, Shift(2), Var(0), Instance, T5, UP, Var(0), Push, Shift(2), Var(0),
            Instance, APP, Instance, F2, Push, ID, END_0, T5, UP
        },
        Derived::CompPi => program! {
            LAM, Instance, A0, Push, ID, END_1, COMP, Instance, B1, Push, Push, Shift(2), Var(0),
            BACK, Instance, Instance, A0, Push, Shift(2), Var(0), Push, Shift(2), Var(0), Var(1),
            Var(0), Instance, P2, UP, APP, Instance, B3, Push, Shift(2), Var(0), BACK, Instance,
            Instance, A0, Push, Shift(2), Var(0), Push, Shift(2), Var(0), Var(1), Var(0), APP,
            Instance, A4, UP, BACK, Instance, A0, Push, Shift(2), Var(0), Var(0), END_0
        },
        Derived::CompSig => program! {
            PAIR, COMP, A0, P2, FST, B3, FST, A4, COMP, Instance, B1, Push, ID, FILL, Instance, A0,
            Push, Shift(2), Var(0), Instance, P2, UP, Instance, FST, B3, Push, Shift(2), Var(0),
            Instance, FST, A4, UP, Var(0), P2, SND, B3, SND, A4
        },
        Derived::CompPath => program! {
            PLAM, COMP, Instance, A0, Push, Push, Shift(2), Var(0), Var(1), JOIN, Instance, P3, UP,
            JOIN, EQ_0, Var(0), JOIN, EQ_1, Var(0), NO_FACE, SYS, Instance, Instance, P3, UP, UP,
            JOIN, Instance, EQ_0, Var(0), UP, JOIN, Instance, EQ_1, Var(0), UP, NO_FACE, PAPP,
            Instance, B4, Push, Shift(2), Var(0), Var(1), SYS, Instance, EQ_0, Var(0), UP, JOIN,
            Instance, EQ_1, Var(0), UP, NO_FACE, Instance, U1, Push, Shift(2), Var(0), SYS,
            Instance, EQ_1, Var(0), UP, NO_FACE, Instance, V2, Push, Shift(2), Var(0), EMPTY, PAPP,
            Instance, A5, UP, Var(0)
        },
        Derived::GlueBase => program! {
            COMP, A0, P4, UNGLUE, Q1, T2, W3, B5, UNGLUE, Instance, Q1, Push, ID, END_0, Instance,
            T2, Push, ID, END_0, Instance, W3, Push, ID, END_0, A6
        },
        Derived::GlueFiber => program! {
            EXT, Instance, T2, Push, ID, END_1, Instance, A0, Push, ID, END_1, Instance, W3, Push,
            ID, END_1, JOIN, ALL, Q1, JOIN, P4, NO_FACE, SYS, ALL, Q1, JOIN, P4, NO_FACE, PAIR,
            COMP, T2, P4, B5, A6, PRES, T2, A0, FST, W3, P4, B5, A6, SYS, P4, NO_FACE, PAIR,
            Instance, B5, Push, ID, END_1, PLAM, Instance, K7, UP, EMPTY, K7
        },
        Derived::GlueEnd => program! {
            GLUE, Instance, Q1, Push, ID, END_1, FST, E7, COMP, Instance, Instance, A0, Push, ID,
            END_1, UP, JOIN, Instance, Q1, Push, ID, END_1, JOIN, P4, NO_FACE, SYS, Instance,
            Instance, Q1, Push, ID, END_1, UP, JOIN, Instance, P4, UP, NO_FACE, PAPP, Instance, SND,
            E7, UP, Var(0), SYS, Instance, P4, UP, NO_FACE, Instance, Instance, UNGLUE, Q1, T2, W3,
            B5, Push, ID, END_1, UP, EMPTY, K6
        },
        Derived::GlueFrom => program! {
            GLUE_END, A0, Q1, T2, W3, P4, B5, K7, GLUE_FIBER, A0, Q1, T2, W3, P4, B5, A6, K7
        },
        Derived::CompGlue => program! {
            GLUE_FROM, A0, Q1, T2, W3, P4, B5, A6, GLUE_BASE, A0, Q1, T2, W3, P4, B5, A6
        },
        Derived::EqvU => program! {
            FILL, E0, NO_FACE, EMPTY, X1, R2
        },
        Derived::EqvM => program! {
            FILL, E0, JOIN, EQ_0, J3, JOIN, EQ_1, J3, NO_FACE, SYS, Instance, EQ_0, J3, UP, JOIN,
            Instance, EQ_1, J3, UP, NO_FACE, BACK, Instance, E0, Push, Shift(2), Var(0), Instance,
            Y1, UP, Var(0), SYS, Instance, EQ_1, J3, UP, NO_FACE, EQV_U, Instance, E0, Push,
            Shift(2), Var(0), Instance, G2, UP, Var(0), EMPTY, G2, R4
        },
        Derived::EqvN => program! {
            FILL, Instance, E0, Push, UP, NEG, Var(0), JOIN, EQ_0, J4, JOIN, EQ_1, J4, NO_FACE, SYS,
            Instance, EQ_0, J4, UP, JOIN, Instance, EQ_1, J4, UP, NO_FACE, BACK, Instance, E0, Push,
            Shift(2), Var(0), Instance, Y1, UP, NEG, Var(0), SYS, Instance, EQ_1, J4, UP, NO_FACE,
            EQV_U, Instance, E0, Push, Shift(2), Var(0), Instance, X2, UP, NEG, Var(0), EMPTY, PAPP,
            C3, J4, NEG, R5
        },
        Derived::EqvO => program! {
            EQV_N, E0, Y1, FST, Z2, SND, Z2, K3, END_0
        },
        Derived::EqvCentre => program! {
            PAIR, G2, PLAM, EQV_M, Instance, E0, Push, Shift(2), Var(0), Instance, Y1, UP, Instance,
            G2, UP, Var(0), END_1
        },
        Derived::EqvSquare => program! {
            COMP, E0, JOIN, EQ_0, K5, JOIN, EQ_1, K5, JOIN, EQ_0, J4, JOIN, EQ_1, J4, NO_FACE, SYS,
            Instance, EQ_0, K5, UP, JOIN, Instance, EQ_1, K5, UP, JOIN, Instance, EQ_0, J4, UP,
            JOIN, Instance, EQ_1, J4, UP, NO_FACE, EQV_M, Instance, E0, Push, Shift(2), Var(0),
            Instance, Y1, UP, Instance, G2, UP, Instance, J4, UP, Var(0), SYS, Instance, EQ_1, K5,
            UP, JOIN, Instance, EQ_0, J4, UP, JOIN, Instance, EQ_1, J4, UP, NO_FACE, EQV_N,
            Instance, E0, Push, Shift(2), Var(0), Instance, Y1, UP, Instance, FST, Z3, UP, Instance,
            SND, Z3, UP, Instance, J4, UP, Var(0), SYS, Instance, EQ_0, J4, UP, JOIN, Instance,
            EQ_1, J4, UP, NO_FACE, BACK, Instance, E0, Push, Shift(2), Var(0), Instance, Y1, UP,
            Var(0), SYS, Instance, EQ_1, J4, UP, NO_FACE, EQV_U, Instance, E0, Push, Shift(2),
            Var(0), Instance, O6, UP, Var(0), EMPTY, EQV_O, E0, Y1, Z3, MIN, J4, K5
        },
        Derived::EqvContraction => program! {
            PAIR, O5, PLAM, EQV_SQUARE, Instance, E0, Push, Shift(2), Var(0), Instance, Y1, UP,
            Instance, G2, UP, Instance, Z3, UP, Var(0), Instance, K4, UP, Instance, O5, UP
        },
        Derived::EqvPath => program! {
            PLAM, EQV_CONTRACTION, Instance, E0, Push, Shift(2), Var(0), Instance, Y1, UP, Instance,
            G2, UP, Instance, Z3, UP, Var(0), EQV_O, Instance, E0, Push, Shift(2), Var(0), Instance,
            Y1, UP, Instance, Z3, UP, Var(0)
        },
        Derived::EqvFiber => program! {
            PAIR, EQV_CENTRE, E0, Y2, G3, LAM, FIBER, Instance, E0, Push, ID, END_0, Instance, E0,
            Push, ID, END_1, F1, Y2, EQV_PATH, Instance, E0, Push, Shift(2), Var(0), Instance, Y2,
            UP, Instance, G3, UP, Var(0)
        },
        Derived::EqvFrom => program! {
            PAIR, F1, LAM, Instance, E0, Push, ID, END_1, EQV_FIBER, Instance, E0, Push, Shift(2),
            Var(0), Instance, F1, UP, Var(0), BACK, Instance, E0, Push, Shift(2), Var(0), Var(0),
            END_0
        },
        Derived::Eqv => program! {
            EQV_FROM, E0, LAM, Instance, E0, Push, ID, END_0, COMP, Instance, E0, Push, Shift(2),
            Var(0), NO_FACE, EMPTY, Var(0)
        },
        Derived::CompU => program! {
            GLUE_TYPE, A2, P0, Instance, B1, Push, ID, END_1, EQV, Instance, B1, Push, UP, NEG,
            Var(0)
        },
    }
}
