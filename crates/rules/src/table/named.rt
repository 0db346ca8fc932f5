//! The instructions that programs of rules are full of.
//!
//! A part is named by its letter in the rule and its place: `A3` is part 3, which the rule calls A
//! or a.

use crate::derived::Derived;
use crate::instruction::Instruction::{self, Call, Make, Part, Shift};
use theory::Op;

pub const ID: Instruction = Shift(0);

pub const UP: Instruction = Shift(1);

pub const ALL: Instruction = Make(Op::All);

pub const APP: Instruction = Make(Op::App);

pub const COMP: Instruction = Make(Op::Comp);

pub const EMPTY: Instruction = Make(Op::Empty);

pub const END_0: Instruction = Make(Op::I0);

pub const END_1: Instruction = Make(Op::I1);

pub const EQ_0: Instruction = Make(Op::Eq0);

pub const EQ_1: Instruction = Make(Op::Eq1);

pub const FST: Instruction = Make(Op::Fst);

pub const GLUE: Instruction = Make(Op::Glue);

pub const GLUE_TYPE: Instruction = Make(Op::GlueType);

pub const JOIN: Instruction = Make(Op::Join);

pub const LAM: Instruction = Make(Op::Lam);

pub const MIN: Instruction = Make(Op::Min);

pub const NAT: Instruction = Make(Op::Nat);

pub const NATREC: Instruction = Make(Op::NatRec);

pub const NEG: Instruction = Make(Op::Neg);

pub const NO_FACE: Instruction = Make(Op::F0);

pub const PAIR: Instruction = Make(Op::Pair);

pub const PAPP: Instruction = Make(Op::PApp);

pub const PATHP: Instruction = Make(Op::PathP);

pub const PI: Instruction = Make(Op::Pi);

pub const PLAM: Instruction = Make(Op::PLam);

pub const SIG: Instruction = Make(Op::Sig);

pub const SND: Instruction = Make(Op::Snd);

pub const SUC: Instruction = Make(Op::Suc);

pub const SYS: Instruction = Make(Op::Sys);

pub const UNGLUE: Instruction = Make(Op::Unglue);

pub const UNIVERSE: Instruction = Make(Op::U);

pub const ZERO: Instruction = Make(Op::Zero);

pub const FILL: Instruction = Call(Derived::Fill);

pub const BACK: Instruction = Call(Derived::Back);

pub const IS_CONTR: Instruction = Call(Derived::IsContr);

pub const FIBER: Instruction = Call(Derived::Fiber);

pub const IS_EQUIV: Instruction = Call(Derived::IsEquiv);

pub const EQUIV: Instruction = Call(Derived::Equiv);

pub const CONTR: Instruction = Call(Derived::Contr);

pub const EXT: Instruction = Call(Derived::Ext);

pub const PRES: Instruction = Call(Derived::Pres);

pub const COMP_PI: Instruction = Call(Derived::CompPi);

pub const COMP_SIG: Instruction = Call(Derived::CompSig);

pub const COMP_PATH: Instruction = Call(Derived::CompPath);

pub const GLUE_BASE: Instruction = Call(Derived::GlueBase);

pub const GLUE_FIBER: Instruction = Call(Derived::GlueFiber);

pub const GLUE_END: Instruction = Call(Derived::GlueEnd);

pub const GLUE_FROM: Instruction = Call(Derived::GlueFrom);

pub const COMP_GLUE: Instruction = Call(Derived::CompGlue);

pub const EQV_U: Instruction = Call(Derived::EqvU);

pub const EQV_M: Instruction = Call(Derived::EqvM);

pub const EQV_N: Instruction = Call(Derived::EqvN);

pub const EQV_O: Instruction = Call(Derived::EqvO);

pub const EQV_CENTRE: Instruction = Call(Derived::EqvCentre);

pub const EQV_SQUARE: Instruction = Call(Derived::EqvSquare);

pub const EQV_CONTRACTION: Instruction = Call(Derived::EqvContraction);

pub const EQV_PATH: Instruction = Call(Derived::EqvPath);

pub const EQV_FIBER: Instruction = Call(Derived::EqvFiber);

pub const EQV_FROM: Instruction = Call(Derived::EqvFrom);

pub const EQV: Instruction = Call(Derived::Eqv);

pub const COMP_U: Instruction = Call(Derived::CompU);

pub const A0: Instruction = Part(0);

pub const A1: Instruction = Part(1);

pub const A2: Instruction = Part(2);

pub const A3: Instruction = Part(3);

pub const A4: Instruction = Part(4);

pub const A5: Instruction = Part(5);

pub const A6: Instruction = Part(6);

pub const A7: Instruction = Part(7);

pub const B1: Instruction = Part(1);

pub const B2: Instruction = Part(2);

pub const B3: Instruction = Part(3);

pub const B4: Instruction = Part(4);

pub const B5: Instruction = Part(5);

pub const B6: Instruction = Part(6);

pub const B7: Instruction = Part(7);

pub const B8: Instruction = Part(8);

pub const C1: Instruction = Part(1);

pub const C2: Instruction = Part(2);

pub const C3: Instruction = Part(3);

pub const C4: Instruction = Part(4);

pub const C5: Instruction = Part(5);

pub const C6: Instruction = Part(6);

pub const C9: Instruction = Part(9);

pub const D1: Instruction = Part(1);

pub const D3: Instruction = Part(3);

pub const D4: Instruction = Part(4);

pub const E0: Instruction = Part(0);

pub const E1: Instruction = Part(1);

pub const E2: Instruction = Part(2);

pub const E7: Instruction = Part(7);

pub const F1: Instruction = Part(1);

pub const F2: Instruction = Part(2);

pub const G0: Instruction = Part(0);

pub const G2: Instruction = Part(2);

pub const G3: Instruction = Part(3);

pub const G4: Instruction = Part(4);

pub const H0: Instruction = Part(0);

pub const H2: Instruction = Part(2);

pub const J3: Instruction = Part(3);

pub const J4: Instruction = Part(4);

pub const K0: Instruction = Part(0);

pub const K2: Instruction = Part(2);

pub const K3: Instruction = Part(3);

pub const K4: Instruction = Part(4);

pub const K5: Instruction = Part(5);

pub const K6: Instruction = Part(6);

pub const K7: Instruction = Part(7);

pub const K8: Instruction = Part(8);

pub const M2: Instruction = Part(2);

pub const M3: Instruction = Part(3);

pub const M8: Instruction = Part(8);

pub const N1: Instruction = Part(1);

pub const N2: Instruction = Part(2);

pub const N4: Instruction = Part(4);

pub const N7: Instruction = Part(7);

pub const O5: Instruction = Part(5);

pub const O6: Instruction = Part(6);

pub const P0: Instruction = Part(0);

pub const P1: Instruction = Part(1);

pub const P2: Instruction = Part(2);

pub const P3: Instruction = Part(3);

pub const P4: Instruction = Part(4);

pub const P5: Instruction = Part(5);

pub const Q1: Instruction = Part(1);

pub const Q2: Instruction = Part(2);

pub const Q4: Instruction = Part(4);

pub const Q5: Instruction = Part(5);

pub const R2: Instruction = Part(2);

pub const R3: Instruction = Part(3);

pub const R4: Instruction = Part(4);

pub const R5: Instruction = Part(5);

pub const T0: Instruction = Part(0);

pub const T2: Instruction = Part(2);

pub const T3: Instruction = Part(3);

pub const T4: Instruction = Part(4);

pub const T5: Instruction = Part(5);

pub const U1: Instruction = Part(1);

pub const U2: Instruction = Part(2);

pub const U3: Instruction = Part(3);

pub const U4: Instruction = Part(4);

pub const U5: Instruction = Part(5);

pub const V2: Instruction = Part(2);

pub const V3: Instruction = Part(3);

pub const V4: Instruction = Part(4);

pub const V5: Instruction = Part(5);

pub const V6: Instruction = Part(6);

pub const W2: Instruction = Part(2);

pub const W3: Instruction = Part(3);

pub const W4: Instruction = Part(4);

pub const W7: Instruction = Part(7);

pub const X1: Instruction = Part(1);

pub const X2: Instruction = Part(2);

pub const X4: Instruction = Part(4);

pub const Y1: Instruction = Part(1);

pub const Y2: Instruction = Part(2);

pub const Y3: Instruction = Part(3);

pub const Y6: Instruction = Part(6);

pub const Z2: Instruction = Part(2);

pub const Z3: Instruction = Part(3);

pub const Z4: Instruction = Part(4);

pub const Z7: Instruction = Part(7);

pub const Z8: Instruction = Part(8);
