//! The rules of composition.

ghost use Rattle.theory.specs.declared.rule.RuleName.TheVariants.{Composition};
ghost use Rattle.rules.specs.Schemas.{Means};

use super::named::{
    A1, A3, A4, A5, A6, A7, B2, B3, B4, B5, B6, C6, COMP, COMP_GLUE, COMP_PATH, COMP_PI, COMP_SIG,
    COMP_U, END_0, END_1, EQUIV, G0, GLUE_TYPE, ID, K8, M3, N2, NAT, P1, P2, P3, P4, P5, PATHP, PI,
    Q2, Q4, SIG, SUC, T3, U2, UNIVERSE, V3, W4, ZERO,
};
use crate::instruction::Instruction::{CtxFace, CtxName, CtxVar, Instance, Push};
use crate::program::Program::{Ctx, Tm, TmEq, Ty, TyEq};
use crate::program::{Program, Schema, Test};
use theory::CompRule;

/// The premises of `comp`.
const COMP_WANTS: &[Program] = &[
    Ty(&[CtxName, G0], &[A1]),
    Tm(&[CtxName, CtxFace, G0, P2], &[B3], &[A1]),
    Tm(&[G0], &[A4], &[Instance, A1, Push, ID, END_0]),
    TmEq(
        &[CtxFace, G0, P2],
        &[A4],
        &[Instance, B3, Push, ID, END_0],
        &[Instance, A1, Push, ID, END_0],
    ),
];

/// The programs of a rule of this family.
pub fn comp_schema(rule: CompRule) -> Schema
    ensures { Means (Composition rule) result }
{
    match rule {
        CompRule::Comp => Schema {
            wants: COMP_WANTS,
            sides: &[Test::IsFace(&[G0], &[P2])],
            gives: Tm(
                &[G0],
                &[COMP, A1, P2, B3, A4],
                &[Instance, A1, Push, ID, END_1],
            ),
        },
        CompRule::CompFace => Schema {
            wants: COMP_WANTS,
            sides: &[Test::IsFace(&[G0], &[P2])],
            gives: TmEq(
                &[CtxFace, G0, P2],
                &[COMP, A1, P2, B3, A4],
                &[Instance, B3, Push, ID, END_1],
                &[Instance, A1, Push, ID, END_1],
            ),
        },
        CompRule::CompCong => Schema {
            wants: &[
                TyEq(&[CtxName, G0], &[A1], &[B2]),
                Tm(&[CtxName, CtxFace, G0, P3], &[B5], &[A1]),
                Tm(&[G0], &[A7], &[Instance, A1, Push, ID, END_0]),
                TmEq(
                    &[CtxFace, G0, P3],
                    &[A7],
                    &[Instance, B5, Push, ID, END_0],
                    &[Instance, A1, Push, ID, END_0],
                ),
                TmEq(&[CtxName, CtxFace, G0, P3], &[B5], &[C6], &[A1]),
                TmEq(&[G0], &[A7], &[K8], &[Instance, A1, Push, ID, END_0]),
            ],
            sides: &[
                Test::IsFace(&[G0], &[P3]),
                Test::IsFace(&[G0], &[Q4]),
                Test::Holds(&[CtxFace, G0, P3], &[Q4]),
                Test::Holds(&[CtxFace, G0, Q4], &[P3]),
            ],
            gives: TmEq(
                &[G0],
                &[COMP, A1, P3, B5, A7],
                &[COMP, B2, Q4, C6, K8],
                &[Instance, A1, Push, ID, END_1],
            ),
        },
        CompRule::CompPi => Schema {
            wants: &[
                Ty(&[CtxName, G0], &[A1]),
                Ty(&[CtxVar, CtxName, G0, A1], &[B2]),
                Tm(&[CtxName, CtxFace, G0, P3], &[B4], &[PI, A1, B2]),
                Tm(&[G0], &[A5], &[Instance, PI, A1, B2, Push, ID, END_0]),
                TmEq(
                    &[CtxFace, G0, P3],
                    &[A5],
                    &[Instance, B4, Push, ID, END_0],
                    &[Instance, PI, A1, B2, Push, ID, END_0],
                ),
            ],
            sides: &[Test::IsFace(&[G0], &[P3])],
            gives: TmEq(
                &[G0],
                &[COMP, PI, A1, B2, P3, B4, A5],
                &[COMP_PI, A1, B2, P3, B4, A5],
                &[Instance, PI, A1, B2, Push, ID, END_1],
            ),
        },
        CompRule::CompSig => Schema {
            wants: &[
                Ty(&[CtxName, G0], &[A1]),
                Ty(&[CtxVar, CtxName, G0, A1], &[B2]),
                Tm(&[CtxName, CtxFace, G0, P3], &[B4], &[SIG, A1, B2]),
                Tm(&[G0], &[A5], &[Instance, SIG, A1, B2, Push, ID, END_0]),
                TmEq(
                    &[CtxFace, G0, P3],
                    &[A5],
                    &[Instance, B4, Push, ID, END_0],
                    &[Instance, SIG, A1, B2, Push, ID, END_0],
                ),
            ],
            sides: &[Test::IsFace(&[G0], &[P3])],
            gives: TmEq(
                &[G0],
                &[COMP, SIG, A1, B2, P3, B4, A5],
                &[COMP_SIG, A1, B2, P3, B4, A5],
                &[Instance, SIG, A1, B2, Push, ID, END_1],
            ),
        },
        CompRule::CompPath => Schema {
            wants: &[
                Ty(&[CtxName, CtxName, G0], &[A1]),
                Tm(&[CtxName, G0], &[U2], &[Instance, A1, Push, ID, END_0]),
                Tm(&[CtxName, G0], &[V3], &[Instance, A1, Push, ID, END_1]),
                Tm(&[CtxName, CtxFace, G0, P4], &[B5], &[PATHP, A1, U2, V3]),
                Tm(
                    &[G0],
                    &[A6],
                    &[Instance, PATHP, A1, U2, V3, Push, ID, END_0],
                ),
                TmEq(
                    &[CtxFace, G0, P4],
                    &[A6],
                    &[Instance, B5, Push, ID, END_0],
                    &[Instance, PATHP, A1, U2, V3, Push, ID, END_0],
                ),
            ],
            sides: &[Test::IsFace(&[G0], &[P4])],
            gives: TmEq(
                &[G0],
                &[COMP, PATHP, A1, U2, V3, P4, B5, A6],
                &[COMP_PATH, A1, U2, V3, P4, B5, A6],
                &[Instance, PATHP, A1, U2, V3, Push, ID, END_1],
            ),
        },
        CompRule::CompZero => Schema {
            wants: &[Ctx(&[G0])],
            sides: &[Test::IsFace(&[G0], &[P1])],
            gives: TmEq(&[G0], &[COMP, NAT, P1, ZERO, ZERO], &[ZERO], &[NAT]),
        },
        CompRule::CompSuc => Schema {
            wants: &[
                Tm(&[CtxName, CtxFace, G0, P1], &[N2], &[NAT]),
                Tm(&[G0], &[M3], &[NAT]),
                TmEq(
                    &[CtxFace, G0, P1],
                    &[M3],
                    &[Instance, N2, Push, ID, END_0],
                    &[NAT],
                ),
            ],
            sides: &[Test::IsFace(&[G0], &[P1])],
            gives: TmEq(
                &[G0],
                &[COMP, NAT, P1, SUC, N2, SUC, M3],
                &[SUC, COMP, NAT, P1, N2, M3],
                &[NAT],
            ),
        },
        CompRule::CompGlue => Schema {
            wants: &[
                Ty(&[CtxName, G0], &[A1]),
                Ty(&[CtxFace, CtxName, G0, Q2], &[T3]),
                Tm(&[CtxFace, CtxName, G0, Q2], &[W4], &[EQUIV, T3, A1]),
                Tm(
                    &[CtxName, CtxFace, G0, P5],
                    &[B6],
                    &[GLUE_TYPE, A1, Q2, T3, W4],
                ),
                Tm(
                    &[G0],
                    &[A7],
                    &[Instance, GLUE_TYPE, A1, Q2, T3, W4, Push, ID, END_0],
                ),
                TmEq(
                    &[CtxFace, G0, P5],
                    &[A7],
                    &[Instance, B6, Push, ID, END_0],
                    &[Instance, GLUE_TYPE, A1, Q2, T3, W4, Push, ID, END_0],
                ),
            ],
            sides: &[
                Test::IsFace(&[G0], &[P5]),
                Test::IsFace(&[CtxName, G0], &[Q2]),
            ],
            gives: TmEq(
                &[G0],
                &[COMP, GLUE_TYPE, A1, Q2, T3, W4, P5, B6, A7],
                &[COMP_GLUE, A1, Q2, T3, W4, P5, B6, A7],
                &[Instance, GLUE_TYPE, A1, Q2, T3, W4, Push, ID, END_1],
            ),
        },
        CompRule::CompU => Schema {
            wants: &[
                Tm(&[CtxName, CtxFace, G0, P1], &[B2], &[UNIVERSE]),
                Tm(&[G0], &[A3], &[UNIVERSE]),
                TmEq(
                    &[CtxFace, G0, P1],
                    &[A3],
                    &[Instance, B2, Push, ID, END_0],
                    &[UNIVERSE],
                ),
            ],
            sides: &[Test::IsFace(&[G0], &[P1])],
            gives: TmEq(
                &[G0],
                &[COMP, UNIVERSE, P1, B2, A3],
                &[COMP_U, P1, B2, A3],
                &[UNIVERSE],
            ),
        },
    }
}
