//! The rules of Glue.

ghost use Rattle.theory.specs.declared.rule.RuleName.TheVariants.{Gluing};
ghost use Rattle.rules.specs.Schemas.{Means};

use super::named::{
    A1, A6, APP, B2, B5, B8, C5, C6, C9, EQUIV, FST, G0, GLUE, GLUE_TYPE, P2, P3, Q4, Q5, T3, T5,
    UNGLUE, UNIVERSE, V6, W4, W7, Z7, Z8,
};
use crate::instruction::Instruction::CtxFace;
use crate::program::Program::{Tm, TmEq, Ty, TyEq};
use crate::program::{Program, Schema, Test};
use theory::GlueRule;

/// The premises of `glue.ty`.
const GLUE_TY_WANTS: &[Program] = &[
    Ty(&[G0], &[A1]),
    Ty(&[CtxFace, G0, P2], &[T3]),
    Tm(&[CtxFace, G0, P2], &[W4], &[EQUIV, T3, A1]),
];

/// The premises of `glue.u`.
const GLUE_U_WANTS: &[Program] = &[
    Tm(&[G0], &[A1], &[UNIVERSE]),
    Tm(&[CtxFace, G0, P2], &[T3], &[UNIVERSE]),
    Tm(&[CtxFace, G0, P2], &[W4], &[EQUIV, T3, A1]),
];

/// The premises of `glue`.
const GLUE_WANTS: &[Program] = &[
    Ty(&[G0], &[A1]),
    Ty(&[CtxFace, G0, P2], &[T3]),
    Tm(&[CtxFace, G0, P2], &[W4], &[EQUIV, T3, A1]),
    Tm(&[CtxFace, G0, P2], &[C5], &[T3]),
    Tm(&[G0], &[A6], &[A1]),
    TmEq(&[CtxFace, G0, P2], &[APP, FST, W4, C5], &[A6], &[A1]),
];

/// The premises of `unglue`.
const UNGLUE_WANTS: &[Program] = &[
    Ty(&[G0], &[A1]),
    Ty(&[CtxFace, G0, P2], &[T3]),
    Tm(&[CtxFace, G0, P2], &[W4], &[EQUIV, T3, A1]),
    Tm(&[G0], &[B5], &[GLUE_TYPE, A1, P2, T3, W4]),
];

/// The programs of a rule of this family.
pub fn glue_schema(rule: GlueRule) -> Schema
    ensures { Means (Gluing rule) result }
{
    match rule {
        GlueRule::GlueTy => Schema {
            wants: GLUE_TY_WANTS,
            sides: &[Test::IsFace(&[G0], &[P2])],
            gives: Ty(&[G0], &[GLUE_TYPE, A1, P2, T3, W4]),
        },
        GlueRule::GlueU => Schema {
            wants: GLUE_U_WANTS,
            sides: &[Test::IsFace(&[G0], &[P2])],
            gives: Tm(&[G0], &[GLUE_TYPE, A1, P2, T3, W4], &[UNIVERSE]),
        },
        GlueRule::GlueTyFace => Schema {
            wants: GLUE_TY_WANTS,
            sides: &[Test::IsFace(&[G0], &[P2])],
            gives: TyEq(&[CtxFace, G0, P2], &[GLUE_TYPE, A1, P2, T3, W4], &[T3]),
        },
        GlueRule::GlueUFace => Schema {
            wants: GLUE_U_WANTS,
            sides: &[Test::IsFace(&[G0], &[P2])],
            gives: TmEq(
                &[CtxFace, G0, P2],
                &[GLUE_TYPE, A1, P2, T3, W4],
                &[T3],
                &[UNIVERSE],
            ),
        },
        GlueRule::GlueTyCong => Schema {
            wants: &[
                TyEq(&[G0], &[A1], &[B2]),
                TyEq(&[CtxFace, G0, P3], &[T5], &[V6]),
                TmEq(&[CtxFace, G0, P3], &[W7], &[Z8], &[EQUIV, T5, A1]),
            ],
            sides: &[
                Test::IsFace(&[G0], &[P3]),
                Test::IsFace(&[G0], &[Q4]),
                Test::Holds(&[CtxFace, G0, P3], &[Q4]),
                Test::Holds(&[CtxFace, G0, Q4], &[P3]),
            ],
            gives: TyEq(
                &[G0],
                &[GLUE_TYPE, A1, P3, T5, W7],
                &[GLUE_TYPE, B2, Q4, V6, Z8],
            ),
        },
        GlueRule::GlueUCong => Schema {
            wants: &[
                TmEq(&[G0], &[A1], &[B2], &[UNIVERSE]),
                TmEq(&[CtxFace, G0, P3], &[T5], &[V6], &[UNIVERSE]),
                TmEq(&[CtxFace, G0, P3], &[W7], &[Z8], &[EQUIV, T5, A1]),
            ],
            sides: &[
                Test::IsFace(&[G0], &[P3]),
                Test::IsFace(&[G0], &[Q4]),
                Test::Holds(&[CtxFace, G0, P3], &[Q4]),
                Test::Holds(&[CtxFace, G0, Q4], &[P3]),
            ],
            gives: TmEq(
                &[G0],
                &[GLUE_TYPE, A1, P3, T5, W7],
                &[GLUE_TYPE, B2, Q4, V6, Z8],
                &[UNIVERSE],
            ),
        },
        GlueRule::Glue => Schema {
            wants: GLUE_WANTS,
            sides: &[Test::IsFace(&[G0], &[P2])],
            gives: Tm(&[G0], &[GLUE, P2, C5, A6], &[GLUE_TYPE, A1, P2, T3, W4]),
        },
        GlueRule::GlueFace => Schema {
            wants: GLUE_WANTS,
            sides: &[Test::IsFace(&[G0], &[P2])],
            gives: TmEq(&[CtxFace, G0, P2], &[GLUE, P2, C5, A6], &[C5], &[T3]),
        },
        GlueRule::Unglue => Schema {
            wants: UNGLUE_WANTS,
            sides: &[Test::IsFace(&[G0], &[P2])],
            gives: Tm(&[G0], &[UNGLUE, P2, T3, W4, B5], &[A1]),
        },
        GlueRule::UnglueFace => Schema {
            wants: UNGLUE_WANTS,
            sides: &[Test::IsFace(&[G0], &[P2])],
            gives: TmEq(
                &[CtxFace, G0, P2],
                &[UNGLUE, P2, T3, W4, B5],
                &[APP, FST, W4, B5],
                &[A1],
            ),
        },
        GlueRule::UnglueCong => Schema {
            wants: &[
                Ty(&[G0], &[A1]),
                Ty(&[CtxFace, G0, P2], &[T3]),
                Tm(&[CtxFace, G0, P2], &[W4], &[EQUIV, T3, A1]),
                TyEq(&[CtxFace, G0, P2], &[T3], &[V6]),
                TmEq(&[CtxFace, G0, P2], &[W4], &[Z7], &[EQUIV, T3, A1]),
                TmEq(&[G0], &[B8], &[C9], &[GLUE_TYPE, A1, P2, T3, W4]),
            ],
            sides: &[
                Test::IsFace(&[G0], &[P2]),
                Test::IsFace(&[G0], &[Q5]),
                Test::Holds(&[CtxFace, G0, P2], &[Q5]),
                Test::Holds(&[CtxFace, G0, Q5], &[P2]),
            ],
            gives: TmEq(
                &[G0],
                &[UNGLUE, P2, T3, W4, B8],
                &[UNGLUE, Q5, V6, Z7, C9],
                &[A1],
            ),
        },
        GlueRule::GlueBeta => Schema {
            wants: GLUE_WANTS,
            sides: &[Test::IsFace(&[G0], &[P2])],
            gives: TmEq(&[G0], &[UNGLUE, P2, T3, W4, GLUE, P2, C5, A6], &[A6], &[A1]),
        },
        GlueRule::GlueEta => Schema {
            wants: &[
                Ty(&[G0], &[A1]),
                Ty(&[CtxFace, G0, P2], &[T3]),
                Tm(&[CtxFace, G0, P2], &[W4], &[EQUIV, T3, A1]),
                Tm(&[G0], &[B5], &[GLUE_TYPE, A1, P2, T3, W4]),
                Tm(&[G0], &[C6], &[GLUE_TYPE, A1, P2, T3, W4]),
                TmEq(
                    &[G0],
                    &[UNGLUE, P2, T3, W4, B5],
                    &[UNGLUE, P2, T3, W4, C6],
                    &[A1],
                ),
                TmEq(&[CtxFace, G0, P2], &[B5], &[C6], &[T3]),
            ],
            sides: &[Test::IsFace(&[G0], &[P2])],
            gives: TmEq(&[G0], &[B5], &[C6], &[GLUE_TYPE, A1, P2, T3, W4]),
        },
    }
}
