//! The rules of equality: an equivalence, kept by conversion, and decided on faces that cover all.

ghost use Rattle.theory.specs.declared.rule.RuleName.TheVariants.{Equality};
ghost use Rattle.rules.specs.Schemas.{Means};

use super::named::{A1, A2, A3, A4, A5, B2, B3, B4, C3, G0, JOIN, NO_FACE, P1, Q2};
use crate::instruction::Instruction::CtxFace;
use crate::program::Program::{Tm, TmEq, Ty, TyEq};
use crate::program::{Schema, Test};
use theory::EqualityRule;

/// The programs of a rule of this family.
pub fn equality_schema(rule: EqualityRule) -> Schema
    ensures { Means (Equality rule) result }
{
    match rule {
        EqualityRule::TyEqRefl => Schema {
            wants: &[Ty(&[G0], &[A1])],
            sides: &[],
            gives: TyEq(&[G0], &[A1], &[A1]),
        },
        EqualityRule::TyEqSym => Schema {
            wants: &[TyEq(&[G0], &[A1], &[B2])],
            sides: &[],
            gives: TyEq(&[G0], &[B2], &[A1]),
        },
        EqualityRule::TyEqTrans => Schema {
            wants: &[TyEq(&[G0], &[A1], &[B2]), TyEq(&[G0], &[B2], &[C3])],
            sides: &[],
            gives: TyEq(&[G0], &[A1], &[C3]),
        },
        EqualityRule::TmEqRefl => Schema {
            wants: &[Tm(&[G0], &[A1], &[A2])],
            sides: &[],
            gives: TmEq(&[G0], &[A1], &[A1], &[A2]),
        },
        EqualityRule::TmEqSym => Schema {
            wants: &[TmEq(&[G0], &[A1], &[B2], &[A3])],
            sides: &[],
            gives: TmEq(&[G0], &[B2], &[A1], &[A3]),
        },
        EqualityRule::TmEqTrans => Schema {
            wants: &[
                TmEq(&[G0], &[A1], &[B2], &[A4]),
                TmEq(&[G0], &[B2], &[C3], &[A4]),
            ],
            sides: &[],
            gives: TmEq(&[G0], &[A1], &[C3], &[A4]),
        },
        EqualityRule::TmConv => Schema {
            wants: &[Tm(&[G0], &[A1], &[A2]), TyEq(&[G0], &[A2], &[B3])],
            sides: &[],
            gives: Tm(&[G0], &[A1], &[B3]),
        },
        EqualityRule::TmEqConv => Schema {
            wants: &[TmEq(&[G0], &[A1], &[B2], &[A3]), TyEq(&[G0], &[A3], &[B4])],
            sides: &[],
            gives: TmEq(&[G0], &[A1], &[B2], &[B4]),
        },
        EqualityRule::TyEqCover => Schema {
            wants: &[
                Ty(&[G0], &[A3]),
                Ty(&[G0], &[B4]),
                TyEq(&[CtxFace, G0, P1], &[A3], &[B4]),
                TyEq(&[CtxFace, G0, Q2], &[A3], &[B4]),
            ],
            sides: &[
                Test::IsFace(&[G0], &[P1]),
                Test::IsFace(&[G0], &[Q2]),
                Test::Holds(&[G0], &[JOIN, P1, Q2]),
            ],
            gives: TyEq(&[G0], &[A3], &[B4]),
        },
        EqualityRule::TmEqCover => Schema {
            wants: &[
                Tm(&[G0], &[A3], &[A5]),
                Tm(&[G0], &[B4], &[A5]),
                TmEq(&[CtxFace, G0, P1], &[A3], &[B4], &[A5]),
                TmEq(&[CtxFace, G0, Q2], &[A3], &[B4], &[A5]),
            ],
            sides: &[
                Test::IsFace(&[G0], &[P1]),
                Test::IsFace(&[G0], &[Q2]),
                Test::Holds(&[G0], &[JOIN, P1, Q2]),
            ],
            gives: TmEq(&[G0], &[A3], &[B4], &[A5]),
        },
        EqualityRule::TyEqAbsurd => Schema {
            wants: &[Ty(&[G0], &[A1]), Ty(&[G0], &[B2])],
            sides: &[Test::Holds(&[G0], &[NO_FACE])],
            gives: TyEq(&[G0], &[A1], &[B2]),
        },
        EqualityRule::TmEqAbsurd => Schema {
            wants: &[Tm(&[G0], &[A1], &[A3]), Tm(&[G0], &[B2], &[A3])],
            sides: &[Test::Holds(&[G0], &[NO_FACE])],
            gives: TmEq(&[G0], &[A1], &[B2], &[A3]),
        },
    }
}
