//! The rules of systems.

ghost use Rattle.theory.specs.declared.rule.RuleName.TheVariants.{Systems};
ghost use Rattle.rules.specs.Schemas.{Means};

use super::named::{A1, A3, A5, B4, EMPTY, G0, JOIN, NO_FACE, P1, Q2, SYS};
use crate::instruction::Instruction::CtxFace;
use crate::program::Program::{Ctx, Tm, TmEq, Ty, TyEq};
use crate::program::{Program, Schema, Test};
use theory::SystemRule;

/// The premises of `sys.ty`.
const SYS_TY_WANTS: &[Program] = &[
    Ty(&[CtxFace, G0, P1], &[A3]),
    Ty(&[CtxFace, G0, Q2], &[B4]),
    TyEq(&[CtxFace, CtxFace, G0, P1, Q2], &[A3], &[B4]),
];

/// The premises of `sys.tm`.
const SYS_TM_WANTS: &[Program] = &[
    Ty(&[G0], &[A5]),
    Tm(&[CtxFace, G0, P1], &[A3], &[A5]),
    Tm(&[CtxFace, G0, Q2], &[B4], &[A5]),
    TmEq(&[CtxFace, CtxFace, G0, P1, Q2], &[A3], &[B4], &[A5]),
];

/// The programs of a rule of this family.
pub fn system_schema(rule: SystemRule) -> Schema
    ensures { Means (Systems rule) result }
{
    match rule {
        SystemRule::SysTy => Schema {
            wants: SYS_TY_WANTS,
            sides: &[
                Test::IsFace(&[G0], &[P1]),
                Test::IsFace(&[G0], &[Q2]),
                Test::Holds(&[G0], &[JOIN, P1, Q2]),
            ],
            gives: Ty(&[G0], &[SYS, P1, Q2, A3, B4]),
        },
        SystemRule::SysTm => Schema {
            wants: SYS_TM_WANTS,
            sides: &[
                Test::IsFace(&[G0], &[P1]),
                Test::IsFace(&[G0], &[Q2]),
                Test::Holds(&[G0], &[JOIN, P1, Q2]),
            ],
            gives: Tm(&[G0], &[SYS, P1, Q2, A3, B4], &[A5]),
        },
        SystemRule::SysTyLeft => Schema {
            wants: SYS_TY_WANTS,
            sides: &[
                Test::IsFace(&[G0], &[P1]),
                Test::IsFace(&[G0], &[Q2]),
                Test::Holds(&[G0], &[JOIN, P1, Q2]),
            ],
            gives: TyEq(&[CtxFace, G0, P1], &[SYS, P1, Q2, A3, B4], &[A3]),
        },
        SystemRule::SysTyRight => Schema {
            wants: SYS_TY_WANTS,
            sides: &[
                Test::IsFace(&[G0], &[P1]),
                Test::IsFace(&[G0], &[Q2]),
                Test::Holds(&[G0], &[JOIN, P1, Q2]),
            ],
            gives: TyEq(&[CtxFace, G0, Q2], &[SYS, P1, Q2, A3, B4], &[B4]),
        },
        SystemRule::SysLeft => Schema {
            wants: SYS_TM_WANTS,
            sides: &[
                Test::IsFace(&[G0], &[P1]),
                Test::IsFace(&[G0], &[Q2]),
                Test::Holds(&[G0], &[JOIN, P1, Q2]),
            ],
            gives: TmEq(&[CtxFace, G0, P1], &[SYS, P1, Q2, A3, B4], &[A3], &[A5]),
        },
        SystemRule::SysRight => Schema {
            wants: SYS_TM_WANTS,
            sides: &[
                Test::IsFace(&[G0], &[P1]),
                Test::IsFace(&[G0], &[Q2]),
                Test::Holds(&[G0], &[JOIN, P1, Q2]),
            ],
            gives: TmEq(&[CtxFace, G0, Q2], &[SYS, P1, Q2, A3, B4], &[B4], &[A5]),
        },
        SystemRule::EmptyTy => Schema {
            wants: &[Ctx(&[G0])],
            sides: &[Test::Holds(&[G0], &[NO_FACE])],
            gives: Ty(&[G0], &[EMPTY]),
        },
        SystemRule::EmptyTm => Schema {
            wants: &[Ty(&[G0], &[A1])],
            sides: &[Test::Holds(&[G0], &[NO_FACE])],
            gives: Tm(&[G0], &[EMPTY], &[A1]),
        },
    }
}
