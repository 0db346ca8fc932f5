//! The rules that apply a substitution, and that of the variable.

ghost use Rattle.theory.specs.declared.rule.RuleName.TheVariants.{Instances};
ghost use Rattle.rules.specs.Schemas.{Means};

use super::named::{A1, A3, A4, A5, B4, B5, B6, B7, C4, C6, D1, E2, G0, G2, G3, H0, UP};
use crate::instruction::Instruction::{CtxVar, Instance, Push, Var};
use crate::program::Program::{Sb, Tm, TmEq, Ty, TyEq};
use crate::program::{Schema, Test};
use theory::InstanceRule;

/// The programs of a rule of this family.
pub fn instance_schema(rule: InstanceRule) -> Schema
    ensures { Means (Instances rule) result }
{
    match rule {
        InstanceRule::TySub => Schema {
            wants: &[Sb(&[H0], &[D1], &[G2]), Ty(&[G2], &[A3])],
            sides: &[],
            gives: Ty(&[H0], &[Instance, A3, D1]),
        },
        InstanceRule::TyEqSub => Schema {
            wants: &[Sb(&[H0], &[D1], &[G2]), TyEq(&[G2], &[A3], &[B4])],
            sides: &[],
            gives: TyEq(&[H0], &[Instance, A3, D1], &[Instance, B4, D1]),
        },
        InstanceRule::TmSub => Schema {
            wants: &[Sb(&[H0], &[D1], &[G2]), Tm(&[G2], &[A3], &[A4])],
            sides: &[],
            gives: Tm(&[H0], &[Instance, A3, D1], &[Instance, A4, D1]),
        },
        InstanceRule::TmEqSub => Schema {
            wants: &[Sb(&[H0], &[D1], &[G2]), TmEq(&[G2], &[A3], &[B4], &[A5])],
            sides: &[],
            gives: TmEq(
                &[H0],
                &[Instance, A3, D1],
                &[Instance, B4, D1],
                &[Instance, A5, D1],
            ),
        },
        InstanceRule::TyCong => Schema {
            wants: &[
                Sb(&[H0], &[D1], &[G2]),
                Ty(&[CtxVar, G2, A3], &[B6]),
                TmEq(&[H0], &[A4], &[B5], &[Instance, A3, D1]),
            ],
            sides: &[],
            gives: TyEq(
                &[H0],
                &[Instance, B6, Push, D1, A4],
                &[Instance, B6, Push, D1, B5],
            ),
        },
        InstanceRule::TmCong => Schema {
            wants: &[
                Sb(&[H0], &[D1], &[G2]),
                Tm(&[CtxVar, G2, A3], &[C6], &[B7]),
                TmEq(&[H0], &[A4], &[B5], &[Instance, A3, D1]),
            ],
            sides: &[],
            gives: TmEq(
                &[H0],
                &[Instance, C6, Push, D1, A4],
                &[Instance, C6, Push, D1, B5],
                &[Instance, B7, Push, D1, A4],
            ),
        },
        InstanceRule::TyInt => Schema {
            wants: &[
                Sb(&[H0], &[D1], &[G3]),
                Sb(&[H0], &[E2], &[G3]),
                Ty(&[G3], &[B4]),
            ],
            sides: &[Test::Alike(&[H0], &[D1], &[E2])],
            gives: TyEq(&[H0], &[Instance, B4, D1], &[Instance, B4, E2]),
        },
        InstanceRule::TmInt => Schema {
            wants: &[
                Sb(&[H0], &[D1], &[G3]),
                Sb(&[H0], &[E2], &[G3]),
                Tm(&[G3], &[C4], &[B5]),
            ],
            sides: &[Test::Alike(&[H0], &[D1], &[E2])],
            gives: TmEq(
                &[H0],
                &[Instance, C4, D1],
                &[Instance, C4, E2],
                &[Instance, B5, D1],
            ),
        },
        InstanceRule::TmVar => Schema {
            wants: &[Ty(&[G0], &[A1])],
            sides: &[],
            gives: Tm(&[CtxVar, G0, A1], &[Var(0)], &[Instance, A1, UP]),
        },
    }
}
