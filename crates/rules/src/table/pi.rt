//! The rules of functions.

ghost use Rattle.theory.specs.declared.rule.RuleName.TheVariants.{Pi};
ghost use Rattle.rules.specs.Schemas.{Means};

use super::named::{
    A1, A2, A3, A5, APP, B2, B3, B4, B6, C2, D4, F1, G0, G2, ID, LAM, PI, UNIVERSE, UP,
};
use crate::instruction::Instruction::{CtxVar, Instance, Push, Var};
use crate::program::Program::{Tm, TmEq, Ty, TyEq};
use crate::program::Schema;
use theory::PiRule;

/// The programs of a rule of this family.
pub fn pi_schema(rule: PiRule) -> Schema
    ensures { Means (Pi rule) result }
{
    match rule {
        PiRule::PiTy => Schema {
            wants: &[Ty(&[G0], &[A1]), Ty(&[CtxVar, G0, A1], &[B2])],
            sides: &[],
            gives: Ty(&[G0], &[PI, A1, B2]),
        },
        PiRule::PiU => Schema {
            wants: &[
                Tm(&[G0], &[A1], &[UNIVERSE]),
                Tm(&[CtxVar, G0, A1], &[B2], &[UNIVERSE]),
            ],
            sides: &[],
            gives: Tm(&[G0], &[PI, A1, B2], &[UNIVERSE]),
        },
        PiRule::PiTyCong => Schema {
            wants: &[
                TyEq(&[G0], &[A1], &[C2]),
                TyEq(&[CtxVar, G0, A1], &[B3], &[D4]),
            ],
            sides: &[],
            gives: TyEq(&[G0], &[PI, A1, B3], &[PI, C2, D4]),
        },
        PiRule::PiUCong => Schema {
            wants: &[
                TmEq(&[G0], &[A1], &[C2], &[UNIVERSE]),
                TmEq(&[CtxVar, G0, A1], &[B3], &[D4], &[UNIVERSE]),
            ],
            sides: &[],
            gives: TmEq(&[G0], &[PI, A1, B3], &[PI, C2, D4], &[UNIVERSE]),
        },
        PiRule::Lam => Schema {
            wants: &[Ty(&[G0], &[A1]), Tm(&[CtxVar, G0, A1], &[B2], &[B3])],
            sides: &[],
            gives: Tm(&[G0], &[LAM, A1, B2], &[PI, A1, B3]),
        },
        PiRule::App => Schema {
            wants: &[Tm(&[G0], &[F1], &[PI, A3, B4]), Tm(&[G0], &[A2], &[A3])],
            sides: &[],
            gives: Tm(&[G0], &[APP, F1, A2], &[Instance, B4, Push, ID, A2]),
        },
        PiRule::AppCong => Schema {
            wants: &[
                TmEq(&[G0], &[F1], &[G2], &[PI, A5, B6]),
                TmEq(&[G0], &[A3], &[B4], &[A5]),
            ],
            sides: &[],
            gives: TmEq(
                &[G0],
                &[APP, F1, A3],
                &[APP, G2, B4],
                &[Instance, B6, Push, ID, A3],
            ),
        },
        PiRule::PiBeta => Schema {
            wants: &[Tm(&[CtxVar, G0, A1], &[B2], &[B4]), Tm(&[G0], &[A3], &[A1])],
            sides: &[],
            gives: TmEq(
                &[G0],
                &[APP, LAM, A1, B2, A3],
                &[Instance, B2, Push, ID, A3],
                &[Instance, B4, Push, ID, A3],
            ),
        },
        PiRule::PiEta => Schema {
            wants: &[
                Tm(&[G0], &[F1], &[PI, A3, B4]),
                Tm(&[G0], &[G2], &[PI, A3, B4]),
                TmEq(
                    &[CtxVar, G0, A3],
                    &[APP, Instance, F1, UP, Var(0)],
                    &[APP, Instance, G2, UP, Var(0)],
                    &[B4],
                ),
            ],
            sides: &[],
            gives: TmEq(&[G0], &[F1], &[G2], &[PI, A3, B4]),
        },
    }
}
