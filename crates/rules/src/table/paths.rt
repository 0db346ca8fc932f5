//! The rules of paths.

ghost use Rattle.theory.specs.declared.rule.RuleName.TheVariants.{Paths};
ghost use Rattle.rules.specs.Schemas.{Means};

use super::named::{
    A1, A2, A3, A4, B2, C1, END_0, END_1, G0, ID, K2, PAPP, PATHP, PLAM, R2, R3, U2, U3, U4, U5,
    UNIVERSE, UP, V3, V4, V5, V6, X4, Y6,
};
use crate::instruction::Instruction::{CtxName, Instance, Push, Var};
use crate::program::Program::{Tm, TmEq, Ty, TyEq};
use crate::program::{Schema, Test};
use theory::PathRule;

/// The programs of a rule of this family.
pub fn path_schema(rule: PathRule) -> Schema
    ensures { Means (Paths rule) result }
{
    match rule {
        PathRule::PathTy => Schema {
            wants: &[
                Ty(&[CtxName, G0], &[A1]),
                Tm(&[G0], &[U2], &[Instance, A1, Push, ID, END_0]),
                Tm(&[G0], &[V3], &[Instance, A1, Push, ID, END_1]),
            ],
            sides: &[],
            gives: Ty(&[G0], &[PATHP, A1, U2, V3]),
        },
        PathRule::PathU => Schema {
            wants: &[
                Tm(&[CtxName, G0], &[A1], &[UNIVERSE]),
                Tm(&[G0], &[U2], &[Instance, A1, Push, ID, END_0]),
                Tm(&[G0], &[V3], &[Instance, A1, Push, ID, END_1]),
            ],
            sides: &[],
            gives: Tm(&[G0], &[PATHP, A1, U2, V3], &[UNIVERSE]),
        },
        PathRule::PathTyCong => Schema {
            wants: &[
                TyEq(&[CtxName, G0], &[A1], &[B2]),
                TmEq(&[G0], &[U3], &[X4], &[Instance, A1, Push, ID, END_0]),
                TmEq(&[G0], &[V5], &[Y6], &[Instance, A1, Push, ID, END_1]),
            ],
            sides: &[],
            gives: TyEq(&[G0], &[PATHP, A1, U3, V5], &[PATHP, B2, X4, Y6]),
        },
        PathRule::PathUCong => Schema {
            wants: &[
                TmEq(&[CtxName, G0], &[A1], &[B2], &[UNIVERSE]),
                TmEq(&[G0], &[U3], &[X4], &[Instance, A1, Push, ID, END_0]),
                TmEq(&[G0], &[V5], &[Y6], &[Instance, A1, Push, ID, END_1]),
            ],
            sides: &[],
            gives: TmEq(
                &[G0],
                &[PATHP, A1, U3, V5],
                &[PATHP, B2, X4, Y6],
                &[UNIVERSE],
            ),
        },
        PathRule::PLam => Schema {
            wants: &[
                Tm(&[CtxName, G0], &[B2], &[A1]),
                TmEq(
                    &[G0],
                    &[Instance, B2, Push, ID, END_0],
                    &[U3],
                    &[Instance, A1, Push, ID, END_0],
                ),
                TmEq(
                    &[G0],
                    &[Instance, B2, Push, ID, END_1],
                    &[V4],
                    &[Instance, A1, Push, ID, END_1],
                ),
            ],
            sides: &[],
            gives: Tm(&[G0], &[PLAM, B2], &[PATHP, A1, U3, V4]),
        },
        PathRule::PApp => Schema {
            wants: &[Tm(&[G0], &[C1], &[PATHP, A3, U4, V5])],
            sides: &[Test::IsFormula(&[G0], &[R2])],
            gives: Tm(&[G0], &[PAPP, C1, R2], &[Instance, A3, Push, ID, R2]),
        },
        PathRule::PAppCong => Schema {
            wants: &[TmEq(&[G0], &[C1], &[K2], &[PATHP, A4, U5, V6])],
            sides: &[Test::IsFormula(&[G0], &[R3])],
            gives: TmEq(
                &[G0],
                &[PAPP, C1, R3],
                &[PAPP, K2, R3],
                &[Instance, A4, Push, ID, R3],
            ),
        },
        PathRule::PathLeft => Schema {
            wants: &[Tm(&[G0], &[C1], &[PATHP, A2, U3, V4])],
            sides: &[],
            gives: TmEq(
                &[G0],
                &[PAPP, C1, END_0],
                &[U3],
                &[Instance, A2, Push, ID, END_0],
            ),
        },
        PathRule::PathRight => Schema {
            wants: &[Tm(&[G0], &[C1], &[PATHP, A2, U3, V4])],
            sides: &[],
            gives: TmEq(
                &[G0],
                &[PAPP, C1, END_1],
                &[V4],
                &[Instance, A2, Push, ID, END_1],
            ),
        },
        PathRule::PathBeta => Schema {
            wants: &[Tm(&[CtxName, G0], &[B2], &[A1])],
            sides: &[Test::IsFormula(&[G0], &[R3])],
            gives: TmEq(
                &[G0],
                &[PAPP, PLAM, B2, R3],
                &[Instance, B2, Push, ID, R3],
                &[Instance, A1, Push, ID, R3],
            ),
        },
        PathRule::PathEta => Schema {
            wants: &[
                Tm(&[G0], &[C1], &[PATHP, A3, U4, V5]),
                Tm(&[G0], &[K2], &[PATHP, A3, U4, V5]),
                TmEq(
                    &[CtxName, G0],
                    &[PAPP, Instance, C1, UP, Var(0)],
                    &[PAPP, Instance, K2, UP, Var(0)],
                    &[A3],
                ),
            ],
            sides: &[],
            gives: TmEq(&[G0], &[C1], &[K2], &[PATHP, A3, U4, V5]),
        },
    }
}
