//! The rules of the natural numbers.

ghost use Rattle.theory.specs.declared.rule.RuleName.TheVariants.{Naturals};
ghost use Rattle.rules.specs.Schemas.{Means};

use super::named::{
    A2, A3, APP, B3, B5, C4, G0, ID, K6, M2, M8, N1, N4, N7, NAT, NATREC, P1, PI, Q2, SUC,
    UNIVERSE, ZERO,
};
use crate::instruction::Instruction::{CtxVar, Instance, Push, Shift, Var};
use crate::program::Program::{Ctx, Tm, TmEq, Ty, TyEq};
use crate::program::{Program, Schema};
use theory::NatRule;

/// The premises of `natrec`.
const NATREC_WANTS: &[Program] = &[
    Ty(&[CtxVar, G0, NAT], &[P1]),
    Tm(&[G0], &[A2], &[Instance, P1, Push, ID, ZERO]),
    Tm(
        &[G0],
        &[B3],
        &[PI, NAT, PI, P1, Instance, P1, Push, Shift(2), SUC, Var(1)],
    ),
    Tm(&[G0], &[N4], &[NAT]),
];

/// The programs of a rule of this family.
pub fn nat_schema(rule: NatRule) -> Schema
    ensures { Means (Naturals rule) result }
{
    match rule {
        NatRule::NatU => Schema {
            wants: &[Ctx(&[G0])],
            sides: &[],
            gives: Tm(&[G0], &[NAT], &[UNIVERSE]),
        },
        NatRule::Zero => Schema {
            wants: &[Ctx(&[G0])],
            sides: &[],
            gives: Tm(&[G0], &[ZERO], &[NAT]),
        },
        NatRule::Suc => Schema {
            wants: &[Tm(&[G0], &[N1], &[NAT])],
            sides: &[],
            gives: Tm(&[G0], &[SUC, N1], &[NAT]),
        },
        NatRule::SucCong => Schema {
            wants: &[TmEq(&[G0], &[N1], &[M2], &[NAT])],
            sides: &[],
            gives: TmEq(&[G0], &[SUC, N1], &[SUC, M2], &[NAT]),
        },
        NatRule::NatRec => Schema {
            wants: NATREC_WANTS,
            sides: &[],
            gives: Tm(
                &[G0],
                &[NATREC, P1, A2, B3, N4],
                &[Instance, P1, Push, ID, N4],
            ),
        },
        NatRule::NatRecCong => Schema {
            wants: &[
                TyEq(&[CtxVar, G0, NAT], &[P1], &[Q2]),
                TmEq(&[G0], &[A3], &[C4], &[Instance, P1, Push, ID, ZERO]),
                TmEq(
                    &[G0],
                    &[B5],
                    &[K6],
                    &[PI, NAT, PI, P1, Instance, P1, Push, Shift(2), SUC, Var(1)],
                ),
                TmEq(&[G0], &[N7], &[M8], &[NAT]),
            ],
            sides: &[],
            gives: TmEq(
                &[G0],
                &[NATREC, P1, A3, B5, N7],
                &[NATREC, Q2, C4, K6, M8],
                &[Instance, P1, Push, ID, N7],
            ),
        },
        NatRule::NatRecZero => Schema {
            wants: &[
                Ty(&[CtxVar, G0, NAT], &[P1]),
                Tm(&[G0], &[A2], &[Instance, P1, Push, ID, ZERO]),
                Tm(
                    &[G0],
                    &[B3],
                    &[PI, NAT, PI, P1, Instance, P1, Push, Shift(2), SUC, Var(1)],
                ),
            ],
            sides: &[],
            gives: TmEq(
                &[G0],
                &[NATREC, P1, A2, B3, ZERO],
                &[A2],
                &[Instance, P1, Push, ID, ZERO],
            ),
        },
        NatRule::NatRecSuc => Schema {
            wants: NATREC_WANTS,
            sides: &[],
            gives: TmEq(
                &[G0],
                &[NATREC, P1, A2, B3, SUC, N4],
                &[APP, APP, B3, N4, NATREC, P1, A2, B3, N4],
                &[Instance, P1, Push, ID, SUC, N4],
            ),
        },
    }
}
