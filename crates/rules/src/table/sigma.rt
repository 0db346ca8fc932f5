//! The rules of pairs.

ghost use Rattle.theory.specs.declared.rule.RuleName.TheVariants.{Sigma};
ghost use Rattle.rules.specs.Schemas.{Means};

use super::named::{A1, A2, A3, B2, B3, B4, C1, C2, D4, FST, G0, ID, K2, PAIR, SIG, SND, UNIVERSE};
use crate::instruction::Instruction::{CtxVar, Instance, Push};
use crate::program::Program::{Tm, TmEq, Ty, TyEq};
use crate::program::{Program, Schema};
use theory::SigmaRule;

/// The premises of `pair`.
const PAIR_WANTS: &[Program] = &[
    Ty(&[CtxVar, G0, A3], &[B4]),
    Tm(&[G0], &[A1], &[A3]),
    Tm(&[G0], &[B2], &[Instance, B4, Push, ID, A1]),
];

/// The programs of a rule of this family.
pub fn sigma_schema(rule: SigmaRule) -> Schema
    ensures { Means (Sigma rule) result }
{
    match rule {
        SigmaRule::SigTy => Schema {
            wants: &[Ty(&[G0], &[A1]), Ty(&[CtxVar, G0, A1], &[B2])],
            sides: &[],
            gives: Ty(&[G0], &[SIG, A1, B2]),
        },
        SigmaRule::SigU => Schema {
            wants: &[
                Tm(&[G0], &[A1], &[UNIVERSE]),
                Tm(&[CtxVar, G0, A1], &[B2], &[UNIVERSE]),
            ],
            sides: &[],
            gives: Tm(&[G0], &[SIG, A1, B2], &[UNIVERSE]),
        },
        SigmaRule::SigTyCong => Schema {
            wants: &[
                TyEq(&[G0], &[A1], &[C2]),
                TyEq(&[CtxVar, G0, A1], &[B3], &[D4]),
            ],
            sides: &[],
            gives: TyEq(&[G0], &[SIG, A1, B3], &[SIG, C2, D4]),
        },
        SigmaRule::SigUCong => Schema {
            wants: &[
                TmEq(&[G0], &[A1], &[C2], &[UNIVERSE]),
                TmEq(&[CtxVar, G0, A1], &[B3], &[D4], &[UNIVERSE]),
            ],
            sides: &[],
            gives: TmEq(&[G0], &[SIG, A1, B3], &[SIG, C2, D4], &[UNIVERSE]),
        },
        SigmaRule::Pair => Schema {
            wants: PAIR_WANTS,
            sides: &[],
            gives: Tm(&[G0], &[PAIR, A1, B2], &[SIG, A3, B4]),
        },
        SigmaRule::Fst => Schema {
            wants: &[Tm(&[G0], &[C1], &[SIG, A2, B3])],
            sides: &[],
            gives: Tm(&[G0], &[FST, C1], &[A2]),
        },
        SigmaRule::Snd => Schema {
            wants: &[Tm(&[G0], &[C1], &[SIG, A2, B3])],
            sides: &[],
            gives: Tm(&[G0], &[SND, C1], &[Instance, B3, Push, ID, FST, C1]),
        },
        SigmaRule::FstCong => Schema {
            wants: &[TmEq(&[G0], &[C1], &[K2], &[SIG, A3, B4])],
            sides: &[],
            gives: TmEq(&[G0], &[FST, C1], &[FST, K2], &[A3]),
        },
        SigmaRule::SndCong => Schema {
            wants: &[TmEq(&[G0], &[C1], &[K2], &[SIG, A3, B4])],
            sides: &[],
            gives: TmEq(
                &[G0],
                &[SND, C1],
                &[SND, K2],
                &[Instance, B4, Push, ID, FST, C1],
            ),
        },
        SigmaRule::SigBeta1 => Schema {
            wants: PAIR_WANTS,
            sides: &[],
            gives: TmEq(&[G0], &[FST, PAIR, A1, B2], &[A1], &[A3]),
        },
        SigmaRule::SigBeta2 => Schema {
            wants: PAIR_WANTS,
            sides: &[],
            gives: TmEq(
                &[G0],
                &[SND, PAIR, A1, B2],
                &[B2],
                &[Instance, B4, Push, ID, A1],
            ),
        },
        SigmaRule::SigEta => Schema {
            wants: &[
                Tm(&[G0], &[C1], &[SIG, A3, B4]),
                Tm(&[G0], &[K2], &[SIG, A3, B4]),
                TmEq(&[G0], &[FST, C1], &[FST, K2], &[A3]),
                TmEq(
                    &[G0],
                    &[SND, C1],
                    &[SND, K2],
                    &[Instance, B4, Push, ID, FST, C1],
                ),
            ],
            sides: &[],
            gives: TmEq(&[G0], &[C1], &[K2], &[SIG, A3, B4]),
        },
    }
}
