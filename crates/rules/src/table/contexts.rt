//! The rules that conclude a context or a substitution.

ghost use Rattle.theory.specs.declared.rule.RuleName.TheVariants.{Contexts};
ghost use Rattle.rules.specs.Schemas.{Means};

use super::named::{A1, A3, A4, D1, D3, E1, G0, G2, G4, H0, H2, ID, K0, P1, P3, R3, UP};
use crate::instruction::Instruction::{CtxFace, CtxName, CtxNil, CtxVar, Instance, Push, Then};
use crate::program::Program::{Ctx, Sb, Tm, Ty};
use crate::program::{Schema, Test};
use theory::ContextRule;

/// The programs of a rule of this family.
pub fn context_schema(rule: ContextRule) -> Schema
    ensures { Means (Contexts rule) result }
{
    match rule {
        ContextRule::CtxNil => Schema {
            wants: &[],
            sides: &[],
            gives: Ctx(&[CtxNil]),
        },
        ContextRule::CtxVar => Schema {
            wants: &[Ty(&[G0], &[A1])],
            sides: &[],
            gives: Ctx(&[CtxVar, G0, A1]),
        },
        ContextRule::CtxName => Schema {
            wants: &[Ctx(&[G0])],
            sides: &[],
            gives: Ctx(&[CtxName, G0]),
        },
        ContextRule::CtxFace => Schema {
            wants: &[Ctx(&[G0])],
            sides: &[Test::IsFace(&[G0], &[P1])],
            gives: Ctx(&[CtxFace, G0, P1]),
        },
        ContextRule::SubId => Schema {
            wants: &[Ctx(&[G0])],
            sides: &[],
            gives: Sb(&[G0], &[ID], &[G0]),
        },
        ContextRule::SubWk => Schema {
            wants: &[Sb(&[H0], &[D1], &[G2]), Ty(&[H0], &[A3])],
            sides: &[],
            gives: Sb(&[CtxVar, H0, A3], &[Then, D1, UP], &[G2]),
        },
        ContextRule::SubWkName => Schema {
            wants: &[Sb(&[H0], &[D1], &[G2])],
            sides: &[],
            gives: Sb(&[CtxName, H0], &[Then, D1, UP], &[G2]),
        },
        ContextRule::SubWkFace => Schema {
            wants: &[Sb(&[H0], &[D1], &[G2])],
            sides: &[Test::IsFace(&[H0], &[P3])],
            gives: Sb(&[CtxFace, H0, P3], &[D1], &[G2]),
        },
        ContextRule::SubVar => Schema {
            wants: &[
                Sb(&[H0], &[D1], &[G2]),
                Ty(&[G2], &[A3]),
                Tm(&[H0], &[A4], &[Instance, A3, D1]),
            ],
            sides: &[],
            gives: Sb(&[H0], &[Push, D1, A4], &[CtxVar, G2, A3]),
        },
        ContextRule::SubForm => Schema {
            wants: &[Sb(&[H0], &[D1], &[G2])],
            sides: &[Test::IsFormula(&[H0], &[R3])],
            gives: Sb(&[H0], &[Push, D1, R3], &[CtxName, G2]),
        },
        ContextRule::SubFace => Schema {
            wants: &[Sb(&[H0], &[D1], &[G2])],
            sides: &[
                Test::IsFace(&[G2], &[P3]),
                Test::Holds(&[H0], &[Instance, P3, D1]),
            ],
            gives: Sb(&[H0], &[D1], &[CtxFace, G2, P3]),
        },
        ContextRule::SubComp => Schema {
            wants: &[Sb(&[K0], &[E1], &[H2]), Sb(&[H2], &[D3], &[G4])],
            sides: &[],
            gives: Sb(&[K0], &[Then, D3, E1], &[G4]),
        },
    }
}
