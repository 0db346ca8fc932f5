//! The rules of the universe.

ghost use Rattle.theory.specs.declared.rule.RuleName.TheVariants.{Universe};
ghost use Rattle.rules.specs.Schemas.{Means};

use super::named::{A1, B2, G0, UNIVERSE};
use crate::program::Program::{Ctx, Tm, TmEq, Ty, TyEq};
use crate::program::Schema;
use theory::UniverseRule;

/// The programs of a rule of this family.
pub fn universe_schema(rule: UniverseRule) -> Schema
    ensures { Means (Universe rule) result }
{
    match rule {
        UniverseRule::TyUniv => Schema {
            wants: &[Ctx(&[G0])],
            sides: &[],
            gives: Ty(&[G0], &[UNIVERSE]),
        },
        UniverseRule::TyU => Schema {
            wants: &[Tm(&[G0], &[A1], &[UNIVERSE])],
            sides: &[],
            gives: Ty(&[G0], &[A1]),
        },
        UniverseRule::TyEqU => Schema {
            wants: &[TmEq(&[G0], &[A1], &[B2], &[UNIVERSE])],
            sides: &[],
            gives: TyEq(&[G0], &[A1], &[B2]),
        },
    }
}
