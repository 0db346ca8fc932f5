//! What stands behind the conclusions of a family of rules. Written by
//! tools/write_entries.py.

ghost use Rattle.std.specs.Prelude.{[], ◌∷◌, List};
ghost use Rattle.theory.specs.declared.rule.RuleName.TheVariants.{Universe};
ghost use Rattle.presuppositions.specs.declared.source.Label.TheVariants as label;
ghost use Rattle.presuppositions.specs.Entries.{Answers};
ghost use Rattle.recipes.specs.Statements.{Statement};

use crate::tyeq_u::{TYEQ_U_LEFT, TYEQ_U_RIGHT};
use Source::{Behind, Premise};
use presuppositions::{Entry, Label, Source, at_hand, derived};
use theory::UniverseRule;

/// The contexts.
fn context_of_universe(rule: UniverseRule) -> Option<Entry>
    ensures { (earlier : List Statement) → Answers earlier (Universe rule) label.Context result }
{
    match rule {
        UniverseRule::TyUniv => at_hand(&[Premise(0)]),
        UniverseRule::TyU => at_hand(&[Behind(0, Label::Context)]),
        UniverseRule::TyEqU => at_hand(&[Behind(0, Label::Context)]),
    }
}

/// The left sides, typed.
fn left_of_universe(rule: UniverseRule) -> Option<Entry>
    ensures { (earlier : List Statement) → Answers earlier (Universe rule) label.Left result }
{
    match rule {
        UniverseRule::TyEqU => derived(&[Behind(0, Label::Left)], TYEQ_U_LEFT, 3),
        UniverseRule::TyUniv | UniverseRule::TyU => None,
    }
}

/// The right sides, typed.
fn right_of_universe(rule: UniverseRule) -> Option<Entry>
    ensures { (earlier : List Statement) → Answers earlier (Universe rule) label.Right result }
{
    match rule {
        UniverseRule::TyEqU => derived(&[Behind(0, Label::Right)], TYEQ_U_RIGHT, 3),
        UniverseRule::TyUniv | UniverseRule::TyU => None,
    }
}

/// What stands behind the conclusion of a rule of the family.
pub fn universe_entry(rule: UniverseRule, label: Label) -> Option<Entry>
    ensures { (earlier : List Statement) → Answers earlier (Universe rule) label result }
{
    match label {
        Label::Context => context_of_universe(rule),
        Label::Left => left_of_universe(rule),
        Label::Right => right_of_universe(rule),
        Label::Type
        | Label::From
        | Label::To
        | Label::Domain
        | Label::Codomain
        | Label::Line
        | Label::LeftEnd
        | Label::RightEnd => None,
    }
}
