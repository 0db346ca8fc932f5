//! What stands behind the conclusion of a rule, for all rules.
//!
//! ```text
//! let found = entry(RuleName::Equality(EqualityRule::TmConv), Label::Type);
//! // G >> B, behind G >> a : B: the right side of premise 1, which is G >> A = B
//! ```
#![tactic(auto)]

ghost use Rattle.std.specs.Prelude.{[], ◌∷◌};
ghost use Rattle.presuppositions.specs.Entries.{Answers};
ghost use Rattle.glue_entries.specs.Statements.{equiv_tycong_statement};

use comp_entries::{comp_entry, system_entry};
use equality_entries::{context_entry, equality_entry, instance_entry, universe_entry};
use glue_entries::glue_entry;
use path_entries::{nat_entry, path_entry};
use pi_entries::{pi_entry, sigma_entry};
use presuppositions::{Entry, Label};
use theory::RuleName;

/// How what stands behind the conclusion of a rule is had: its rows derive it, over the parts of
/// the rule and under its side conditions, of its sources. The earlier recipe that they may name is
/// that types of equivalences are equal where their ends are.
///
/// None where nothing of the label stands behind the conclusion as the rule states it, over unknown
/// parts, and for the right sides of the rules of composition at types of functions, pairs and
/// paths, at glued types and at the universe, which are typed as they are made.
pub fn entry(rule: RuleName, label: Label) -> Option<Entry>
    ensures { Answers (equiv_tycong_statement ∷ []) rule label result }
{
    match rule {
        RuleName::Contexts(rule) => context_entry(rule, label),
        RuleName::Instances(rule) => instance_entry(rule, label),
        RuleName::Equality(rule) => equality_entry(rule, label),
        RuleName::Universe(rule) => universe_entry(rule, label),
        RuleName::Pi(rule) => pi_entry(rule, label),
        RuleName::Sigma(rule) => sigma_entry(rule, label),
        RuleName::Paths(rule) => path_entry(rule, label),
        RuleName::Naturals(rule) => nat_entry(rule, label),
        RuleName::Systems(rule) => system_entry(rule, label),
        RuleName::Composition(rule) => comp_entry(rule, label),
        RuleName::Gluing(rule) => glue_entry(rule, label),
    }
}
