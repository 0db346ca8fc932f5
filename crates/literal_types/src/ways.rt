//! How rules make the trees that they type.

ghost use Rattle.theory.specs.declared.rule.RuleName.TheVariants.{Equality, Instances, Paths, Pi};
ghost use Rattle.theory.specs.declared.rule.RuleName.TheVariants.{Sigma, Universe};
ghost use Rattle.rules.specs.Rules.{AtAll};
ghost use Rattle.literal_types.specs.Ways.{IsWay};

use crate::forms::{Former, Size};
use theory::{EqualityRule, InstanceRule, PathRule, PiRule, RuleName, SigmaRule, UniverseRule};

/// How a rule makes the tree that it types.
#[derive(Clone, Copy, Debug)]
pub enum Way {
    /// It is that of the first premise.
    Same,
    /// It is that of the second premise, under the substitution of the first.
    Instance,
    /// It is the innermost variable.
    Variable,
    /// It is formed of the trees of the first two premises.
    Family(Former, Size),
    /// It is formed of the trees of the three premises.
    Line(Size),
    /// It has an operator, which forms no type of functions, of pairs or of paths.
    Other,
}

/// How a rule makes the tree that it types, if it types one.
pub fn way_of_rule(rule: RuleName) -> Way
    ensures { AtAll rule (λ xs r. IsWay result r) }
{
    match rule {
        RuleName::Instances(rule) => way_of_instance(rule),
        RuleName::Equality(rule) => way_of_equality(rule),
        RuleName::Universe(rule) => way_of_universe(rule),
        RuleName::Pi(rule) => way_of_pi(rule),
        RuleName::Sigma(rule) => way_of_sigma(rule),
        RuleName::Paths(rule) => way_of_path(rule),
        RuleName::Contexts(_) => Way::Other,
        RuleName::Naturals(_) => Way::Other,
        RuleName::Systems(_) => Way::Other,
        RuleName::Composition(_) => Way::Other,
        RuleName::Gluing(_) => Way::Other,
    }
}

fn way_of_instance(rule: InstanceRule) -> Way
    ensures { AtAll (Instances rule) (λ xs r. IsWay result r) }
{
    match rule {
        InstanceRule::TySub => Way::Instance,
        InstanceRule::TmSub => Way::Instance,
        InstanceRule::TmVar => Way::Variable,
        _ => Way::Other,
    }
}

fn way_of_equality(rule: EqualityRule) -> Way
    ensures { AtAll (Equality rule) (λ xs r. IsWay result r) }
{
    match rule {
        EqualityRule::TmConv => Way::Same,
        _ => Way::Other,
    }
}

fn way_of_universe(rule: UniverseRule) -> Way
    ensures { AtAll (Universe rule) (λ xs r. IsWay result r) }
{
    match rule {
        UniverseRule::TyU => Way::Same,
        _ => Way::Other,
    }
}

fn way_of_pi(rule: PiRule) -> Way
    ensures { AtAll (Pi rule) (λ xs r. IsWay result r) }
{
    match rule {
        PiRule::PiTy => Way::Family(Former::Pi, Size::Large),
        PiRule::PiU => Way::Family(Former::Pi, Size::Small),
        _ => Way::Other,
    }
}

fn way_of_sigma(rule: SigmaRule) -> Way
    ensures { AtAll (Sigma rule) (λ xs r. IsWay result r) }
{
    match rule {
        SigmaRule::SigTy => Way::Family(Former::Sigma, Size::Large),
        SigmaRule::SigU => Way::Family(Former::Sigma, Size::Small),
        _ => Way::Other,
    }
}

fn way_of_path(rule: PathRule) -> Way
    ensures { AtAll (Paths rule) (λ xs r. IsWay result r) }
{
    match rule {
        PathRule::PathTy => Way::Line(Size::Large),
        PathRule::PathU => Way::Line(Size::Small),
        _ => Way::Other,
    }
}
