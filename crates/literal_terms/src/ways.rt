//! How rules make the terms that they type.

ghost use Rattle.theory.specs.declared.rule.RuleName.TheVariants.{Equality, Gluing, Instances};
ghost use Rattle.theory.specs.declared.rule.RuleName.TheVariants.{Naturals, Paths, Pi, Sigma};
ghost use Rattle.rules.specs.Rules.{AtAll};
ghost use Rattle.literal_terms.specs.Ways.{IsWay};

use theory::{
    EqualityRule, GlueRule, InstanceRule, NatRule, PathRule, PiRule, RuleName, SigmaRule,
};

/// How a rule makes the term that it types.
#[derive(Clone, Copy, Debug)]
pub enum Way {
    /// It is that of the first premise, whose type the second says is its own.
    Converted,
    /// It is that of the second premise, under the substitution of the first.
    Instance,
    /// It is the innermost variable.
    Variable,
    /// It is a function, of the first two premises.
    Function,
    /// It is a pair, of the three premises.
    Pair,
    /// It is a path, of the three premises.
    Path,
    /// It is a glued term, of the six premises.
    Glued,
    /// It is a type.
    Type,
    /// It has another operator.
    Other,
}

/// How a rule makes the term that it types, if it types one.
pub fn way_of_rule(rule: RuleName) -> Way
    ensures { AtAll rule (λ xs r. IsWay result r) }
{
    match rule {
        RuleName::Instances(rule) => way_of_instance(rule),
        RuleName::Equality(rule) => way_of_equality(rule),
        RuleName::Pi(rule) => way_of_pi(rule),
        RuleName::Sigma(rule) => way_of_sigma(rule),
        RuleName::Paths(rule) => way_of_path(rule),
        RuleName::Naturals(rule) => way_of_number(rule),
        RuleName::Gluing(rule) => way_of_glue(rule),
        RuleName::Contexts(_) => Way::Other,
        RuleName::Universe(_) => Way::Other,
        RuleName::Systems(_) => Way::Other,
        RuleName::Composition(_) => Way::Other,
    }
}

fn way_of_instance(rule: InstanceRule) -> Way
    ensures { AtAll (Instances rule) (λ xs r. IsWay result r) }
{
    match rule {
        InstanceRule::TmSub => Way::Instance,
        InstanceRule::TmVar => Way::Variable,
        _ => Way::Other,
    }
}

fn way_of_equality(rule: EqualityRule) -> Way
    ensures { AtAll (Equality rule) (λ xs r. IsWay result r) }
{
    match rule {
        EqualityRule::TmConv => Way::Converted,
        _ => Way::Other,
    }
}

fn way_of_pi(rule: PiRule) -> Way
    ensures { AtAll (Pi rule) (λ xs r. IsWay result r) }
{
    match rule {
        PiRule::PiU => Way::Type,
        PiRule::Lam => Way::Function,
        _ => Way::Other,
    }
}

fn way_of_sigma(rule: SigmaRule) -> Way
    ensures { AtAll (Sigma rule) (λ xs r. IsWay result r) }
{
    match rule {
        SigmaRule::SigU => Way::Type,
        SigmaRule::Pair => Way::Pair,
        _ => Way::Other,
    }
}

fn way_of_path(rule: PathRule) -> Way
    ensures { AtAll (Paths rule) (λ xs r. IsWay result r) }
{
    match rule {
        PathRule::PathU => Way::Type,
        PathRule::PLam => Way::Path,
        _ => Way::Other,
    }
}

fn way_of_number(rule: NatRule) -> Way
    ensures { AtAll (Naturals rule) (λ xs r. IsWay result r) }
{
    match rule {
        NatRule::NatU => Way::Type,
        _ => Way::Other,
    }
}

fn way_of_glue(rule: GlueRule) -> Way
    ensures { AtAll (Gluing rule) (λ xs r. IsWay result r) }
{
    match rule {
        GlueRule::GlueU => Way::Type,
        GlueRule::Glue => Way::Glued,
        _ => Way::Other,
    }
}
