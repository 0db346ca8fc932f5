//! Goals, opened by the rules of their nodes.

ghost use Rattle.std.specs.Prelude.{◌<◌, IfOk};

use book::{Book, NodeId};
use eliminators::Eliminator;
use tested_steps::{Fault, premise_of, rule_of, type_row};
use theory::{
    CompRule, EqualityRule, GlueRule, InstanceRule, NatRule, PathRule, PiRule, RuleName, SigmaRule,
    UniverseRule,
};
use values::{Goal, composed, fits_joined, fits_under};

/// What the rule of a typing says of its term.
#[derive(Clone, Copy)]
pub enum Opened {
    /// It is a form that no rule of computation rewrites.
    Head,
    /// It is the innermost variable.
    Variable,
    /// It is an eliminator, with its main part.
    Eliminates(Eliminator, NodeId),
    /// It is a composition.
    Composes,
}

/// Below a substitution.
fn below(book: &mut Book, goal: Goal) -> Result<Goal, Fault>
    ensures { IfOk result (λ next. next.susp.typing.0 < goal.susp.typing.0) }
{
    let node = goal.susp.typing;
    let outer = premise_of(book, node, 0)?;
    let mut goal = goal;
    goal.susp.typing = premise_of(book, node, 1)?;
    goal.susp.sub = composed(book, goal.susp.sub, outer)?;
    Ok(goal)
}

/// Before a conversion.
fn before(book: &mut Book, goal: Goal) -> Result<Goal, Fault>
    ensures { IfOk result (λ next. next.susp.typing.0 < goal.susp.typing.0) }
{
    let node = goal.susp.typing;
    let term = premise_of(book, node, 0)?;
    let mut goal = goal;
    goal.susp.typing = term;
    if type_row(book, term)? != type_row(book, node)? {
        let equation = premise_of(book, node, 1)?;
        let fits = fits_under(book, goal.susp.sub, equation)?;
        goal.way.fits = fits_joined(book, Some(fits), goal.way.fits)?;
    }
    Ok(goal)
}

/// The same term, at the node that made it.
pub fn peeled(book: &mut Book, goal: Goal) -> Result<Goal, Fault> {
    let mut goal = goal;
    loop {
        match rule_of(book, goal.susp.typing)? {
            RuleName::Instances(InstanceRule::TmSub | InstanceRule::TySub) => {
                goal = below(book, goal)?;
            }
            RuleName::Equality(EqualityRule::TmConv) => goal = before(book, goal)?,
            _ => return Ok(goal),
        }
    }
}

/// Opens a typing that is no instance and no conversion.
pub fn open(book: &Book, typing: NodeId) -> Result<Opened, Fault> {
    match rule_of(book, typing)? {
        RuleName::Instances(InstanceRule::TmVar) => Ok(Opened::Variable),
        RuleName::Pi(PiRule::App) => {
            let kid = premise_of(book, typing, 0)?;
            Ok(Opened::Eliminates(Eliminator::App, kid))
        }
        RuleName::Naturals(NatRule::NatRec) => {
            let kid = premise_of(book, typing, 3)?;
            Ok(Opened::Eliminates(Eliminator::NatRec, kid))
        }
        RuleName::Sigma(SigmaRule::Fst) => {
            let kid = premise_of(book, typing, 0)?;
            Ok(Opened::Eliminates(Eliminator::First, kid))
        }
        RuleName::Sigma(SigmaRule::Snd) => {
            let kid = premise_of(book, typing, 0)?;
            Ok(Opened::Eliminates(Eliminator::Second, kid))
        }
        RuleName::Universe(UniverseRule::TyU) => {
            let kid = premise_of(book, typing, 0)?;
            Ok(Opened::Eliminates(Eliminator::Small, kid))
        }
        RuleName::Paths(PathRule::PApp) => {
            let kid = premise_of(book, typing, 0)?;
            Ok(Opened::Eliminates(Eliminator::PathApp, kid))
        }
        RuleName::Gluing(GlueRule::Unglue) => {
            let kid = premise_of(book, typing, 3)?;
            Ok(Opened::Eliminates(Eliminator::Unglue, kid))
        }
        RuleName::Composition(CompRule::Comp) => Ok(Opened::Composes),
        _ => Ok(Opened::Head),
    }
}
