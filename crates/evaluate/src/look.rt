//! Variables under substitutions, and terms at the nodes that made them.

ghost use Rattle.std.specs.Prelude.{◌<◌, ◌≤◌, ◌+◌, IfOk, IfSome};
ghost use Rattle.literal_types.specs.Openings.{weight};
ghost use Rattle.evaluate.specs.Waiting.{place_weight, total};

use book::{Book, NodeId};
use std::alloc::Global;
use tested_steps::{Fault, far_of, premise_of, rule_of, type_row};
use theory::{ContextRule, EqualityRule, InstanceRule, RuleName};
use values::{Goal, Susp, Way, composed, fits_joined, fits_under, identity, past};

/// What a tree is still to be taken through.
#[derive(Clone, Copy)]
pub enum Waiting {
    /// A substitution.
    Sub(NodeId),
    /// The entry that this weakening went past.
    Past(NodeId),
}

/// What a variable becomes.
#[derive(Clone, Copy)]
pub enum Place {
    /// A variable, by its index.
    Variable(u64),
    /// A tree that is pushed, by its typing.
    Entry(NodeId),
}

/// What a variable becomes where a tree or a formula is pushed.
#[tactic(auto, using(crate::proofs::WalkLaws::walking))]
fn entered_pushed(
    book: &Book,
    sub: NodeId,
    index: u64,
    waiting: &mut Vec<Waiting>,
) -> Result<Place, Fault>
    ensures { IfOk result (λ place. place_weight place + total waiting.new.items
        < weight «sub» + total waiting.old.items) }
{
    if index == 0 {
        return Ok(Place::Entry(premise_of(book, sub, 2)?));
    }
    let below = premise_of(book, sub, 0)?;
    waiting.push(Waiting::Sub(below))?;
    Ok(Place::Variable(index - 1))
}

/// What a variable becomes by the last rule of a substitution, where what that stands on waits.
#[tactic(auto, using(crate::proofs::WalkLaws::walking))]
fn entered(book: &Book, sub: NodeId, index: u64, waiting: &mut Vec<Waiting>) -> Result<Place, Fault>
    ensures { IfOk result (λ place. place_weight place + total waiting.new.items
        < weight «sub» + total waiting.old.items) }
{
    let RuleName::Contexts(rule) = rule_of(book, sub)? else {
        return Err(Fault::Misfit);
    };
    match rule {
        ContextRule::SubId => Ok(Place::Variable(index)),
        ContextRule::SubComp => {
            let inner = premise_of(book, sub, 0)?;
            let outer = premise_of(book, sub, 1)?;
            waiting.push(Waiting::Sub(inner))?;
            waiting.push(Waiting::Sub(outer))?;
            Ok(Place::Variable(index))
        }
        ContextRule::SubWk | ContextRule::SubWkName | ContextRule::SubWkFace => {
            let below = premise_of(book, sub, 0)?;
            waiting.push(Waiting::Past(sub))?;
            waiting.push(Waiting::Sub(below))?;
            Ok(Place::Variable(index))
        }
        ContextRule::SubVar | ContextRule::SubForm => entered_pushed(book, sub, index, waiting),
        ContextRule::SubFace => {
            let below = premise_of(book, sub, 0)?;
            waiting.push(Waiting::Sub(below))?;
            Ok(Place::Variable(index))
        }
        _ => Err(Fault::Misfit),
    }
}

/// The index of a variable past the entry that a weakening went past.
fn past_index(book: &Book, weakening: NodeId, index: u64) -> Result<u64, Fault> {
    if rule_of(book, weakening)? == RuleName::Contexts(ContextRule::SubWkFace) {
        return Ok(index);
    }
    match index.checked_add(1) {
        Some(index) => Ok(index),
        None => Err(Fault::Misfit),
    }
}

/// What the innermost variable becomes under what waits, the last first: the entry that is pushed
/// for it, under what waits then, or None where it is a variable.
#[tactic(auto, using(crate::proofs::WalkLaws::walking))]
fn looked_up(book: &Book, waiting: &mut Vec<Waiting>) -> Result<Option<NodeId>, Fault>
    ensures { IfOk result (λ found. IfSome found (λ entry.
        weight entry + total waiting.new.items < total waiting.old.items)) }
{
    let mut index = 0;
    while let Some(next) = waiting.pop() {
        match next {
            Waiting::Past(weakening) => index = past_index(book, weakening, index)?,
            Waiting::Sub(sub) => match entered(book, sub, index, waiting)? {
                Place::Variable(within) => index = within,
                Place::Entry(entry) => return Ok(Some(entry)),
            },
        }
    }
    Ok(None)
}

/// The last of what waits, as a substitution. Where nothing waits, nothing is done.
fn last_waiting(
    alloc: Global,
    book: &mut Book,
    ctx: NodeId,
    waiting: &mut Vec<Waiting>,
) -> Result<NodeId, Fault> {
    match waiting.pop() {
        None => identity(book, ctx),
        Some(Waiting::Sub(sub)) => Ok(sub),
        Some(Waiting::Past(weakening)) => {
            let below = premise_of(book, weakening, 0)?;
            let from = far_of(alloc, book, below)?;
            let sub = identity(book, from)?;
            past(book, sub, weakening)
        }
    }
}

/// What waits, the last first, as one substitution to a context.
fn joined(
    alloc: Global,
    book: &mut Book,
    ctx: NodeId,
    mut waiting: Vec<Waiting>,
) -> Result<NodeId, Fault> {
    let mut sub = last_waiting(alloc, book, ctx, &mut waiting)?;
    while let Some(next) = waiting.pop() {
        sub = match next {
            Waiting::Sub(inner) => composed(book, inner, sub)?,
            Waiting::Past(weakening) => past(book, sub, weakening)?,
        };
    }
    Ok(sub)
}

/// What the innermost variable becomes under the substitution of a suspension: the entry that is
/// pushed for it, or None where it is a variable.
pub fn look(alloc: Global, book: &mut Book, susp: Susp) -> Result<Option<Susp>, Fault> {
    let ctx = susp.ctx;
    let mut waiting = Vec::new(alloc);
    waiting.push(Waiting::Sub(susp.sub))?;
    let Some(typing) = looked_up(book, &mut waiting)? else {
        return Ok(None);
    };
    let sub = joined(alloc, book, ctx, waiting)?;
    Ok(Some(Susp { ctx, typing, sub }))
}

/// A way past a conversion, whose equation of types stands under what waits.
fn past_conversion(
    alloc: Global,
    book: &mut Book,
    goal: Goal,
    node: NodeId,
    waiting: &Vec<Waiting>,
) -> Result<Way, Fault> {
    let term = premise_of(book, node, 0)?;
    if type_row(book, term)? == type_row(book, node)? {
        return Ok(goal.way);
    }
    let equation = premise_of(book, node, 1)?;
    let sub = joined(alloc, book, goal.susp.ctx, waiting.clone()?)?;
    let turn = fits_under(book, sub, equation)?;
    let fits = fits_joined(book, Some(turn), goal.way.fits)?;
    Ok(Way { fits, ..goal.way })
}

/// A term, at the node that made it: below substitutions, before conversions, and for a variable at
/// the entry that is pushed for it. No rule rewrites it.
#[tactic(auto, using(crate::proofs::WalkLaws::walking))]
pub fn located(alloc: Global, book: &mut Book, goal: Goal) -> Result<Goal, Fault> {
    let mut goal = goal;
    let mut waiting = Vec::new(alloc);
    waiting.push(Waiting::Sub(goal.susp.sub))?;
    loop {
        let node = goal.susp.typing;
        match rule_of(book, node)? {
            RuleName::Instances(InstanceRule::TmSub | InstanceRule::TySub) => {
                waiting.push(Waiting::Sub(premise_of(book, node, 0)?))?;
                goal.susp.typing = premise_of(book, node, 1)?;
            }
            RuleName::Equality(EqualityRule::TmConv) => {
                goal.way = past_conversion(alloc, book, goal, node, &waiting)?;
                goal.susp.typing = premise_of(book, node, 0)?;
            }
            RuleName::Instances(InstanceRule::TmVar) => {
                let mut walked = waiting.clone()?;
                let Some(entry) = looked_up(book, &mut walked)? else {
                    break;
                };
                goal.susp.typing = entry;
                waiting = walked;
            }
            _ => break,
        }
    }
    goal.susp.sub = joined(alloc, book, goal.susp.ctx, waiting)?;
    Ok(goal)
}
