//! Types of functions and of pairs, and types of the universe: from kid to kid.

ghost use Rattle.std.specs.Prelude.{◌<◌, IfOk};

use crate::kids::{enter_kid, enter_main, ready};
use crate::state::{Focus, Frame};
use crate::systems::Around;
use book::{Book, NodeId};
use eliminators::as_type;
use normal_closings::{Within, closed_former, closed_small, enter};
use tested_steps::{Fault, derive, premise_of, rule_of};
use theory::{InstanceRule, PathRule, PiRule, RuleName, SigmaRule, UniverseRule};
use typing_rules::{SMALL_TYPE, SMALL_TYPE_GIVES};
use values::{Goal, Part, Susp, composed};

/// A type whose kid is sought.
#[derive(Clone, Copy, Debug)]
pub enum TypeFrame {
    /// The domain of a type of functions or of pairs, which may be a term of the universe.
    Domain(Goal),
    /// Its codomain, of the domain.
    Codomain(Goal, Part),
    /// The term of a type of the universe.
    Small(Goal),
}

/// `G >> A`, of `G >> A : U`.
pub fn small_type(book: &mut Book, term: NodeId) -> Result<NodeId, Fault> {
    let [ty]: [NodeId; 1] = derive(book, SMALL_TYPE, SMALL_TYPE_GIVES, &[], &[term])?;
    Ok(ty)
}

/// A type below a substitution.
fn below(book: &mut Book, susp: Susp) -> Result<Susp, Fault>
    ensures { IfOk result (λ next. next.typing.0 < susp.typing.0) }
{
    let outer = premise_of(book, susp.typing, 0)?;
    let typing = premise_of(book, susp.typing, 1)?;
    let sub = composed(book, susp.sub, outer)?;
    Ok(Susp {
        typing,
        sub,
        ..susp
    })
}

/// A type under a substitution, at the node that made it.
pub fn type_home(book: &mut Book, susp: Susp) -> Result<Susp, Fault> {
    let mut susp = susp;
    loop {
        match rule_of(book, susp.typing)? {
            RuleName::Instances(InstanceRule::TySub) => susp = below(book, susp)?,
            _ => return Ok(susp),
        }
    }
}

/// Whether the rule that made a type says that no rule rewrites it.
pub(crate) fn is_literal(book: &Book, ty: NodeId) -> Result<bool, Fault> {
    let mut ty = ty;
    loop {
        match rule_of(book, ty)? {
            RuleName::Instances(InstanceRule::TySub) => ty = premise_of(book, ty, 1)?,
            RuleName::Pi(PiRule::PiTy)
            | RuleName::Sigma(SigmaRule::SigTy)
            | RuleName::Paths(PathRule::PathTy)
            | RuleName::Universe(UniverseRule::TyUniv) => return Ok(true),
            _ => return Ok(false),
        }
    }
}

/// Goes on from a type of the universe.
pub(crate) fn enter_small(
    book: &mut Book,
    around: &mut Around,
    goal: Goal,
    rule: UniverseRule,
) -> Result<Focus, Fault> {
    match rule {
        UniverseRule::TyU => {
            let frame = Frame::Type(TypeFrame::Small(goal));
            enter_main(book, around, goal, frame, 0)
        }
        _ => ready(book, goal),
    }
}

/// Goes on from a type of functions or of pairs.
pub(crate) fn enter_former(
    book: &mut Book,
    around: &mut Around,
    goal: Goal,
) -> Result<Focus, Fault> {
    let frame = Frame::Type(TypeFrame::Domain(goal));
    enter_kid(book, around, goal, frame, 0)
}

/// Goes on from a kid of a type that is in normal form.
pub(crate) fn after_type(
    book: &mut Book,
    around: &mut Around,
    frame: TypeFrame,
    part: Part,
) -> Result<Focus, Fault> {
    match frame {
        TypeFrame::Domain(goal) => {
            let within = under_domain(book, goal)?;
            let frame = TypeFrame::Codomain(goal, part);
            around.frames.push(Frame::Type(frame))?;
            let codomain = premise_of(book, goal.susp.typing, 1)?;
            Ok(Focus::Fresh(within.susp(codomain)))
        }
        TypeFrame::Codomain(goal, domain) => {
            let goal = closed_former(book, goal, domain, part)?;
            ready(book, goal)
        }
        TypeFrame::Small(goal) => {
            let goal = closed_small(book, goal, part)?;
            ready(book, goal)
        }
    }
}

/// Under a variable of the domain of a type of functions or of pairs.
fn under_domain(book: &mut Book, goal: Goal) -> Result<Within, Fault> {
    let domain = premise_of(book, goal.susp.typing, 0)?;
    let domain = as_type(book, domain)?;
    enter(book, goal.susp.sub, domain)
}
