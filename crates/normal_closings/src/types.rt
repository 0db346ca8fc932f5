//! Types of functions and of pairs, and types of the universe, of parts in normal form.

use crate::parts::{are_same, closed};
use book::{Book, NodeId};
use eliminators::{as_type, type_under};
use normal_rules::{
    PI_NORMAL, PI_NORMAL_GIVES, PI_SMALL_NORMAL, PI_SMALL_NORMAL_GIVES, SIG_NORMAL,
    SIG_NORMAL_GIVES, SIG_SMALL_NORMAL, SIG_SMALL_NORMAL_GIVES, SMALL_NORMAL, SMALL_NORMAL_GIVES,
};
use tested_steps::{Fault, derive, premise_of, rule_of};
use theory::{PiRule, RuleName, SigmaRule};
use values::{Goal, Part};

/// A type of functions or of pairs whose parts are in normal form.
pub fn closed_former(
    book: &mut Book,
    goal: Goal,
    domain: Part,
    codomain: Part,
) -> Result<Goal, Fault> {
    if are_same(book, &[domain, codomain])? {
        return Ok(goal);
    }
    let susp = goal.susp;
    let at = premise_of(book, susp.typing, 0)?;
    let at = as_type(book, at)?;
    let at = type_under(book, susp.sub, at)?;
    let premises = [
        susp.ctx,
        domain.equal,
        domain.typing,
        codomain.equal,
        codomain.typing,
        at,
    ];
    let nodes: [NodeId; 2] = match rule_of(book, susp.typing)? {
        RuleName::Pi(PiRule::PiTy) => derive(book, PI_NORMAL, PI_NORMAL_GIVES, &[], &premises)?,
        RuleName::Pi(PiRule::PiU) => {
            derive(book, PI_SMALL_NORMAL, PI_SMALL_NORMAL_GIVES, &[], &premises)?
        }
        RuleName::Sigma(SigmaRule::SigTy) => {
            derive(book, SIG_NORMAL, SIG_NORMAL_GIVES, &[], &premises)?
        }
        RuleName::Sigma(SigmaRule::SigU) => {
            derive(
                book,
                SIG_SMALL_NORMAL,
                SIG_SMALL_NORMAL_GIVES,
                &[],
                &premises,
            )?
        }
        _ => return Err(Fault::Misfit),
    };
    closed(book, goal, nodes)
}

/// A type of the universe whose term is in normal form.
pub fn closed_small(book: &mut Book, goal: Goal, part: Part) -> Result<Goal, Fault> {
    let premises = [part.equal, part.typing];
    let nodes: [NodeId; 2] = derive(book, SMALL_NORMAL, SMALL_NORMAL_GIVES, &[], &premises)?;
    closed(book, goal, nodes)
}
