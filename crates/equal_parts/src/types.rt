//! Types of functions and of pairs.

use book::{Book, NodeId};
use conversion_rules::{
    ENTERED_ALONG, ENTERED_ALONG_GIVES, PI_EQUAL, PI_EQUAL_GIVES, PI_SMALL_EQUAL,
    PI_SMALL_EQUAL_GIVES, SIG_EQUAL, SIG_EQUAL_GIVES, SIG_SMALL_EQUAL, SIG_SMALL_EQUAL_GIVES,
};
use eliminators::type_under;
use normal_closings::enter;
use tested_steps::{Fault, derive, premise_of, rule_of};
use theory::{PiRule, RuleName, SigmaRule, UniverseRule};
use typing_rules::{SMALL_TYPE, SMALL_TYPE_GIVES};
use values::{Goal, Susp, term_under};

/// What makes a type of another over a variable.
#[derive(Clone, Copy, Debug, PartialEq, Eq)]
pub enum Former {
    Pi,
    Sigma,
}

/// A type of functions or pairs, by the nodes of its parts at home.
#[derive(Clone, Copy, Debug)]
pub struct Family {
    pub former: Former,
    pub sub: NodeId,
    pub domain: NodeId,
    pub codomain: NodeId,
}

/// `G >> A`, of `G >> A : U`.
pub fn small_type(book: &mut Book, term: NodeId) -> Result<NodeId, Fault> {
    let [ty]: [NodeId; 1] = derive(book, SMALL_TYPE, SMALL_TYPE_GIVES, &[], &[term])?;
    Ok(ty)
}

/// Whether a type is one of the universe.
pub fn is_small(book: &Book, susp: Susp) -> Result<bool, Fault> {
    Ok(rule_of(book, susp.typing)? == RuleName::Universe(UniverseRule::TyU))
}

/// The term of a type of the universe, in H.
pub fn small_term(book: &mut Book, susp: Susp) -> Result<NodeId, Fault> {
    let typing = premise_of(book, susp.typing, 0)?;
    term_under(book, susp.sub, typing)
}

/// A type of functions or pairs.
pub fn family_of(book: &Book, susp: Susp) -> Result<Option<Family>, Fault> {
    let former = match rule_of(book, susp.typing)? {
        RuleName::Pi(PiRule::PiTy) => Former::Pi,
        RuleName::Sigma(SigmaRule::SigTy) => Former::Sigma,
        _ => return Ok(None),
    };
    Ok(Some(Family {
        former,
        sub: susp.sub,
        domain: premise_of(book, susp.typing, 0)?,
        codomain: premise_of(book, susp.typing, 1)?,
    }))
}

/// The same of a head in the universe.
pub fn small_family(book: &mut Book, head: Goal) -> Result<Option<Family>, Fault> {
    let susp = head.susp;
    let former = match rule_of(book, susp.typing)? {
        RuleName::Pi(PiRule::PiU) => Former::Pi,
        RuleName::Sigma(SigmaRule::SigU) => Former::Sigma,
        _ => return Ok(None),
    };
    let domain = premise_of(book, susp.typing, 0)?;
    let codomain = premise_of(book, susp.typing, 1)?;
    Ok(Some(Family {
        former,
        sub: susp.sub,
        domain: small_type(book, domain)?,
        codomain: small_type(book, codomain)?,
    }))
}

/// The context with a variable of the left domain, and the substitutions there.
pub fn both_within(
    book: &mut Book,
    ctx: NodeId,
    left: Family,
    right: Family,
    domains: NodeId,
) -> Result<[NodeId; 3], Fault> {
    let within = enter(book, left.sub, left.domain)?;
    let domain = type_under(book, left.sub, left.domain)?;
    let premises = [ctx, right.sub, right.domain, domain, domains];
    let [along]: [NodeId; 1] = derive(book, ENTERED_ALONG, ENTERED_ALONG_GIVES, &[], &premises)?;
    Ok([within.ctx, within.sub, along])
}

/// Types of equal parts.
pub fn close_types(
    book: &mut Book,
    former: Former,
    domains: NodeId,
    codomains: NodeId,
) -> Result<NodeId, Fault> {
    let premises = [domains, codomains];
    let [equal]: [NodeId; 1] = match former {
        Former::Pi => derive(book, PI_EQUAL, PI_EQUAL_GIVES, &[], &premises)?,
        Former::Sigma => derive(book, SIG_EQUAL, SIG_EQUAL_GIVES, &[], &premises)?,
    };
    Ok(equal)
}

/// Types in the universe of equal parts.
pub fn close_small_types(
    book: &mut Book,
    former: Former,
    domains: NodeId,
    codomains: NodeId,
) -> Result<NodeId, Fault> {
    let premises = [domains, codomains];
    let [equal]: [NodeId; 1] = match former {
        Former::Pi => derive(book, PI_SMALL_EQUAL, PI_SMALL_EQUAL_GIVES, &[], &premises)?,
        Former::Sigma => derive(book, SIG_SMALL_EQUAL, SIG_SMALL_EQUAL_GIVES, &[], &premises)?,
    };
    Ok(equal)
}
