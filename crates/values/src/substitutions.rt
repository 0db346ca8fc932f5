//! Substitutions, by their nodes.

use book::{Book, Few, NodeId, RuleUse};
use tested_steps::{Fault, claim_of, derive, part_of, premise_of, rule_of, try_conclude};
use theory::{Claim, ContextRule, RuleName};
use typing_rules::{
    COMPOSED, COMPOSED_GIVES, NOTHING_DONE, NOTHING_DONE_GIVES, PAST_NAME, PAST_NAME_GIVES,
    PAST_VARIABLE, PAST_VARIABLE_GIVES,
};

/// `id : H to H`, of `ctx H`.
pub fn identity(book: &mut Book, ctx: NodeId) -> Result<NodeId, Fault> {
    let [sub]: [NodeId; 1] = derive(book, NOTHING_DONE, NOTHING_DONE_GIVES, &[], &[ctx])?;
    Ok(sub)
}

/// Whether a substitution does nothing, by its rule.
pub fn is_identity(book: &Book, sub: NodeId) -> Result<bool, Fault> {
    Ok(rule_of(book, sub)? == RuleName::Contexts(ContextRule::SubId))
}

/// `d then e : K to G`, of `e : K to H` and `d : H to G`. Where one does nothing, it is the other.
pub fn composed(book: &mut Book, inner: NodeId, outer: NodeId) -> Result<NodeId, Fault> {
    if is_identity(book, inner)? {
        return Ok(outer);
    }
    if is_identity(book, outer)? {
        return Ok(inner);
    }
    let premises = [inner, outer];
    let [sub]: [NodeId; 1] = derive(book, COMPOSED, COMPOSED_GIVES, &[], &premises)?;
    Ok(sub)
}

/// `d : H.p to G`, of `d : H to G`.
fn past_face(book: &mut Book, sub: NodeId, face: u64) -> Result<NodeId, Fault> {
    let Claim::Sb(from, row, to) = claim_of(book, sub)? else {
        return Err(Fault::Misfit);
    };
    let step = RuleUse {
        rule: RuleName::Contexts(ContextRule::SubWkFace),
        parts: Few::of(&[from, row, to, face]),
        premises: Few::of(&[sub.0]),
    };
    try_conclude(book, &step)
}

/// A substitution from H, gone past the entry that a weakening went past.
pub fn past(book: &mut Book, sub: NodeId, weakening: NodeId) -> Result<NodeId, Fault> {
    match rule_of(book, weakening)? {
        RuleName::Contexts(ContextRule::SubWk) => {
            let premises = [sub, premise_of(book, weakening, 1)?];
            let [sub]: [NodeId; 1] = derive(
                book,
                PAST_VARIABLE,
                PAST_VARIABLE_GIVES,
                &[],
                &premises,
            )?;
            Ok(sub)
        }
        RuleName::Contexts(ContextRule::SubWkName) => {
            let [sub]: [NodeId; 1] = derive(book, PAST_NAME, PAST_NAME_GIVES, &[], &[sub])?;
            Ok(sub)
        }
        RuleName::Contexts(ContextRule::SubWkFace) => {
            let face = part_of(book, weakening, 3)?;
            past_face(book, sub, face)
        }
        _ => Err(Fault::Misfit),
    }
}
