//! Substitutions to and from a face, and at a formula, and equations under substitutions.

use book::{Book, Few, NodeId, RuleUse};
use tested_steps::{Fault, claim_of, derive, try_conclude};
use theory::{Claim, ContextRule, InstanceRule, RuleName};
use values::identity;
use way_rules::{FITS_UNDER, FITS_UNDER_GIVES};

/// `d : H to G.p`, of `d : H to G`, where p is true under d.
pub fn into_face(book: &mut Book, sub: NodeId, face: u64) -> Result<NodeId, Fault> {
    let Claim::Sb(from, row, to) = claim_of(book, sub)? else {
        return Err(Fault::Misfit);
    };
    let step = RuleUse {
        rule: RuleName::Contexts(ContextRule::SubFace),
        parts: Few::of(&[from, row, to, face]),
        premises: Few::of(&[sub.0]),
    };
    try_conclude(book, &step)
}

/// `push d r : H to G.I`, of `d : H to G`.
pub fn at_formula(book: &mut Book, sub: NodeId, formula: u64) -> Result<NodeId, Fault> {
    let Claim::Sb(from, row, to) = claim_of(book, sub)? else {
        return Err(Fault::Misfit);
    };
    let step = RuleUse {
        rule: RuleName::Contexts(ContextRule::SubForm),
        parts: Few::of(&[from, row, to, formula]),
        premises: Few::of(&[sub.0]),
    };
    try_conclude(book, &step)
}

/// `G.p`, with the substitution from there.
#[derive(Clone, Copy, Debug)]
pub struct Within {
    /// `ctx G.p`
    pub ctx: NodeId,
    /// `id : G.p to G`
    pub out: NodeId,
}

/// The context G with a face p, of `ctx G`.
pub fn within_face(book: &mut Book, ctx: NodeId, face: u64) -> Result<Within, Fault> {
    let here = identity(book, ctx)?;
    let Claim::Sb(from, row, to) = claim_of(book, here)? else {
        return Err(Fault::Misfit);
    };
    let step = RuleUse {
        rule: RuleName::Contexts(ContextRule::SubWkFace),
        parts: Few::of(&[from, row, to, face]),
        premises: Few::of(&[here.0]),
    };
    let out = try_conclude(book, &step)?;
    let step = RuleUse {
        rule: RuleName::Contexts(ContextRule::CtxFace),
        parts: Few::of(&[from, face]),
        premises: Few::of(&[ctx.0]),
    };
    let ctx = try_conclude(book, &step)?;
    Ok(Within { ctx, out })
}

/// An equation of terms or of types under a substitution.
pub fn equation_under(book: &mut Book, sub: NodeId, equation: NodeId) -> Result<NodeId, Fault> {
    let Claim::Sb(from, row, _) = claim_of(book, sub)? else {
        return Err(Fault::Misfit);
    };
    let Claim::TmEq(home, left, right, ty) = claim_of(book, equation)? else {
        let premises = [sub, equation];
        let [equal]: [NodeId; 1] = derive(book, FITS_UNDER, FITS_UNDER_GIVES, &[], &premises)?;
        return Ok(equal);
    };
    let step = RuleUse {
        rule: RuleName::Instances(InstanceRule::TmEqSub),
        parts: Few::of(&[from, row, home, left, right, ty]),
        premises: Few::of(&[sub.0, equation.0]),
    };
    try_conclude(book, &step)
}

/// How many numbers a short list holds at most.
const ROOM: usize = 16;

/// Adds a number to a short list, if there is room for it.
pub fn add(few: &mut Few, number: u64) -> Result<(), Fault> {
    if few.as_slice().len() >= ROOM {
        return Err(Fault::Misfit);
    }
    few.push(number);
    Ok(())
}
