//! Equations where faces are true.

use book::{Book, Few, NodeId, RuleUse};
use eliminators::{OnFace, Within, equation_under, into_face, within_face};
use tested_steps::{Fault, claim_of, try_conclude, try_make};
use theory::{Claim, EqualityRule, Op, RuleName};
use values::{composed, term_under};

/// The typings of two terms of one type in a context.
#[derive(Clone, Copy)]
pub struct Terms {
    pub ctx: NodeId,
    pub left: NodeId,
    pub right: NodeId,
}

/// An equation in G.p, within q: in G.q.p.
fn part_within(book: &mut Book, within: Within, part: OnFace) -> Result<NodeId, Fault> {
    let there = within_face(book, within.ctx, part.face)?;
    let down = composed(book, there.out, within.out)?;
    let down = into_face(book, down, part.face)?;
    equation_under(book, down, part.equation)
}

/// The equation of two terms where one of two faces is true, of those where each is.
pub fn covered(
    book: &mut Book,
    terms: Terms,
    first: OnFace,
    second: OnFace,
) -> Result<OnFace, Fault> {
    let face = try_make(book, Op::Join, &[first.face, second.face])?;
    let within = within_face(book, terms.ctx, face)?;
    let left = term_under(book, within.out, terms.left)?;
    let right = term_under(book, within.out, terms.right)?;
    let Claim::Tm(here, left_term, ty) = claim_of(book, left)? else {
        return Err(Fault::Misfit);
    };
    let Claim::Tm(_, right_term, _) = claim_of(book, right)? else {
        return Err(Fault::Misfit);
    };
    let first_part = part_within(book, within, first)?;
    let second_part = part_within(book, within, second)?;
    let step = RuleUse {
        rule: RuleName::Equality(EqualityRule::TmEqCover),
        parts: Few::of(&[here, first.face, second.face, left_term, right_term, ty]),
        premises: Few::of(&[left.0, right.0, first_part.0, second_part.0]),
    };
    let equation = try_conclude(book, &step)?;
    Ok(OnFace { face, equation })
}
