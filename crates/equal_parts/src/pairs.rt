//! Pairs by the eta rule.

use book::{Book, NodeId};
use conversion_rules::{
    AT_FIRST, AT_FIRST_GIVES, PAIR_LEFT, PAIR_LEFT_GIVES, PAIR_RIGHT, PAIR_RIGHT_GIVES,
};
use eliminators::{Halves, halves_of};
use normal_closings::halves_here;
use normal_rules::{PAIR_NORMAL, PAIR_NORMAL_GIVES};
use std::alloc::Global;
use tested_steps::{Fault, derive, rule_of, same_type};
use theory::{RuleName, SigmaRule};
use typing_rules::{FIRST, FIRST_GIVES, SECOND, SECOND_GIVES};
use values::Goal;

/// Two terms at one type of pairs, by their halves.
#[derive(Clone, Copy, Debug)]
pub enum Halved {
    /// Both are literally pairs, of types of the same parts.
    Both {
        ctx: NodeId,
        left: Halves,
        right: Halves,
    },
    /// One is: its parts, and the other at its type, with its second half. That one is made, where
    /// it is literally a pair of another type.
    One {
        ctx: NodeId,
        halves: Halves,
        term: NodeId,
        second: NodeId,
        is_left: bool,
        is_made: bool,
    },
}

/// The parts of a term that is literally a pair, in the context of what was asked.
pub fn pair_of(alloc: Global, book: &mut Book, head: Goal) -> Result<Option<Halves>, Fault> {
    if rule_of(book, head.susp.typing)? != RuleName::Sigma(SigmaRule::Pair) {
        return Ok(None);
    }
    Ok(Some(halves_here(alloc, book, head)?))
}

/// The halves of a term at the type of a pair.
pub fn halves_at(
    alloc: Global,
    book: &mut Book,
    own: Goal,
    term: NodeId,
) -> Result<[NodeId; 2], Fault> {
    let home = halves_of(alloc, book, own.susp.typing)?;
    let premises = [own.susp.sub, home.domain, home.codomain, term];
    let [first]: [NodeId; 1] = derive(book, FIRST, FIRST_GIVES, &[], &premises)?;
    let [second, _]: [NodeId; 2] = derive(book, SECOND, SECOND_GIVES, &[], &premises)?;
    Ok([first, second])
}

/// Whether two pairs are of types of the same parts.
pub fn are_alike(book: &Book, left: Halves, right: Halves) -> Result<bool, Fault> {
    Ok(
        same_type(book, left.domain, right.domain)?
            && same_type(book, left.codomain, right.codomain)?,
    )
}

/// A second half at the type that it has over an equal first half.
pub fn at_first(
    book: &mut Book,
    ctx: NodeId,
    codomain: NodeId,
    first: NodeId,
    second: NodeId,
) -> Result<NodeId, Fault> {
    let premises = [ctx, codomain, first, second];
    let [term]: [NodeId; 1] = derive(book, AT_FIRST, AT_FIRST_GIVES, &[], &premises)?;
    Ok(term)
}

/// Pairs whose halves are equal.
pub fn close_halves(
    book: &mut Book,
    halved: Halved,
    first: NodeId,
    right: NodeId,
    second: NodeId,
) -> Result<NodeId, Fault> {
    match halved {
        Halved::Both {
            ctx,
            left,
            right: other,
        } => {
            let premises = [
                ctx,
                left.domain,
                left.codomain,
                left.first,
                left.second,
                first,
                other.first,
                second,
                right,
            ];
            let [equal, _]: [NodeId; 2] = derive(
                book,
                PAIR_NORMAL,
                PAIR_NORMAL_GIVES,
                &[],
                &premises,
            )?;
            Ok(equal)
        }
        Halved::One {
            ctx,
            halves,
            term,
            second: _,
            is_left,
            is_made: _,
        } => {
            let premises = [
                ctx,
                halves.codomain,
                halves.first,
                halves.second,
                term,
                first,
                second,
            ];
            let [equal]: [NodeId; 1] = if is_left {
                derive(book, PAIR_LEFT, PAIR_LEFT_GIVES, &[], &premises)?
            } else {
                derive(book, PAIR_RIGHT, PAIR_RIGHT_GIVES, &[], &premises)?
            };
            Ok(equal)
        }
    }
}
