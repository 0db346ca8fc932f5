//! Two types by their outermost forms.

use crate::headed::opened;
use crate::match_terms::matched;
use crate::matched_faced::match_glues;
use crate::state::{Focus, Former, Frame};
use book::{Book, NodeId};
use eliminators::{as_type, type_under};
use equal_parts::{
    Family, Line, Lines, Pair, TypeForm, both_within, close_small, form_of_small, form_of_type,
    is_small, is_type, lead_to_one, lines_within, meet_types, small_family, small_term,
};
use normal::type_home;
use std::alloc::Global;
use tested_steps::{Fault, holds_under, part_of, premise_of, rule_of};
use theory::{GlueRule, PathRule, PiRule, RuleName, SigmaRule, UniverseRule};
use values::{Goal, Question, Susp, Way, advance, begin, suspend, term_under};

/// What two types go on with.
#[derive(Clone, Copy, Debug)]
pub(crate) enum Typed {
    Goes(Focus),
    Asks(Question, Focus),
}

/// A type in its own context, at the node that made it.
fn home_of(book: &mut Book, ctx: NodeId, ty: NodeId) -> Result<Susp, Fault> {
    let susp = suspend(book, ctx, ty)?;
    type_home(book, susp)
}

/// Whether a type, at the node that made it, is one that no rule rewrites by its outermost form.
fn is_head(book: &mut Book, susp: Susp) -> Result<bool, Fault> {
    match rule_of(book, susp.typing)? {
        RuleName::Pi(PiRule::PiTy)
        | RuleName::Sigma(SigmaRule::SigTy)
        | RuleName::Paths(PathRule::PathTy)
        | RuleName::Universe(UniverseRule::TyUniv) => Ok(true),
        RuleName::Gluing(GlueRule::GlueTy) => {
            let face = part_of(book, susp.typing, 2)?;
            Ok(!holds_under(book, susp.ctx, susp.sub, face)?)
        }
        _ => Ok(false),
    }
}

/// A type of the universe that is in normal form, as the term that it is, with the equation of
/// types that leads there, and what fits the type of the term to the universe.
fn small_goal(alloc: Global, book: &mut Book, susp: Susp) -> Result<Goal, Fault> {
    let term = small_term(book, susp)?;
    let term = opened(alloc, book, susp.ctx, term)?;
    let equal = close_small(book, term.way.equal)?;
    let way = Way { equal, ..term.way };
    Ok(Goal { way, ..term })
}

/// The head of a type, where it is at hand.
fn type_goal(
    alloc: Global,
    book: &mut Book,
    susp: Susp,
    is_normal: bool,
) -> Result<Option<Goal>, Fault> {
    if is_head(book, susp)? {
        return Ok(Some(begin(book, susp)?));
    }
    if is_normal && is_small(book, susp)? {
        return Ok(Some(small_goal(alloc, book, susp)?));
    }
    Ok(None)
}

/// Two types that are not one tree.
pub(crate) fn types(
    alloc: Global,
    book: &mut Book,
    frames: &mut Vec<Frame>,
    pair: Pair,
    is_normal: bool,
) -> Result<Typed, Fault> {
    let ctx = pair.ctx;
    let left = home_of(book, ctx, pair.left)?;
    let right = home_of(book, ctx, pair.right)?;
    if is_small(book, left)? && is_small(book, right)? {
        let left = small_term(book, left)?;
        let right = small_term(book, right)?;
        let terms = Pair { ctx, left, right };
        frames.push(Frame::Small)?;
        let focus = if is_normal {
            Focus::Fresh(terms)
        } else {
            Focus::Made(terms)
        };
        return Ok(Typed::Goes(focus));
    }
    match type_goal(alloc, book, left, is_normal)? {
        Some(head) => right_type(alloc, book, pair, head, is_normal),
        None => Ok(Typed::Asks(Question::HeadOf(left), Focus::LeftAsked(pair))),
    }
}

/// Two types, of which the left one has its head.
pub(crate) fn right_type(
    alloc: Global,
    book: &mut Book,
    pair: Pair,
    left: Goal,
    is_normal: bool,
) -> Result<Typed, Fault> {
    let right = home_of(book, pair.ctx, pair.right)?;
    match type_goal(alloc, book, right, is_normal)? {
        Some(head) => Ok(Typed::Goes(Focus::Headed(left, head))),
        None => Ok(Typed::Asks(Question::HeadOf(right), Focus::RightAsked(left))),
    }
}

/// The head of a type, which is the term itself where that is of the universe.
fn as_term(alloc: Global, book: &mut Book, head: Goal) -> Result<Goal, Fault> {
    if !is_small(book, head.susp)? {
        return Ok(head);
    }
    let term = small_goal(alloc, book, head.susp)?;
    let way = advance(book, head.way, term.way.equal, None)?;
    let way = Way {
        fits: term.way.fits,
        ..way
    };
    Ok(Goal { way, ..term })
}

/// The typing of the type that a head is.
fn typing_of(book: &mut Book, head: Goal) -> Result<NodeId, Fault> {
    let typing = as_type(book, head.susp.typing)?;
    type_under(book, head.susp.sub, typing)
}

/// Whether a head is a term of the universe.
fn is_term(book: &Book, head: Goal) -> Result<bool, Fault> {
    Ok(!is_type(book, head.susp.typing)?)
}

/// The form of the head of a type.
fn form_of(book: &mut Book, head: Goal) -> Result<TypeForm, Fault> {
    if is_term(book, head)? {
        return form_of_small(book, head);
    }
    form_of_type(book, head.susp)
}

/// Goes on from the heads of two types.
pub(crate) fn headed_types(
    alloc: Global,
    book: &mut Book,
    frames: &mut Vec<Frame>,
    left: Goal,
    right: Goal,
) -> Result<Focus, Fault> {
    let left = as_term(alloc, book, left)?;
    let right = as_term(alloc, book, right)?;
    let (to_left, to_right) = (left.way.equal, right.way.equal);
    if left.way.fits.is_none() && lead_to_one(book, to_left, to_right)? {
        let typing = typing_of(book, left)?;
        return Ok(Focus::Equal(meet_types(book, to_left, to_right, typing)?));
    }
    frames.push(Frame::TypesJoined(to_left, to_right))?;
    if is_term(book, left)? && is_term(book, right)? {
        frames.push(Frame::Small)?;
        if let Some(fits) = left.way.fits {
            frames.push(Frame::Fitted(fits))?;
        }
        return matched(alloc, book, frames, left, right);
    }
    let of_left = form_of(book, left)?;
    let of_right = form_of(book, right)?;
    formed(book, frames, left.susp.ctx, of_left, of_right)
}

/// Two types of one form: their first parts.
fn formed(
    book: &mut Book,
    frames: &mut Vec<Frame>,
    ctx: NodeId,
    left: TypeForm,
    right: TypeForm,
) -> Result<Focus, Fault> {
    match (left, right) {
        (TypeForm::Family(left), TypeForm::Family(right)) => {
            families(book, frames, ctx, left, right)
        }
        (TypeForm::Line(left), TypeForm::Line(right)) => lines(book, frames, ctx, left, right),
        (TypeForm::Glued(left), TypeForm::Glued(right)) => {
            match_glues(book, frames, ctx, [left, right], false)
        }
        _ => Ok(Focus::Differ),
    }
}

/// Two types of functions or of pairs: their domains.
fn families(
    book: &mut Book,
    frames: &mut Vec<Frame>,
    ctx: NodeId,
    left: Family,
    right: Family,
) -> Result<Focus, Fault> {
    if left.former != right.former {
        return Ok(Focus::Differ);
    }
    frames.push(Frame::TypeDomain(ctx, left, right))?;
    let left = type_under(book, left.sub, left.domain)?;
    let right = type_under(book, right.sub, right.domain)?;
    Ok(Focus::Fresh(Pair { ctx, left, right }))
}

/// Two types of paths: their lines.
fn lines(
    book: &mut Book,
    frames: &mut Vec<Frame>,
    ctx: NodeId,
    left: Line,
    right: Line,
) -> Result<Focus, Fault> {
    let both = Lines { ctx, left, right };
    frames.push(Frame::Line(both))?;
    Ok(Focus::Fresh(lines_within(book, both)?))
}

/// Their codomains, once the domains are equal.
pub(crate) fn codomains(
    book: &mut Book,
    frames: &mut Vec<Frame>,
    ctx: NodeId,
    both: [Family; 2],
    domains: NodeId,
) -> Result<Focus, Fault> {
    let [left, right] = both;
    let [ctx, to_left, to_right] = both_within(book, ctx, left, right, domains)?;
    frames.push(Frame::TypeCodomain(left.former, domains))?;
    let left = type_under(book, to_left, left.codomain)?;
    let right = type_under(book, to_right, right.codomain)?;
    Ok(Focus::Fresh(Pair { ctx, left, right }))
}

/// The codomains of types in the universe, once the domains are equal there.
pub(crate) fn small_codomains(
    book: &mut Book,
    frames: &mut Vec<Frame>,
    former: Former,
    heads: [Goal; 2],
    domains: NodeId,
) -> Result<Focus, Fault> {
    let [left, right] = heads;
    let (Some(of_left), Some(of_right)) = (small_family(book, left)?, small_family(book, right)?)
    else {
        return Err(Fault::Misfit);
    };
    let types = close_small(book, domains)?;
    let [ctx, to_left, to_right] = both_within(book, left.susp.ctx, of_left, of_right, types)?;
    frames.push(Frame::SmallCodomain(former, domains))?;
    let left = premise_of(book, left.susp.typing, 1)?;
    let left = term_under(book, to_left, left)?;
    let right = premise_of(book, right.susp.typing, 1)?;
    let right = term_under(book, to_right, right)?;
    Ok(Focus::Fresh(Pair { ctx, left, right }))
}
