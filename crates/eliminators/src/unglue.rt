//! Elements of glued types, unglued.

use crate::asks::ask_alignment;
use crate::frames::{Frame, Known, Pending, Settled, Waiting};
use crate::functions::type_under;
use crate::gluing::{GlueParts, close_unglue, fire_glue, glued_of};
use crate::under::{Within, equation_under, into_face, within_face};
use book::{Book, NodeId};
use glue_entries::{EQUIV_TYCONG, EQUIV_TYCONG_GIVES};
use kan_rules::{UNGLUE_OTHER, UNGLUE_OTHER_GIVES};
use std::alloc::Global;
use tested_steps::{Fault, claim_of, derive, holds_under, premise_of, rule_of};
use theory::{Claim, GlueRule, RuleName};
use values::{Goal, Question, Susp, advance, term_under};
use way_rules::{TERM_FITTED, TERM_FITTED_GIVES};

/// Two glued types, where the face of the first is true.
#[derive(Clone, Copy)]
struct Both {
    asked: GlueParts,
    /// That of the head itself.
    own: GlueParts,
    /// The context with the first face.
    within: Within,
    /// To there from the context with the second face.
    over: NodeId,
}

/// The glued type that was asked and that of the head, if their faces are one.
fn both_of(book: &mut Book, goal: Goal, head: Goal) -> Result<Option<Both>, Fault> {
    let asked = glued_of(book, goal)?;
    let own = glued_of(book, head)?;
    let within = within_face(book, goal.susp.ctx, asked.face)?;
    let other = within_face(book, goal.susp.ctx, own.face)?;
    if !holds_under(book, within.ctx, within.out, own.face)?
        || !holds_under(book, other.ctx, other.out, asked.face)?
    {
        return Ok(None);
    }
    Ok(Some(Both {
        asked,
        own,
        within,
        over: into_face(book, within.out, own.face)?,
    }))
}

/// Whether the base of the head's type is the one that was asked.
fn ask_bases(frame: Frame, head: Goal, both: Both) -> Settled {
    let question = Question::Convert {
        ctx: frame.goal.susp.ctx,
        left: both.own.base,
        right: both.asked.base,
    };
    let known = Known::Nothing;
    Settled::Asks(question, Waiting::Equation(Pending { frame, head, known }))
}

/// Whether what is glued is equal where the face is true.
fn ask_glued(
    book: &mut Book,
    pending: Pending,
    both: Both,
    bases: NodeId,
) -> Result<Settled, Fault> {
    let question = Question::Convert {
        ctx: both.within.ctx,
        left: type_under(book, both.over, both.own.ty)?,
        right: both.asked.ty,
    };
    let pending = Pending {
        known: Known::Bases(bases),
        ..pending
    };
    Ok(Settled::Asks(question, Waiting::Equation(pending)))
}

/// The map of the head's type where the face is true, as one of what was asked.
fn map_as_asked(
    book: &mut Book,
    both: Both,
    bases: NodeId,
    glued: NodeId,
) -> Result<NodeId, Fault> {
    let there = both.within.ctx;
    let base = type_under(book, both.within.out, both.own.base)?;
    let asked = type_under(book, both.within.out, both.asked.base)?;
    let own = type_under(book, both.over, both.own.ty)?;
    let parts = [
        context_row(book, there)?,
        type_subject(book, own)?,
        type_subject(book, base)?,
        type_subject(book, both.asked.ty)?,
        type_subject(book, asked)?,
    ];
    let bases = equation_under(book, both.within.out, bases)?;
    let premises = [there, own, base, both.asked.ty, asked, glued, bases];
    let [fits]: [NodeId; 1] = derive(book, EQUIV_TYCONG, EQUIV_TYCONG_GIVES, &parts, &premises)?;
    let map = term_under(book, both.over, both.own.map)?;
    let [map]: [NodeId; 1] = derive(book, TERM_FITTED, TERM_FITTED_GIVES, &[], &[map, fits])?;
    Ok(map)
}

/// The row of G, of `ctx G`.
fn context_row(book: &Book, ctx: NodeId) -> Result<u64, Fault> {
    match claim_of(book, ctx)? {
        Claim::Ctx(row) => Ok(row),
        _ => Err(Fault::Misfit),
    }
}

/// The row of A, of `G >> A`.
fn type_subject(book: &Book, ty: NodeId) -> Result<u64, Fault> {
    match claim_of(book, ty)? {
        Claim::Ty(_, row) => Ok(row),
        _ => Err(Fault::Misfit),
    }
}

/// Whether the maps are equal where the face is true.
fn ask_maps(
    book: &mut Book,
    pending: Pending,
    both: Both,
    bases: NodeId,
    glued: NodeId,
) -> Result<Settled, Fault> {
    let question = Question::Convert {
        ctx: both.within.ctx,
        left: both.asked.map,
        right: map_as_asked(book, both, bases, glued)?,
    };
    let pending = Pending {
        known: Known::Glued(bases, glued),
        ..pending
    };
    Ok(Settled::Asks(question, Waiting::Equation(pending)))
}

/// What a pending frame knows once all is known of two glued types: that their bases, what is glued
/// to them and the maps are equal.
#[derive(Clone, Copy)]
struct Equal {
    bases: NodeId,
    glued: NodeId,
    maps: NodeId,
}

/// The base of what was glued, at another type.
fn fire_other(
    book: &mut Book,
    goal: Goal,
    head: Goal,
    both: Both,
    equal: Equal,
) -> Result<Goal, Fault> {
    let node = head.susp.typing;
    let above = premise_of(book, node, 3)?;
    let base = premise_of(book, node, 4)?;
    let image = premise_of(book, node, 5)?;
    let premises = [
        both.asked.base,
        both.asked.ty,
        both.asked.map,
        both.own.base,
        both.own.ty,
        both.own.map,
        term_under(book, both.own.lifted, above)?,
        term_under(book, head.susp.sub, base)?,
        equation_under(book, both.own.lifted, image)?,
        head.way.equal,
        equal.bases,
        equal.glued,
        equal.maps,
    ];
    let parts = [both.asked.face, both.own.face];
    let [equation]: [NodeId; 1] = derive(
        book,
        UNGLUE_OTHER,
        UNGLUE_OTHER_GIVES,
        &parts,
        &premises,
    )?;
    let way = advance(book, goal.way, equation, Some(equal.bases))?;
    let susp = Susp {
        ctx: goal.susp.ctx,
        typing: base,
        sub: head.susp.sub,
    };
    Ok(Goal { susp, way })
}

/// An element of a glued type that was found, unglued.
pub fn settle_unglue(
    alloc: Global,
    book: &mut Book,
    frame: Frame,
    head: Goal,
) -> Result<Settled, Fault> {
    let goal = frame.goal;
    if rule_of(book, head.susp.typing)? != RuleName::Gluing(GlueRule::Glue) {
        return Ok(Settled::Closed(close_unglue(book, goal, head)?));
    }
    if head.way.fits.is_none() {
        return Ok(Settled::Fired(fire_glue(book, goal, head)?));
    }
    match both_of(book, goal, head)? {
        Some(both) => Ok(ask_bases(frame, head, both)),
        None => ask_alignment(alloc, book, head),
    }
}

/// An element of another glued type, unglued, with the equation that it asked for.
pub fn resume_unglue(
    book: &mut Book,
    pending: Pending,
    equation: NodeId,
) -> Result<Settled, Fault> {
    let (goal, head) = (pending.frame.goal, pending.head);
    let Some(both) = both_of(book, goal, head)? else {
        return Err(Fault::Misfit);
    };
    match pending.known {
        Known::Nothing => ask_glued(book, pending, both, equation),
        Known::Bases(bases) => ask_maps(book, pending, both, bases, equation),
        Known::Glued(bases, glued) => {
            let equal = Equal {
                bases,
                glued,
                maps: equation,
            };
            Ok(Settled::Fired(fire_other(book, goal, head, both, equal)?))
        }
        Known::Argument(_) => Err(Fault::Misfit),
    }
}
