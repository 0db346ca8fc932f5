//! Two heads of one kind that have parts under faces: their first parts.

use crate::faced::{FacedFrame, enter_sides};
use crate::state::{Focus, Frame, Unglued};
use book::{Book, NodeId};
use equal_parts::Pair;
use faced_parts::{
    Bases, Comps, Faces, comp_lines, elements_of, glue_bases, glue_maps, glue_types, glues_of,
    same_faces, unglue_bases,
};
use tested_steps::Fault;
use values::{Goal, Question, Susp};

/// The faces of two forms, which are kids at a place; None where they differ.
fn faces_or_differ(
    book: &mut Book,
    frames: &mut Vec<Frame>,
    ctx: NodeId,
    forms: [Susp; 2],
    place: u8,
) -> Result<Option<Faces>, Fault> {
    let [left, right] = forms;
    let faces = same_faces(book, ctx, left, right)?;
    if faces.is_none() {
        frames.push(Frame::Faced(FacedFrame::Differing(place)))?;
    }
    Ok(faces)
}

/// Two compositions: their lines.
pub(crate) fn match_comps(
    book: &mut Book,
    frames: &mut Vec<Frame>,
    left: Goal,
    right: Goal,
) -> Result<Focus, Fault> {
    let ctx = left.susp.ctx;
    let Some(faces) = faces_or_differ(book, frames, ctx, [left.susp, right.susp], 1)? else {
        return Ok(Focus::Differ);
    };
    let both = Comps { left, right, faces };
    frames.push(Frame::Faced(FacedFrame::CompLine(both)))?;
    Ok(Focus::Fresh(comp_lines(book, left, right)?))
}

/// Two glued types: their bases. Both are compared as types, or as terms of the universe.
pub(crate) fn match_glues(
    book: &mut Book,
    frames: &mut Vec<Frame>,
    ctx: NodeId,
    forms: [Susp; 2],
    is_small: bool,
) -> Result<Focus, Fault> {
    let Some(faces) = faces_or_differ(book, frames, ctx, forms, 1)? else {
        return Ok(Focus::Differ);
    };
    let both = glues_of(book, ctx, forms, faces, is_small)?;
    frames.push(Frame::Faced(FacedFrame::GlueBase(both)))?;
    Ok(Focus::Fresh(glue_bases(both)))
}

/// Two elements of glued types, unglued: what is glued there.
pub(crate) fn match_unglued(
    book: &mut Book,
    frames: &mut Vec<Frame>,
    left: Goal,
    right: Goal,
) -> Result<Focus, Fault> {
    let ctx = left.susp.ctx;
    let forms = [left.susp, right.susp];
    let Some(faces) = faces_or_differ(book, frames, ctx, forms, 0)? else {
        return Ok(Focus::Differ);
    };
    let both = glues_of(book, ctx, forms, faces, false)?;
    let split = glue_types(book, both)?;
    let frame = FacedFrame::UnglueTypes(left, right, both);
    enter_sides(book, frames, frame, split, Some(1))
}

/// What two elements, which are equal, ask for before the equivalences are compared; or the focus
/// at these.
pub(crate) enum Elements {
    Goes(Focus),
    Asks(Question, Focus),
}

/// Two elements that are equal, unglued: whether their bases are.
pub(crate) fn after_elements(
    book: &mut Book,
    frames: &mut Vec<Frame>,
    unglued: Unglued,
) -> Result<Elements, Fault> {
    match unglue_bases(book, unglued.both)? {
        Bases::Equal(bases) => Ok(Elements::Goes(unglue_maps(book, frames, unglued, bases)?)),
        Bases::Asks(question) => Ok(Elements::Asks(question, Focus::BasesAsked(unglued))),
    }
}

/// The equivalences of two elements that are equal, unglued, whose bases are equal.
pub(crate) fn unglue_maps(
    book: &mut Book,
    frames: &mut Vec<Frame>,
    unglued: Unglued,
    bases: NodeId,
) -> Result<Focus, Fault> {
    let split = glue_maps(book, unglued.both, bases, unglued.types)?;
    enter_sides(
        book,
        frames,
        FacedFrame::UnglueMaps(unglued),
        split,
        Some(2),
    )
}

/// Two elements of a glued type of which one is literally glued: unglued.
pub(crate) fn match_elements(
    book: &mut Book,
    frames: &mut Vec<Frame>,
    own: Goal,
    heads: [Goal; 2],
) -> Result<Focus, Fault> {
    let both = elements_of(book, own, heads)?;
    frames.push(Frame::Faced(FacedFrame::Bases(both)))?;
    let pair: Pair = both.bases();
    Ok(Focus::Rough(pair))
}
