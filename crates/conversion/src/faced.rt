//! Forms that have parts under faces: from part to part.

use crate::state::{Focus, Frame, Unglued};
use book::{Book, NodeId};
use equal_parts::{close_joined, kids};
use faced_parts::{
    Comps, Elements, Glues, Sided, Sides, Split, after_side, begin_sides, close_comp,
    close_elements, close_glues, comp_bases, comp_sides, element_sides, glue_maps, glue_types,
};
use tested_steps::Fault;
use trails::{Link, Step};
use values::Goal;

/// What waits for an equation of parts of forms that have parts under faces.
#[derive(Clone, Copy, Debug)]
pub enum FacedFrame {
    /// The lines of two compositions; their sides, where the lines are equal; and their bases.
    CompLine(Comps),
    CompSides(Comps, NodeId),
    CompBase(Comps, NodeId, NodeId),
    /// The bases of two glued types; what is glued, where these are equal; and the equivalences.
    GlueBase(Glues),
    GlueTypes(Glues, NodeId),
    GlueMaps(Glues, NodeId, NodeId),
    /// What is glued in the types of two elements, which are unglued; the elements, where that is
    /// equal; and the equivalences.
    UnglueTypes(Goal, Goal, Glues),
    UnglueElements(Glues, NodeId),
    UnglueMaps(Unglued),
    /// Two elements of a glued type, unglued; and where the face is true.
    Bases(Elements),
    Faces(Elements, NodeId),
    /// One conjunction of a face, above the kids at this place; or, of elements, above these.
    Side(Sided, Option<u8>),
    /// Normal forms of parts, of the equations of these.
    Settled(NodeId, NodeId),
    /// The faces, which are kids at this place, and differ.
    Differing(u8),
}

/// Goes on with what is compared where a face is true.
fn onward(frames: &mut Vec<Frame>, sides: Sides, kid: Option<u8>) -> Result<Focus, Fault> {
    match sides {
        Sides::All(equal) => Ok(Focus::Equal(equal)),
        Sides::One(sided, pair) => {
            frames.push(Frame::Faced(FacedFrame::Side(sided, kid)))?;
            match kid {
                Some(_) => Ok(Focus::Made(pair)),
                None => Ok(Focus::Rough(pair)),
            }
        }
    }
}

/// Goes on to what is compared where a face is true.
pub(crate) fn enter_sides(
    book: &mut Book,
    frames: &mut Vec<Frame>,
    frame: FacedFrame,
    split: Split,
    kid: Option<u8>,
) -> Result<Focus, Fault> {
    frames.push(Frame::Faced(frame))?;
    let sides = begin_sides(book, split)?;
    onward(frames, sides, kid)
}

/// A frame with an equation of its part: its next part, or its own equation.
pub(crate) fn after_faced(
    book: &mut Book,
    frames: &mut Vec<Frame>,
    frame: FacedFrame,
    equal: NodeId,
) -> Result<Focus, Fault> {
    match frame {
        FacedFrame::CompLine(both) => {
            let split = comp_sides(book, both, equal)?;
            enter_sides(
                book,
                frames,
                FacedFrame::CompSides(both, equal),
                split,
                Some(2),
            )
        }
        FacedFrame::CompSides(both, lines) => {
            frames.push(Frame::Faced(FacedFrame::CompBase(both, lines, equal)))?;
            Ok(Focus::Fresh(comp_bases(book, both, lines)?))
        }
        FacedFrame::GlueBase(both) => {
            let split = glue_types(book, both)?;
            enter_sides(
                book,
                frames,
                FacedFrame::GlueTypes(both, equal),
                split,
                Some(2),
            )
        }
        FacedFrame::GlueTypes(both, bases) => {
            let split = glue_maps(book, both, bases, equal)?;
            let frame = FacedFrame::GlueMaps(both, bases, equal);
            enter_sides(book, frames, frame, split, Some(3))
        }
        FacedFrame::UnglueTypes(left, right, both) => {
            frames.push(Frame::Faced(FacedFrame::UnglueElements(both, equal)))?;
            Ok(Focus::Spine(kids(book, left, right, 3)?))
        }
        FacedFrame::Bases(both) => {
            let frame = FacedFrame::Faces(both, equal);
            enter_sides(book, frames, frame, element_sides(both), None)
        }
        FacedFrame::Side(sided, kid) => {
            let sides = after_side(book, sided, equal)?;
            onward(frames, sides, kid)
        }
        _ => Ok(Focus::Equal(closed_faced(book, frame, equal)?)),
    }
}

/// The equation of what a frame is about, of that of its last part.
fn closed_faced(book: &mut Book, frame: FacedFrame, equal: NodeId) -> Result<NodeId, Fault> {
    match frame {
        FacedFrame::CompBase(both, lines, sides) => close_comp(book, both, [lines, sides, equal]),
        FacedFrame::GlueMaps(both, bases, types) => close_glues(book, both, [bases, types, equal]),
        FacedFrame::UnglueMaps(
            Unglued {
                both,
                types,
                elements,
            },
        ) => faced_parts::close_unglued(book, both, [types, elements, equal]),
        FacedFrame::Faces(both, bases) => close_elements(book, both, bases, equal),
        FacedFrame::Settled(left, right) => close_joined(book, left, right, None, equal),
        _ => Err(Fault::Misfit),
    }
}

/// The number of a conjunction, as steps have it.
fn number_of(sided: Sided) -> Result<u32, Fault> {
    match u32::try_from(sided.at) {
        Ok(number) => Ok(number),
        Err(_) => Err(Fault::Misfit),
    }
}

/// The link from what a frame is about to its part.
pub(crate) fn link_of_faced(frame: FacedFrame) -> Result<Option<Link>, Fault> {
    let step = match frame {
        FacedFrame::CompLine(_) | FacedFrame::GlueBase(_) => Step::Into(0),
        FacedFrame::CompBase(..) | FacedFrame::UnglueElements(..) => Step::Into(3),
        FacedFrame::Bases(_) => Step::Base(0),
        FacedFrame::Side(sided, Some(kid)) => Step::Side(kid, number_of(sided)?),
        FacedFrame::Side(sided, None) => Step::Face(number_of(sided)?),
        FacedFrame::Settled(left, right) => return Ok(Some(Link::Normal(left, right))),
        FacedFrame::Differing(place) => Step::Into(place),
        FacedFrame::CompSides(..)
        | FacedFrame::GlueTypes(..)
        | FacedFrame::GlueMaps(..)
        | FacedFrame::UnglueTypes(..)
        | FacedFrame::UnglueMaps(_)
        | FacedFrame::Faces(..) => return Ok(None),
    };
    Ok(Some(Link::Step(step)))
}
