//! Elements of glued types, unglued.

use crate::elements::is_cover;
use crate::glued_types::{glued_parts, pair_sides};
use crate::overlaps::faces_of_pairs;
use book::{Book, NodeId};
use codes::Code;
use examining_state::{Examiner, Gluing, Head, Inferred, Kind, Sort, Stop, Task, Tasks, start_of};
use joined_sides::{glued_type, unglued};
use tested_steps::Fault;

/// The first byte of what is unglued.
fn start_of_element(code: &Code) -> Result<u32, Fault> {
    match code {
        Code::Unglue { base, .. } => Ok(start_of(base)),
        _ => Err(Fault::Misfit),
    }
}

/// To unglue the element that was inferred last.
pub(crate) fn unglue<'a>(
    state: &mut Examiner,
    book: &mut Book,
    tasks: &mut Tasks<'a>,
    code: &'a Code,
) -> Result<(), Stop> {
    let element = state.take_head()?;
    let at = start_of_element(code)?;
    let shape = state.shape(book, at, element.ty)?;
    let Head::Glued(parts) = shape.head else {
        return Err(state.wanted(book, at, Kind::Glue, element.ty));
    };
    let faces = faces_of_pairs(state, book, pair_sides(code)?)?;
    if !is_cover(book, parts, &faces)? {
        return Err(state.wanted(book, at, Kind::Glue, element.ty));
    }
    Ok(tasks.plan(&[
        Task::Gluing(code, Gluing::Sides(parts.base, Sort::Large, 0)),
        Task::Gluing(code, Gluing::CloseUnglued(element, parts.base)),
    ])?)
}

/// An element of a glued type over a base, unglued, by the sides that were found last.
pub(crate) fn close_unglued(
    state: &mut Examiner,
    book: &mut Book,
    code: &Code,
    element: Inferred,
    base: NodeId,
) -> Result<(), Stop> {
    let parts = glued_parts(state, book, pair_sides(code)?, Sort::Large, base)?;
    let ty = glued_type(book, parts)?;
    let term = state.term_at(book, start_of(code), element.term, [element.ty, ty])?;
    let term = unglued(book, parts, term)?;
    Ok(state.inferred(term, base)?)
}
