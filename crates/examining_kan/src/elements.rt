//! Elements of glued types.

use crate::overlaps::{Overlap, Written, agreed, face_of, faces_of_sides, overlaps, sides_of};
use book::{Book, NodeId};
use codes::{Code, Side};
use eliminators::{OnFace, type_under};
use examining_state::{
    Examiner, Gluing, Head, Kind, Lining, Pair, Shape, Stop, Task, Tasks, start_of,
};
use joined_sides::{
    Glued, Home, Level, Probe, Reach, TypeOn, agreement, fitted, glue, glued_by, image, images,
    system, turned, where_all,
};
use tested_steps::{Fault, holds_under, try_make};
use theory::Op;
use values::term_under;

/// Whether the face of a glued type is true exactly where one of some faces is.
pub(crate) fn is_cover(book: &mut Book, parts: Glued, faces: &[u64]) -> Result<bool, Fault> {
    let mut cover = try_make(book, Op::F0, &[])?;
    for face in faces.iter().rev() {
        cover = try_make(book, Op::Join, &[*face, cover])?;
    }
    let there = where_all(book, parts.ctx, &[cover], Reach::Face)?;
    if !holds_under(book, there.ctx, there.out, parts.face)? {
        return Ok(false);
    }
    let there = where_all(book, parts.ctx, &[parts.face], Reach::Face)?;
    holds_under(book, there.ctx, there.out, cover)
}

/// The parts of an element of a glued type.
#[derive(Clone, Copy)]
struct Parts<'a> {
    base: &'a Code,
    sides: &'a [Side],
}

/// The parts of an element of a glued type.
fn parts_of(code: &Code) -> Result<Parts<'_>, Fault> {
    match code {
        Code::GlueTerm { base, sides, .. } => Ok(Parts { base, sides }),
        _ => Err(Fault::Misfit),
    }
}

/// An element of a glued type, against a type.
pub(crate) fn element<'a>(
    state: &mut Examiner,
    book: &mut Book,
    tasks: &mut Tasks<'a>,
    code: &'a Code,
    ty: NodeId,
) -> Result<(), Stop> {
    let Parts { base, sides } = parts_of(code)?;
    let at = start_of(code);
    let shape = state.shape(book, at, ty)?;
    let Head::Glued(parts) = shape.head else {
        return Err(state.wanted(book, at, Kind::Glue, ty));
    };
    let faces = faces_of_sides(state, book, sides)?;
    if !is_cover(book, parts, &faces)? {
        return Err(state.wanted(book, at, Kind::Glue, ty));
    }
    Ok(tasks.plan(&[
        Task::Check(base, parts.base),
        Task::Gluing(code, Gluing::ElementSides(parts, shape)),
    ])?)
}

/// The sides of an element of a glued type, where the base was found last.
pub(crate) fn element_sides<'a>(
    state: &mut Examiner,
    tasks: &mut Tasks<'a>,
    code: &'a Code,
    parts: Glued,
    shape: Shape,
) -> Result<(), Stop> {
    let base = state.take_node()?;
    Ok(tasks.plan(&[
        Task::Gluing(code, Gluing::MoreSides(parts, 0)),
        Task::Gluing(code, Gluing::CloseElement(parts, shape, base)),
    ])?)
}

/// Sides from one on, each where its face is true, at the type there.
pub(crate) fn more_sides<'a>(
    state: &mut Examiner,
    book: &mut Book,
    tasks: &mut Tasks<'a>,
    code: &'a Code,
    parts: Glued,
    number: usize,
) -> Result<(), Stop> {
    let Some(side) = parts_of(code)?.sides.get(number) else {
        return Ok(());
    };
    let face = face_of(state, book, &side.equations)?;
    let there = where_all(book, parts.ctx, &[face], Reach::Face)?;
    let sub = parts.into(book, there)?;
    let ty = type_under(book, sub, parts.ty)?;
    state.enter_face(book, face)?;
    Ok(tasks.plan(&[
        Task::Check(&side.body, ty),
        Task::Lining(Lining::Leave),
        Task::Gluing(code, Gluing::MoreSides(parts, number + 1)),
    ])?)
}

/// The sides that were found last.
fn written(state: &mut Examiner, book: &mut Book, list: &[Side]) -> Result<Vec<Written>, Fault> {
    let nodes = state.take_nodes(list.len())?;
    let mut found = Vec::new(state.alloc);
    for (side, typing) in list.iter().zip(nodes.iter()) {
        found.push(Written {
            face: face_of(state, book, &side.equations)?,
            typing: *typing,
            at: side.span.start,
        })?;
    }
    Ok(found)
}

/// The equation of a base with the image of a side, where the side is true.
fn met(
    state: &mut Examiner,
    book: &mut Book,
    parts: Glued,
    base: NodeId,
    side: Written,
) -> Result<OnFace, Stop> {
    let view = where_all(book, parts.ctx, &[side.face], Reach::Face)?;
    let pair = Pair {
        ctx: view.ctx,
        found: image(state.alloc, book, parts, view, side.typing)?,
        wanted: term_under(book, view.out, base)?,
    };
    let on = Overlap {
        face: side.face,
        view,
    };
    let OnFace { face, equation } = agreed(state, book, side.at, on, pair)?;
    let equation = turned(book, equation)?;
    Ok(OnFace { face, equation })
}

/// The equations of a base with the images of sides.
fn meetings(
    state: &mut Examiner,
    book: &mut Book,
    parts: Glued,
    base: NodeId,
    sides: &[Written],
) -> Result<Vec<OnFace>, Stop> {
    let mut found = Vec::new(state.alloc);
    for side in sides {
        let equation = met(state, book, parts, base, *side)?;
        found.push(equation)?;
    }
    Ok(found)
}

/// The equation of the image of the last of some systems with a base, of those of its sides.
fn image_meets(
    state: &Examiner,
    book: &mut Book,
    parts: Glued,
    base: NodeId,
    levels: &[Level],
    meetings: &[OnFace],
) -> Result<NodeId, Fault> {
    let images = images(state.alloc, book, parts, levels)?;
    let home = Home {
        ctx: parts.ctx,
        reach: Reach::Face,
        ty: None,
    };
    let probe = Probe {
        face: None,
        reach: Reach::Face,
        typing: base,
    };
    let equal = agreement(book, home, &images, probe, meetings)?;
    turned(book, equal)
}

/// An element of a glued type, of the base and of the sides that were found last.
pub(crate) fn close_element(
    state: &mut Examiner,
    book: &mut Book,
    code: &Code,
    parts: Glued,
    shape: Shape,
    base: NodeId,
) -> Result<(), Stop> {
    let written = written(state, book, parts_of(code)?.sides)?;
    let pairs = overlaps(state, book, &written, Reach::Face)?;
    let meetings = meetings(state, book, parts, base, &written)?;
    let home = Home {
        ctx: parts.ctx,
        reach: Reach::Face,
        ty: Some(TypeOn {
            face: Some(parts.face),
            ty: parts.ty,
        }),
    };
    let sides = sides_of(state.alloc, &written)?;
    let levels = system(state.alloc, book, home, &sides, &pairs)?;
    let image = image_meets(state, book, parts, base, &levels, &meetings)?;
    let Some(whole) = levels.last() else {
        return Err(Stop::NotTaken(Fault::Misfit));
    };
    let over = parts.over(book, whole.cover)?;
    let term = glue(book, over, whole.body, base, image)?;
    let types = glued_by(book, parts, over)?;
    let term = fitted(book, term, types)?;
    let term = shape.closed(book, term)?;
    Ok(state.found(term)?)
}
