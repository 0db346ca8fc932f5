//! What stands under faces: its sides, one after the other.

use crate::state::{Focus, Frame};
use book::Book;
use settled_sides::{Faced, Side, conjunctions_of, face_under, no_sides, one_more, side_at};
use std::alloc::Global;
use tested_steps::Fault;
use values::Part;

/// A side of a system: a conjunction, and what is in normal form there once that is found.
#[derive(Clone, Copy, Debug)]
pub(crate) struct Conjunction {
    pub(crate) face: u64,
    pub(crate) part: Option<Part>,
}

/// The frames around a focus, the innermost last, and the sides of the systems among them.
#[derive(Drop)]
pub(crate) struct Around {
    pub(crate) frames: Vec<Frame>,
    pub(crate) sides: Vec<Conjunction>,
}

/// The sides of what stands under a face: the places of its first side and of the one that is
/// sought among all sides.
#[derive(Clone, Copy, Debug)]
pub struct Sides {
    faced: Faced,
    first: usize,
    at: usize,
}

/// Goes on from a form to what stands under its face.
pub(crate) fn enter_sides(
    alloc: Global,
    book: &mut Book,
    around: &mut Around,
    faced: Faced,
) -> Result<Focus, Fault> {
    let first = around.sides.len();
    let face = face_under(book, faced.sub, faced.face)?;
    let conjunctions = conjunctions_of(alloc, book, faced.ctx, face)?;
    for face in conjunctions.iter() {
        around.sides.push(Conjunction {
            face: *face,
            part: None,
        })?;
    }
    let at = first;
    enter_side(alloc, book, around, Sides { faced, first, at })
}

/// The side that is sought; after the last, the system of all.
fn enter_side(
    alloc: Global,
    book: &mut Book,
    around: &mut Around,
    sides: Sides,
) -> Result<Focus, Fault> {
    let Some(side) = around.sides.get(sides.at) else {
        return joined(alloc, book, around, sides);
    };
    let susp = side_at(book, sides.faced, side.face)?;
    around.frames.push(Frame::Side(sides))?;
    Ok(Focus::Fresh(susp))
}

/// The side after one that is in normal form.
pub(crate) fn after_side(
    alloc: Global,
    book: &mut Book,
    around: &mut Around,
    sides: Sides,
    part: Part,
) -> Result<Focus, Fault> {
    let Some(side) = around.sides.get_mut(sides.at) else {
        return Err(Fault::Misfit);
    };
    side.part = Some(part);
    let Some(at) = sides.at.checked_add(1) else {
        return Err(Fault::Misfit);
    };
    enter_side(alloc, book, around, Sides { at, ..sides })
}

/// The system of all sides.
fn joined(
    alloc: Global,
    book: &mut Book,
    around: &mut Around,
    sides: Sides,
) -> Result<Focus, Fault> {
    let mut system = no_sides(alloc, book, sides.faced)?;
    for _ in sides.first..sides.at {
        let Some(Conjunction { face, part }) = around.sides.pop() else {
            return Err(Fault::Misfit);
        };
        let Some(part) = part else {
            return Err(Fault::Misfit);
        };
        system = one_more(alloc, book, sides.faced, Side { face, part }, system)?;
    }
    Ok(Focus::Ready(system.part))
}
