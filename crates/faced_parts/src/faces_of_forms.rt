//! The faces of two forms.

use book::{Book, NodeId};
use eliminators::{Within, into_face, within_face};
use settled_sides::face_under;
use tested_steps::{Fault, holds_under, part_of};
use values::Susp;

/// The faces p and q of two forms in H, which are true at the same points.
#[derive(Clone, Copy, Debug)]
pub struct Faces {
    pub left: u64,
    pub right: u64,
    /// H.p, with the substitution from there to H.
    pub within: Within,
    /// From H.p to H.q.
    pub over: NodeId,
}

/// The face of a form, which is part 2 of its rule, in H.
fn face_of(book: &mut Book, form: Susp) -> Result<u64, Fault> {
    let face = part_of(book, form.typing, 2)?;
    face_under(book, form.sub, face)
}

/// The faces of two forms, if they are true at the same points.
pub fn same_faces(
    book: &mut Book,
    ctx: NodeId,
    left: Susp,
    right: Susp,
) -> Result<Option<Faces>, Fault> {
    let left = face_of(book, left)?;
    let right = face_of(book, right)?;
    let within = within_face(book, ctx, left)?;
    let other = within_face(book, ctx, right)?;
    if !holds_under(book, within.ctx, within.out, right)?
        || !holds_under(book, other.ctx, other.out, left)?
    {
        return Ok(None);
    }
    let over = into_face(book, within.out, right)?;
    Ok(Some(Faces {
        left,
        right,
        within,
        over,
    }))
}
