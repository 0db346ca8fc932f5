//! Sides of a text, compared where two of them are true.

use book::{Book, NodeId};
use codes::{Equation, PairSide};
use eliminators::OnFace;
use examining_state::{CheckFault, Examiner, Pair, Stop, Verdict};
use form_rows::face as face_row;
use joined_sides::{Reach, Side, View, formula_at, into, turned, where_all};
use std::alloc::{AllocError, Global};
use tested_steps::{Fault, try_make};
use theory::Op;
use values::term_under;

/// A side of a text: its face, what stands there, and its first byte.
#[derive(Clone, Copy, Debug)]
pub(crate) struct Written {
    pub(crate) face: u64,
    pub(crate) typing: NodeId,
    pub(crate) at: u32,
}

impl Written {
    /// The side of a system.
    pub(crate) fn side(self) -> Side {
        Side {
            face: self.face,
            typing: self.typing,
        }
    }
}

/// The sides of systems.
pub(crate) fn sides_of(alloc: Global, written: &[Written]) -> Result<Vec<Side>, AllocError> {
    let mut sides = Vec::new(alloc);
    for side in written {
        sides.push(side.side())?;
    }
    Ok(sides)
}

/// Where two sides are true.
#[derive(Clone, Copy, Debug)]
pub(crate) struct Overlap {
    pub(crate) face: u64,
    pub(crate) view: View,
}

/// Where two faces of a context are true.
pub(crate) fn meeting(
    book: &mut Book,
    ctx: NodeId,
    faces: [u64; 2],
    reach: Reach,
) -> Result<Overlap, Fault> {
    let face = try_make(book, Op::Meet, &faces)?;
    let view = where_all(book, ctx, &[face], reach)?;
    Ok(Overlap { face, view })
}

/// What stands on a face, in a view where that is true.
pub(crate) fn seen(
    book: &mut Book,
    from: View,
    face: u64,
    reach: Reach,
    typing: NodeId,
) -> Result<NodeId, Fault> {
    let name = formula_at(book, reach)?;
    let sub = into(book, from, &[face], reach, name)?;
    term_under(book, sub, typing)
}

/// The equation of what was found on a face and what is wanted there, for a side that begins at a
/// byte.
///
/// # Errors
/// `SidesDiffer` where they differ, with the face as it stands where it is true.
pub(crate) fn agreed(
    state: &mut Examiner,
    book: &mut Book,
    at: u32,
    on: Overlap,
    pair: Pair,
) -> Result<OnFace, Stop> {
    match state.compared(book, at, pair)? {
        Verdict::Equal(equation) => Ok(OnFace {
            face: on.face,
            equation,
        }),
        Verdict::Differ(trail) => {
            let face = on.view.face(book, on.face)?;
            Err(Stop::refused(at, CheckFault::SidesDiffer(face, trail)))
        }
    }
}

/// The equation of two sides where both are true.
fn agree(
    state: &mut Examiner,
    book: &mut Book,
    earlier: Written,
    later: Written,
    reach: Reach,
) -> Result<OnFace, Stop> {
    let ctx = state.ctx();
    let overlap = meeting(book, ctx, [earlier.face, later.face], reach)?;
    let pair = Pair {
        ctx: overlap.view.ctx,
        found: seen(book, overlap.view, later.face, reach, later.typing)?,
        wanted: seen(book, overlap.view, earlier.face, reach, earlier.typing)?,
    };
    let OnFace { face, equation } = agreed(state, book, later.at, overlap, pair)?;
    let equation = turned(book, equation)?;
    Ok(OnFace { face, equation })
}

/// The equations of each side with those after it.
pub(crate) fn overlaps(
    state: &mut Examiner,
    book: &mut Book,
    sides: &[Written],
    reach: Reach,
) -> Result<Vec<Vec<OnFace>>, Stop> {
    let mut found: Vec<Vec<OnFace>> = Vec::new(state.alloc);
    for later in sides {
        for (equations, earlier) in found.iter_mut().zip(sides.iter()) {
            let equation = agree(state, book, *earlier, *later, reach)?;
            equations.push(equation)?;
        }
        found.push(Vec::new(state.alloc))?;
    }
    Ok(found)
}

/// The row of the face of equations.
pub(crate) fn face_of(
    state: &Examiner,
    book: &mut Book,
    equations: &[Equation],
) -> Result<u64, AllocError> {
    face_row(state.alloc, book, equations)
}

/// The faces of sides of an element of a glued type.
pub(crate) fn faces_of_sides(
    state: &Examiner,
    book: &mut Book,
    list: &[codes::Side],
) -> Result<Vec<u64>, AllocError> {
    let mut faces = Vec::new(state.alloc);
    for side in list {
        faces.push(face_of(state, book, &side.equations)?)?;
    }
    Ok(faces)
}

/// The faces of sides of a glued type.
pub(crate) fn faces_of_pairs(
    state: &Examiner,
    book: &mut Book,
    list: &[PairSide],
) -> Result<Vec<u64>, AllocError> {
    let mut faces = Vec::new(state.alloc);
    for side in list {
        faces.push(face_of(state, book, &side.equations)?)?;
    }
    Ok(faces)
}
