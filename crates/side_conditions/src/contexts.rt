//! The names and the faces of a context.

ghost use Rattle.std.specs.Prelude.{◌≡◌, ◌^◌, ◌<◌, ◌↔◌, ◌&&◌, IfOk, IsTrue, length, true};
ghost use Rattle.std.specs.List.{All};
ghost use Rattle.trees.specs.Judgements.{Context};
ghost use Rattle.rows.specs.Views.{IsTree, IsContext};
ghost use Rattle.points.specs.Points.{Point};
ghost use Rattle.faces.specs.Faces.{face_truth};
ghost use Rattle.conditions.specs.Sides.{is_face, is_true};
ghost use Rattle.side_conditions.specs.Levels.{indices, point_by_index};
ghost use Rattle.side_conditions.specs.Readings.{AreFacesOf};
ghost use Rattle.side_conditions.specs.Shapes.{tree_of};
ghost use Rattle.side_conditions.specs.Contexts.{context_of, IsMeetOf};

use crate::reading::{Detail, Reading};
use crate::walk::read_row;
use faces::{Face, Lattice};
use rows::{CtxId, CtxRow, Reader, TermId};
use std::alloc::{AllocError, Global};

/// Whether each index of a context is that of a name, the innermost first.
pub fn names_of<R: Reader>(alloc: Global, rows: &R, ctx: CtxId) -> Result<Vec<bool>, AllocError>
    requires { IsContext (R.means rows.now ctx.0) }
    ensures { IfOk result (λ names. names.items ≡ indices (context_of (R.means rows.now ctx.0))) }
{
    let mut names = Vec::new(alloc);
    let mut ctx = ctx;
    loop {
        match rows.context(ctx) {
            CtxRow::Nil => return Ok(names),
            CtxRow::Var(outer, _) => {
                names.push(false)?;
                ctx = outer;
            }
            CtxRow::Name(outer) => {
                names.push(true)?;
                ctx = outer;
            }
            CtxRow::Face(outer, _) => ctx = outer,
        }
    }
}

/// The face of a tree. That of a tree that is no face is true nowhere.
pub fn face_or_bottom<R: Reader>(
    alloc: Global,
    rows: &R,
    names: &[bool],
    tree: TermId,
) -> Result<Face, AllocError>
    requires tree { IsTree (R.means rows.now tree.0) }
    requires few { length names.now < 2 ^ 63 }
    ensures { IfOk result (λ face. (G : Context) → indices G ≡ names.now → (x : Point) →
        let t = tree_of (R.means rows.now tree.0) in
        face_truth face x ≡ (is_face G t && is_true (point_by_index G x) t)) }
{
    match read_row(alloc, rows, names, Detail::Value, tree)? {
        Some(Reading::Face(face)) => Ok(face),
        Some(Reading::Form(_)) | None => Ok(Face::bottom(alloc)?),
    }
}

/// The faces of a context, whose indices are these. That of a tree that is no face is true nowhere.
pub fn faces_of<R: Reader>(
    alloc: Global,
    rows: &R,
    names: &[bool],
    ctx: CtxId,
) -> Result<Vec<Face>, AllocError>
    requires context { IsContext (R.means rows.now ctx.0) }
    requires names { names.now ≡ indices (context_of (R.means rows.now ctx.0)) }
    requires few { length names.now < 2 ^ 63 }
    ensures { IfOk result (λ faces. AreFacesOf (context_of (R.means rows.now ctx.0)) faces.items) }
{
    let mut faces = Vec::new(alloc);
    let mut ctx = ctx;
    // the number of indices that stand further in
    let mut inner = 0;
    loop {
        match rows.context(ctx) {
            CtxRow::Nil => return Ok(faces),
            CtxRow::Var(outer, _) => {
                inner += 1;
                ctx = outer;
            }
            CtxRow::Name(outer) => {
                inner += 1;
                ctx = outer;
            }
            CtxRow::Face(outer, tree) => {
                faces.push(face_or_bottom(alloc, rows, &names[inner..], tree)?)?;
                ctx = outer;
            }
        }
    }
}

/// The face that is true where all of these are.
pub fn meet_of(alloc: Global, faces: &[Face]) -> Result<Face, AllocError>
    ensures { IfOk result (IsMeetOf faces.now) }
{
    let mut met = Face::top(alloc)?;
    for face in faces {
        met = met.meet(face)?;
    }
    Ok(met)
}
