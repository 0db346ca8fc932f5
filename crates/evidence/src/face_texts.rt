//! The text of a face that is one conjunction.

ghost use Rattle.std.specs.Prelude.{◌≡◌, IfOk, List, Some, string_bytes, ℕ};
ghost use Rattle.rows.specs.Views.{IsContext, IsTree};
ghost use Rattle.side_conditions.specs.Contexts.{context_of};
ghost use Rattle.side_conditions.specs.Shapes.{tree_of};
ghost use Rattle.book.specs.Shown.{book_means};
ghost use Rattle.evidence.specs.Faces.{IsFaceText, conj_text, equation_text};

use book::Book;
use faces::Equation;
use rows::{CtxId, TermId};
use std::alloc::{AllocError, Global};

/// The text of an equation.
fn equation_text(alloc: Global, equation: Equation) -> Result<String, AllocError>
    ensures { IfOk result (λ text. string_bytes text ≡ equation_text equation) }
{
    let name = equation.name;
    if equation.end {
        return Ok(format!(in alloc; "(i{name}=1)")?);
    }
    Ok(format!(in alloc; "(i{name}=0)")?)
}

/// The text of a conjunction.
fn conj_text(alloc: Global, conj: &[Equation]) -> Result<String, AllocError>
    ensures { IfOk result (λ text. string_bytes text ≡ conj_text conj.now) }
{
    let mut text = String::new(alloc);
    for equation in conj {
        let next = equation_text(alloc, *equation)?;
        text.push_str(next.as_str())?;
    }
    Ok(text)
}

/// The text of a face of a context, if it is one conjunction of names at ends.
pub(crate) fn face_text(
    alloc: Global,
    book: &Book,
    ctx: CtxId,
    face: TermId,
) -> Result<Option<String>, AllocError>
    requires context { IsContext (book_means book.now ctx.0) }
    requires face { IsTree (book_means book.now face.0) }
    ensures { let f = book_means book.now in IfOk result (λ found. (text : _) → found ≡ Some text →
        IsFaceText (context_of (f ctx.0)) (tree_of (f face.0)) (string_bytes text)) }
{
    let faces = book.context_faces(ctx)?;
    let Some(face) = faces.face_of(book, face)? else {
        return Ok(None);
    };
    match face.parts() {
        [conj] => Ok(Some(conj_text(alloc, conj.elements())?)),
        [] => Ok(None),
        [_, _, ..] => Ok(None),
    }
}
