//! Names that the faces of a context fix.

ghost use Rattle.std.specs.Prelude.{◌≡◌, ◌≤◌, ◌↔◌, IfOk, IsTrue};
ghost use Rattle.rows.specs.Views.{IsContext};
ghost use Rattle.side_conditions.specs.Contexts.{context_of};
ghost use Rattle.side_conditions.specs.Levels.{count_indices};
ghost use Rattle.book.specs.Shown.{Extends, book_means};
ghost use Rattle.evidence.specs.Contexts.{FixesExactly, IsConsistent, IsFixed};

use book::Book;
use rows::{CtxId, CtxRow, Maker, Reader, TermId};
use std::alloc::{AllocError, Global};
use theory::Op;

/// How many variables and names a context has.
pub(crate) fn count_indices(book: &Book, ctx: CtxId) -> u64
    requires { IsContext (book_means book.now ctx.0) }
    ensures { result ≡ count_indices (context_of (book_means book.now ctx.0)) }
{
    let mut rest = ctx;
    let mut count = 0;
    loop {
        match book.context(rest) {
            CtxRow::Nil => return count,
            CtxRow::Var(below, _) => {
                rest = below;
                count += 1;
            }
            CtxRow::Name(below) => {
                rest = below;
                count += 1;
            }
            CtxRow::Face(below, _) => rest = below,
        }
    }
}

/// Whether the faces of a context are true together somewhere.
pub(crate) fn is_consistent(book: &mut Book, ctx: CtxId) -> Result<bool, AllocError>
    requires { IsContext (book_means book.old ctx.0) }
    ensures extends { Extends book.old book.new }
    ensures consistent { IfOk result (λ yes.
        IsTrue yes ↔ IsConsistent (context_of (book_means book.old ctx.0))) }
{
    let bottom = book.make(Op::F0, &[])?;
    Ok(!book.holds(ctx, TermId(bottom))?)
}

/// Whether the faces of a context fix the name of an index at an end.
fn is_fixed(book: &mut Book, ctx: CtxId, index: u32) -> Result<bool, AllocError>
    requires { IsContext (book_means book.old ctx.0) }
    ensures extends { Extends book.old book.new }
    ensures fixed { IfOk result (λ yes.
        IsTrue yes ↔ IsFixed (context_of (book_means book.old ctx.0)) index) }
{
    let name = book.var(index)?;
    let zero = book.make(Op::Eq0, &[name])?;
    if book.holds(ctx, TermId(zero))? {
        return Ok(true);
    }
    let one = book.make(Op::Eq1, &[name])?;
    Ok(book.holds(ctx, TermId(one))?)
}

/// The names that the faces of a context fix, of which all have an index below this one.
pub(crate) fn fixed_names(
    alloc: Global,
    book: &mut Book,
    ctx: CtxId,
    count: u32,
) -> Result<Vec<u128>, AllocError>
    requires context { IsContext (book_means book.old ctx.0) }
    requires all { count_indices (context_of (book_means book.old ctx.0)) ≤ count }
    ensures extends { Extends book.old book.new }
    ensures fixed { IfOk result (λ names.
        FixesExactly (context_of (book_means book.old ctx.0)) names.items) }
{
    let mut names = Vec::new(alloc);
    for index in 0..count {
        if is_fixed(book, ctx, index)? {
            names.push(index as u128)?;
        }
    }
    Ok(names)
}
