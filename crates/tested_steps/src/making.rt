//! Rows of trees, substitutions and contexts, made if what they name is there.

ghost use Rattle.std.specs.Prelude.{◌≡◌, ◌↔◌, IfOk, IsTrue, option_and_then};
ghost use Rattle.std.specs.List.{All};
ghost use Rattle.trees.specs.Things.{meanings, both, made, instance_of, pushed_on, then_of};
ghost use Rattle.trees.specs.Things.{with_variable, with_a_name, with_a_face};
ghost use Rattle.rows.specs.Views.{IsTree, IsSubst, IsContext};
ghost use Rattle.book.specs.Shown.{book_means, Extends};

use crate::fault::Fault;
use book::Book;
use rows::Maker;
use theory::{Op, PartKind, kid_count};

/// Whether all numbers are those of rows of trees.
fn are_trees(book: &Book, rows: &[u64]) -> bool
    ensures { IsTrue result ↔ All (λ row. IsTree (book_means book.now row)) rows.now }
{
    for row in rows {
        if !book.is_of_kind(*row, PartKind::Term) {
            return false;
        }
    }
    true
}

/// An operator over trees, as many as it takes.
pub fn try_make(book: &mut Book, op: Op, kids: &[u64]) -> Result<u64, Fault>
    ensures extends { Extends book.old book.new }
    ensures means { IfOk result (λ row. book_means book.new row ≡
        option_and_then (made op) (meanings (book_means book.old) kids.now)) }
{
    if kids.len() != kid_count(op) as usize {
        return Err(Fault::Misfit);
    }
    if !are_trees(book, kids) {
        return Err(Fault::Misfit);
    }
    Ok(book.make(op, kids)?)
}

/// A tree under a substitution.
pub fn try_instance(book: &mut Book, term: u64, sub: u64) -> Result<u64, Fault>
    ensures extends { Extends book.old book.new }
    ensures means { IfOk result (λ row. book_means book.new row ≡
        both instance_of (book_means book.old term) (book_means book.old sub)) }
{
    if !book.is_of_kind(term, PartKind::Term) || !book.is_of_kind(sub, PartKind::Subst) {
        return Err(Fault::Misfit);
    }
    Ok(book.instance(term, sub)?)
}

/// A substitution with a tree pushed on it.
pub fn try_push(book: &mut Book, sub: u64, term: u64) -> Result<u64, Fault>
    ensures extends { Extends book.old book.new }
    ensures means { IfOk result (λ row. book_means book.new row ≡
        both pushed_on (book_means book.old sub) (book_means book.old term)) }
{
    if !book.is_of_kind(sub, PartKind::Subst) || !book.is_of_kind(term, PartKind::Term) {
        return Err(Fault::Misfit);
    }
    Ok(book.push(sub, term)?)
}

/// The first substitution, then the second. Their shifts are at most 2^62.
pub fn try_then(book: &mut Book, first: u64, second: u64) -> Result<u64, Fault>
    ensures extends { Extends book.old book.new }
    ensures means { IfOk result (λ row. book_means book.new row ≡
        both then_of (book_means book.old first) (book_means book.old second)) }
{
    if !book.is_part(first, PartKind::Subst) || !book.is_part(second, PartKind::Subst) {
        return Err(Fault::Misfit);
    }
    Ok(book.then(first, second)?)
}

/// A context with a variable of a type.
pub fn try_with_variable(book: &mut Book, ctx: u64, ty: u64) -> Result<u64, Fault>
    ensures extends { Extends book.old book.new }
    ensures means { IfOk result (λ row. book_means book.new row ≡
        both with_variable (book_means book.old ctx) (book_means book.old ty)) }
{
    if !book.is_of_kind(ctx, PartKind::Context) || !book.is_of_kind(ty, PartKind::Term) {
        return Err(Fault::Misfit);
    }
    Ok(book.ctx_var(ctx, ty)?)
}

/// A context with a name.
pub fn try_with_name(book: &mut Book, ctx: u64) -> Result<u64, Fault>
    ensures extends { Extends book.old book.new }
    ensures means { IfOk result (λ row. book_means book.new row ≡
        option_and_then with_a_name (book_means book.old ctx)) }
{
    if !book.is_of_kind(ctx, PartKind::Context) {
        return Err(Fault::Misfit);
    }
    Ok(book.ctx_name(ctx)?)
}

/// A context with a face.
pub fn try_with_face(book: &mut Book, ctx: u64, face: u64) -> Result<u64, Fault>
    ensures extends { Extends book.old book.new }
    ensures means { IfOk result (λ row. book_means book.new row ≡
        both with_a_face (book_means book.old ctx) (book_means book.old face)) }
    ensures there { IfOk result (λ row. IsContext (book_means book.new row)) }
{
    if !book.is_of_kind(ctx, PartKind::Context) || !book.is_of_kind(face, PartKind::Term) {
        return Err(Fault::Misfit);
    }
    Ok(book.ctx_face(ctx, face)?)
}
