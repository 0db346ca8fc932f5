//! Trees, opened by their outermost operator.

ghost use Rattle.std.specs.Prelude.{◌≡◌, ◌↔◌, IfOk, IsTrue, Some};
ghost use Rattle.trees.specs.Trees.{Tree, Subst, apply, apply_under, then};
ghost use Rattle.trees.specs.Judgements.{trees};
ghost use Rattle.trees.specs.Things.{ATree, ASubst};
ghost use Rattle.substitution.specs.Action.{look};
ghost use Rattle.substitution.specs.Forms.{lift_by, weaken};
ghost use Rattle.book.specs.Shown.{book_means, Extends};
ghost use Rattle.trails.specs.Openings.{IsSubstOr, IsOver, IsOpened, IsRead, IsHere};

use book::Book;
use rows::{Maker, Reader, SubId, SubRow, TermId, TermRow};
use std::alloc::Global;
use tested_steps::{Fault, try_instance, try_push, try_then};
use theory::{Op, PartKind, binds, kid_count};

/// A tree by its outermost form, with the rows of its kids.
#[derive(Drop)]
pub(crate) enum Opened {
    Variable(u64),
    Operator(Op, Vec<u64>),
}

/// The row of a tree, with the rows that it names.
#[derive(Drop)]
pub(crate) enum Read {
    Variable(u64),
    Operator(Op, Vec<u64>),
    Instance(u64, u64),
}

/// What is looked at.
#[derive(Drop)]
pub(crate) enum Here {
    Opened(Opened),
    /// A tree, under a substitution if there is one.
    Tree(u64, Option<u64>),
    /// The variable of this index under a substitution, and what that becomes under a second one.
    Index(u64, u64, Option<u64>),
}

/// Whether two rows are one tree.
pub(crate) fn are_one(book: &Book, left: u64, right: u64) -> Result<bool, Fault>
    ensures { (t u : Tree) → book_means book.now left ≡ Some (ATree t) →
        book_means book.now right ≡ Some (ATree u) → IfOk result (λ same. IsTrue same ↔ (t ≡ u)) }
{
    if !book.is_of_kind(left, PartKind::Term) || !book.is_of_kind(right, PartKind::Term) {
        return Err(Fault::Misfit);
    }
    Ok(book.same_tree(TermId(left), TermId(right))?)
}

/// The first substitution, and then a second, if there is one.
fn followed(book: &mut Book, first: u64, second: Option<u64>) -> Result<u64, Fault>
    ensures extends { IfOk result (λ _. Extends book.old book.new) }
    ensures means { (d e : Subst) → book_means book.old first ≡ Some (ASubst d) →
        IsSubstOr (book_means book.old) second e →
        IfOk result (λ row. book_means book.new row ≡ Some (ASubst (then d e))) }
{
    match second {
        Some(second) => Ok(try_then(book, first, second)?),
        None => Ok(first),
    }
}

/// A substitution under so many variables and names.
fn lifted(book: &mut Book, sub: u64, by: u8) -> Result<u64, Fault>
    ensures extends { IfOk result (λ _. Extends book.old book.new) }
    ensures means { (d : Subst) → book_means book.old sub ≡ Some (ASubst d) →
        IfOk result (λ row. book_means book.new row ≡ Some (ASubst (lift_by trees by d))) }
{
    let mut row = sub;
    for n in 0..by {
        let up = book.shift(1)?;
        let raised = try_then(book, row, up)?;
        let last = book.var(0)?;
        row = try_push(book, raised, last)?;
    }
    Ok(row)
}

/// A tree below so many variables and names, under a substitution, if there is one.
fn under(book: &mut Book, tree: u64, sub: Option<u64>, by: u8) -> Result<u64, Fault>
    ensures extends { IfOk result (λ _. Extends book.old book.new) }
    ensures means { (t : Tree) (d : Subst) → book_means book.old tree ≡ Some (ATree t) →
        IsSubstOr (book_means book.old) sub d →
        IfOk result (λ row. book_means book.new row ≡ Some (ATree (apply_under t by d))) }
{
    match sub {
        Some(sub) => {
            let sub = lifted(book, sub, by)?;
            Ok(try_instance(book, tree, sub)?)
        }
        None => Ok(tree),
    }
}

/// Reads the row of a tree.
fn read_row(alloc: Global, book: &Book, tree: u64) -> Result<Read, Fault>
    ensures { (t : Tree) → book_means book.now tree ≡ Some (ATree t) →
        IfOk result (λ read. IsRead (book_means book.now) read t) }
{
    if !book.is_of_kind(tree, PartKind::Term) {
        return Err(Fault::Misfit);
    }
    match book.term(TermId(tree)) {
        TermRow::Var(index) => Ok(Read::Variable(u64::from(index))),
        TermRow::Instance(TermId(below), SubId(sub)) => Ok(Read::Instance(below, sub)),
        TermRow::Make(op, kids) => Ok(Read::Operator(op, Vec::from_slice(alloc, kids)?)),
    }
}

/// What a variable becomes under a substitution, and that under a second one, if there is one.
fn met(book: &mut Book, index: u64, sub: u64, rest: Option<u64>) -> Result<Here, Fault>
    ensures extends { IfOk result (λ _. Extends book.old book.new) }
    ensures means { (d e : Subst) → book_means book.old sub ≡ Some (ASubst d) →
        IsSubstOr (book_means book.old) rest e →
        IfOk result (λ here. IsHere (book_means book.new) here (apply (look d index) e)) }
{
    if !book.is_of_kind(sub, PartKind::Subst) {
        return Err(Fault::Misfit);
    }
    match book.subst(SubId(sub)) {
        SubRow::Shift(by) => match (index.checked_add(by), rest) {
            (Some(index), Some(rest)) => Ok(Here::Index(index, rest, None)),
            (Some(index), None) => Ok(Here::Opened(Opened::Variable(index))),
            (None, _) => Err(Fault::Misfit),
        },
        SubRow::Push(SubId(below), TermId(tree)) => match index.checked_sub(1) {
            Some(index) => Ok(Here::Index(index, below, rest)),
            None => Ok(Here::Tree(tree, rest)),
        },
        SubRow::Then(SubId(first), SubId(second)) => {
            let rest = followed(book, second, rest)?;
            Ok(Here::Index(index, first, Some(rest)))
        }
    }
}

/// An operator over kids, under a substitution, if there is one.
fn operator(
    alloc: Global,
    book: &mut Book,
    op: Op,
    kids: &[u64],
    sub: Option<u64>,
) -> Result<Opened, Fault>
    ensures extends { IfOk result (λ _. Extends book.old book.new) }
    ensures means { (t : Tree) (d : Subst) → IsOver (book_means book.old) op kids.now t →
        IsSubstOr (book_means book.old) sub d →
        IfOk result (λ opened. IsOpened (book_means book.new) opened (apply t d)) }
{
    let mut rows = Vec::new(alloc);
    for at in 0..kid_count(op) {
        let Some(kid) = kids.get(usize::from(at)) else {
            return Err(Fault::Misfit);
        };
        let row = under(book, *kid, sub, binds(op, at))?;
        rows.push(row)?;
    }
    Ok(Opened::Operator(op, rows))
}

/// What a tree is under a substitution, if there is one: one turn of its opening.
fn turned(alloc: Global, book: &mut Book, tree: u64, sub: Option<u64>) -> Result<Here, Fault>
    ensures extends { IfOk result (λ _. Extends book.old book.new) }
    ensures means { (t : Tree) (d : Subst) → book_means book.old tree ≡ Some (ATree t) →
        IsSubstOr (book_means book.old) sub d →
        IfOk result (λ here. IsHere (book_means book.new) here (apply t d)) }
{
    match read_row(alloc, book, tree)? {
        Read::Variable(index) => match sub {
            Some(sub) => Ok(Here::Index(index, sub, None)),
            None => Ok(Here::Opened(Opened::Variable(index))),
        },
        Read::Instance(below, first) => {
            let sub = followed(book, first, sub)?;
            Ok(Here::Tree(below, Some(sub)))
        }
        Read::Operator(op, kids) => {
            let opened = operator(alloc, book, op, kids.as_slice(), sub)?;
            Ok(Here::Opened(opened))
        }
    }
}

/// A tree by its outermost form.
pub(crate) fn open_tree(alloc: Global, book: &mut Book, tree: u64) -> Result<Opened, Fault>
    ensures extends { IfOk result (λ _. Extends book.old book.new) }
    ensures opens { (t : Tree) → book_means book.old tree ≡ Some (ATree t) →
        IfOk result (λ opened. IsOpened (book_means book.new) opened t) }
{
    let mut here = Here::Tree(tree, None);
    for turn in 0..u64::MAX {
        here = match here {
            Here::Opened(found) => return Ok(found),
            Here::Tree(tree, sub) => turned(alloc, book, tree, sub)?,
            Here::Index(index, sub, rest) => met(book, index, sub, rest)?,
        };
    }
    Err(Fault::Misfit)
}

/// A tree past one variable or name more.
pub(crate) fn weakened(book: &mut Book, tree: u64) -> Result<u64, Fault>
    ensures extends { IfOk result (λ _. Extends book.old book.new) }
    ensures means { (t : Tree) → book_means book.old tree ≡ Some (ATree t) →
        IfOk result (λ row. book_means book.new row ≡ Some (ATree (weaken trees t))) }
{
    let up = book.shift(1)?;
    Ok(try_instance(book, tree, up)?)
}
