//! What some nodes of a book stand on: their premises, their parts, and what these name.

ghost use Rattle.std.specs.Prelude.{◌≡◌, ◌<◌, ◌↔◌, ℕ, IfOk, IsSome, length};
ghost use Rattle.std.specs.List.{All};
ghost use Rattle.trees.specs.Things.{meanings};
ghost use Rattle.interned.specs.Names.{row_names};
ghost use Rattle.book.specs.Shown.{book_means, book_concludes};
ghost use Rattle.book_writer.specs.Needed.{AreNeeded, RowsStand, NodesStand, AreCounted};
ghost use Rattle.book_writer.specs.Served.{IsMarked, Marks};

use crate::marks::mark_all;
use book::{Book, NodeId, NodeRow};
use rows::{CtxRow, Row, SubRow, TermRow};
use std::alloc::{AllocError, Global};

/// Which rows and which nodes of a book are needed.
#[derive(Drop)]
pub struct Needed {
    pub rows: Vec<bool>,
    pub nodes: Vec<bool>,
}

/// Marks the rows that a row names.
fn mark_names(marks: &mut [bool], row: &Row<'_>)
    requires { All (λ k. k < length marks.old) (row_names row.now) }
    ensures { Marks marks.old (row_names row.now) marks.new }
{
    match row {
        Row::Term(TermRow::Var(_)) => mark_all(marks, &[]),
        Row::Term(TermRow::Make(_, kids)) => mark_all(marks, kids),
        Row::Term(TermRow::Instance(term, sub)) => mark_all(marks, &[term.0, sub.0]),
        Row::Subst(SubRow::Shift(_)) => mark_all(marks, &[]),
        Row::Subst(SubRow::Push(sub, term)) => mark_all(marks, &[sub.0, term.0]),
        Row::Subst(SubRow::Then(first, second)) => mark_all(marks, &[first.0, second.0]),
        Row::Context(CtxRow::Nil) => mark_all(marks, &[]),
        Row::Context(CtxRow::Var(ctx, ty)) => mark_all(marks, &[ctx.0, ty.0]),
        Row::Context(CtxRow::Name(ctx)) => mark_all(marks, &[ctx.0]),
        Row::Context(CtxRow::Face(ctx, face)) => mark_all(marks, &[ctx.0, face.0]),
    }
}

/// Marks what the marked rows name, and so on.
fn mark_rows(book: &Book, rows: &mut [bool])
    requires { (k : ℕ) → IsSome (book_means book.now k) ↔ (k < length rows.old) }
    ensures count { length rows.new ≡ length rows.old }
    ensures kept { (k : ℕ) → IsMarked rows.old k → IsMarked rows.new k }
    ensures stand { RowsStand book.now rows.new 0 }
{
    let mut left = rows.len();
    while 0 < left {
        left -= 1;
        if rows[left] {
            mark_names(rows, &book.row(left as u64));
        }
    }
}

/// Marks the premises of the marked nodes, and so on, and the rows that are parts of these nodes.
fn mark_nodes(book: &Book, rows: &mut [bool], nodes: &mut [bool])
    requires { AreCounted book.now rows.old nodes.old }
    ensures row_count { length rows.new ≡ length rows.old }
    ensures node_count { length nodes.new ≡ length nodes.old }
    ensures kept { (k : ℕ) → IsMarked nodes.old k → IsMarked nodes.new k }
    ensures stand { NodesStand book.now rows.new nodes.new 0 }
{
    let mut left = nodes.len();
    while 0 < left {
        left -= 1;
        if nodes[left] {
            let NodeRow {
                parts,
                premises,
                ..
            } = book.step(NodeId(left as u64));
            mark_all(nodes, premises);
            mark_all(rows, parts);
        }
    }
}

/// Marks these nodes and what they stand on.
fn mark_needed(book: &Book, roots: &[u64], rows: &mut [bool], nodes: &mut [bool])
    requires there { IsSome (meanings (book_concludes book.now) roots.now) }
    requires count { AreCounted book.now rows.old nodes.old }
    ensures row_count { length rows.new ≡ length rows.old }
    ensures node_count { length nodes.new ≡ length nodes.old }
    ensures needed { AreNeeded book.now roots.now rows.new nodes.new }
{
    mark_all(nodes, roots);
    mark_nodes(book, rows, nodes);
    mark_rows(book, rows);
}

/// What these nodes stand on, themselves among it.
pub fn needed_by(book: &Book, alloc: Global, roots: &[u64]) -> Result<Needed, AllocError>
    requires { IsSome (meanings (book_concludes book.now) roots.now) }
    ensures { IfOk result (λ needed.
        AreNeeded book.now roots.now needed.rows.items needed.nodes.items) }
{
    let held = book.mark();
    let mut rows = vec![in alloc; false; held.rows as usize]?;
    let mut nodes = vec![in alloc; false; held.nodes as usize]?;
    mark_needed(book, roots, &mut rows, &mut nodes);
    Ok(Needed { rows, nodes })
}
