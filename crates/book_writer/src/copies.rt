//! The rows and the nodes of a book, as rows of a file.

ghost use Rattle.std.specs.Prelude.{◌≡◌, ◌≤◌, ◌<◌, ℕ, IfOk, IsSome, Some, length, map};
ghost use Rattle.std.specs.Prelude.{slice_index_or};
ghost use Rattle.std.specs.List.{All};
ghost use Rattle.trees.specs.Judgements.{Judgement};
ghost use Rattle.trees.specs.Things.{Thing, Meanings, Kept};
ghost use Rattle.book.specs.Shown.{book_means, book_concludes, row_over};
ghost use Rattle.book_writer.specs.Means.{lines_mean, lines_conclude, ArePlaced, AreConcluded};
ghost use Rattle.book_writer.specs.Means.{ConclusionsKept, MayAdd};
ghost use Rattle.book_writer.specs.Needed.{among, RowsStand, NodesStand};
ghost use Rattle.book_writer.specs.Served.{IsMarked};

use crate::lines::{Lines, MOST_NAMES};
use crate::needed::Needed;
use book::{Book, NodeId, NodeRow};
use interned::Words;
use rows::{CtxRow, Maker, Row, SubRow, TermRow};
use std::alloc::AllocError;

/// The places of these rows.
pub fn placed(places: &[u64], rows: &[u64]) -> Words<MOST_NAMES>
    requires few { length rows.now ≤ 32 }
    requires there { All (λ k. k < length places.now) rows.now }
    ensures { result ≡ map (λ k. slice_index_or places.now k 0) rows.now }
{
    let mut words = Words::new();
    for row in rows {
        words.append(&[places[*row as usize]]);
    }
    words
}

/// Adds a row of the book, where those before it that it names are at these places.
fn add_row(lines: &mut Lines, book: &Book, row: u64, places: &[u64]) -> Result<u64, AllocError>
    requires there { IsSome (book_means book.now row) }
    requires next { row ≡ length places.now }
    requires may { (f : Meanings) × MayAdd f book.now row lines.old places.now }
    ensures kept { Kept (lines_mean lines.old) (lines_mean lines.new) }
    ensures meaning { IfOk result (λ at. (f : Meanings) →
        MayAdd f book.now row lines.old places.now →
        lines_mean lines.new at ≡ row_over book.now row f) }
{
    let _ = &lines.alloc;
    match book.row(row) {
        Row::Term(TermRow::Var(index)) => Ok(lines.var(index)?),
        Row::Term(TermRow::Make(op, kids)) => {
            Ok(lines.make(op, placed(places, kids).as_slice())?)
        }
        Row::Term(TermRow::Instance(term, sub)) => {
            Ok(lines.instance(places[term.0 as usize], places[sub.0 as usize])?)
        }
        Row::Subst(SubRow::Shift(by)) => Ok(lines.longer_shift(by, 0)?),
        Row::Subst(SubRow::Push(sub, term)) => {
            Ok(lines.push(places[sub.0 as usize], places[term.0 as usize])?)
        }
        Row::Subst(SubRow::Then(first, second)) => {
            Ok(lines.then(places[first.0 as usize], places[second.0 as usize])?)
        }
        Row::Context(CtxRow::Nil) => Ok(lines.ctx_nil()?),
        Row::Context(CtxRow::Var(ctx, ty)) => {
            Ok(lines.ctx_var(places[ctx.0 as usize], places[ty.0 as usize])?)
        }
        Row::Context(CtxRow::Name(ctx)) => Ok(lines.ctx_name(places[ctx.0 as usize])?),
        Row::Context(CtxRow::Face(ctx, face)) => {
            Ok(lines.ctx_face(places[ctx.0 as usize], places[face.0 as usize])?)
        }
    }
}

/// Adds a row of the book if it is needed. The place of another one says nothing.
fn add_needed(
    lines: &mut Lines,
    book: &Book,
    needed: &[bool],
    row: u64,
    places: &[u64],
) -> Result<u64, AllocError>
    requires there { IsSome (book_means book.now row) }
    requires count { row < length needed.now }
    requires next { row ≡ length places.now }
    requires stand { RowsStand book.now needed.now 0 }
    requires placed { ArePlaced (among needed.now (book_means book.now)) lines.old places.now }
    ensures kept { Kept (lines_mean lines.old) (lines_mean lines.new) }
    ensures meaning { IfOk result (λ at. (x : Thing) →
        among needed.now (book_means book.now) row ≡ Some x → lines_mean lines.new at ≡ Some x) }
{
    let _ = &lines.alloc;
    if needed[row as usize] {
        Ok(add_row(lines, book, row, places)?)
    } else {
        Ok(0)
    }
}

/// The needed rows of the book: a place for each row.
pub fn add_rows(lines: &mut Lines, book: &Book, needed: &[bool]) -> Result<Vec<u64>, AllocError>
    requires count { (k : ℕ) → IsSome (book_means book.now k) → k < length needed.now }
    requires stand { RowsStand book.now needed.now 0 }
    ensures placed { IfOk result (λ places.
        ArePlaced (among needed.now (book_means book.now)) lines.new places.items) }
    ensures all { IfOk result (λ places. (k : ℕ) →
        IsSome (book_means book.now k) → k < length places.items) }
{
    let mut places = Vec::new(lines.alloc);
    for row in 0..book.mark().rows {
        let place = add_needed(lines, book, needed, row, &places)?;
        places.push(place)?;
    }
    Ok(places)
}

/// Adds a needed node of the book, where its rows are at `places` and the nodes before it at
/// `nodes`.
fn add_node(
    lines: &mut Lines,
    book: &Book,
    needed: &Needed,
    node: NodeId,
    places: &[u64],
    nodes: &[u64],
) -> Result<u64, AllocError>
    requires there { IsSome (book_concludes book.now node.0) }
    requires next { node.0 ≡ length nodes.now }
    requires marked { IsMarked needed.now.nodes.items node.0 }
    requires stand { NodesStand book.now needed.now.rows.items needed.now.nodes.items 0 }
    requires all { (k : ℕ) → IsSome (book_means book.now k) → k < length places.now }
    requires placed { let f = among needed.now.rows.items (book_means book.now) in
        ArePlaced f lines.old places.now }
    requires nodes { let g = among needed.now.nodes.items (book_concludes book.now) in
        AreConcluded g lines.old nodes.now }
    ensures kept { Kept (lines_mean lines.old) (lines_mean lines.new) }
    ensures conclusions { ConclusionsKept (lines_conclude lines.old) (lines_conclude lines.new) }
    ensures concludes { IfOk result (λ at.
        lines_conclude lines.new at ≡ book_concludes book.now node.0) }
{
    let NodeRow {
        rule,
        parts,
        premises,
    } = book.step(node);
    let parts = placed(places, parts);
    let premises = placed(nodes, premises);
    Ok(lines.add_node(rule, parts.as_slice(), premises.as_slice())?)
}

/// Adds a node of the book if it is needed. The place of another one says nothing.
fn add_needed_node(
    lines: &mut Lines,
    book: &Book,
    needed: &Needed,
    node: NodeId,
    places: &[u64],
    nodes: &[u64],
) -> Result<u64, AllocError>
    requires there { IsSome (book_concludes book.now node.0) }
    requires next { node.0 ≡ length nodes.now }
    requires count { node.0 < length needed.now.nodes.items }
    requires stand { NodesStand book.now needed.now.rows.items needed.now.nodes.items 0 }
    requires all { (k : ℕ) → IsSome (book_means book.now k) → k < length places.now }
    requires placed { let f = among needed.now.rows.items (book_means book.now) in
        ArePlaced f lines.old places.now }
    requires nodes { let g = among needed.now.nodes.items (book_concludes book.now) in
        AreConcluded g lines.old nodes.now }
    ensures kept { Kept (lines_mean lines.old) (lines_mean lines.new) }
    ensures conclusions { ConclusionsKept (lines_conclude lines.old) (lines_conclude lines.new) }
    ensures concludes { let g = among needed.now.nodes.items (book_concludes book.now) in
        IfOk result (λ at. (J : Judgement) → g node.0 ≡ Some J →
        lines_conclude lines.new at ≡ Some J) }
{
    let _ = &lines.alloc;
    if needed.nodes[node.0 as usize] {
        Ok(add_node(lines, book, needed, node, places, nodes)?)
    } else {
        Ok(0)
    }
}

/// The needed nodes of the book, whose rows are at `places`: a place for each node.
pub fn add_nodes(
    lines: &mut Lines,
    book: &Book,
    needed: &Needed,
    places: &[u64],
) -> Result<Vec<u64>, AllocError>
    requires count { (k : ℕ) →
        IsSome (book_concludes book.now k) → k < length needed.now.nodes.items }
    requires stand { NodesStand book.now needed.now.rows.items needed.now.nodes.items 0 }
    requires all { (k : ℕ) → IsSome (book_means book.now k) → k < length places.now }
    requires placed { let f = among needed.now.rows.items (book_means book.now) in
        ArePlaced f lines.old places.now }
    ensures placed { let g = among needed.now.nodes.items (book_concludes book.now) in
        IfOk result (λ nodes. AreConcluded g lines.new nodes.items) }
    ensures all { IfOk result (λ nodes. (k : ℕ) →
        IsSome (book_concludes book.now k) → k < length nodes.items) }
{
    let mut nodes = Vec::new(lines.alloc);
    for node in 0..book.mark().nodes {
        let place = add_needed_node(lines, book, needed, NodeId(node), places, &nodes)?;
        nodes.push(place)?;
    }
    Ok(nodes)
}
