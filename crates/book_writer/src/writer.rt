//! The file of some nodes of a book.

ghost use Rattle.std.specs.Prelude.{◌≡◌, ◌<◌, List, IfOk, OnErr, IsSome, Some, length, map};
ghost use Rattle.std.specs.Prelude.{slice_index_or};
ghost use Rattle.std.specs.List.{All};
ghost use Rattle.trees.specs.Judgements.{Judgement};
ghost use Rattle.trees.specs.Things.{meanings};
ghost use Rattle.deriv_file.specs.Writing.{Extends};
ghost use Rattle.book_writer.specs.Means.{lines_conclude};
ghost use Rattle.book_writer.specs.Written.{Appends, concluded_by};

use crate::copies::{add_nodes, add_rows};
use crate::lines::Lines;
use crate::needed::needed_by;
use crate::numbering::{Numbering, append_roots, numbers};
use book::{Book, NodeId};
use std::alloc::{AllocError, Global};

impl Lines {
    /// Appends the rows that serve these nodes, and these as roots. After an error a part of them
    /// may stand there.
    fn append_file(&self, roots: &[u64], into: &mut Vec<u8>) -> Result<u64, AllocError>
        requires { IsSome (meanings (lines_conclude self.now) roots.now) }
        ensures ok { (Js : List Judgement) →
            meanings (lines_conclude self.now) roots.now ≡ Some Js →
            IfOk result (λ rows. Appends into.old.items into.new.items rows Js) }
        ensures err { OnErr result (Extends into.old.items into.new.items) }
    {
        let marks = self.served(roots)?;
        let Numbering { of, count } = numbers(self.alloc, &marks)?;
        let Some(rows) = count.checked_add(roots.len() as u64) else {
            return Err(AllocError);
        };
        self.append_marked(&marks, &of, into)?;
        append_roots(&of, roots, into)?;
        Ok(rows)
    }
}

/// The numbers of these nodes.
fn node_numbers(alloc: Global, nodes: &[NodeId]) -> Result<Vec<u64>, AllocError>
    ensures { IfOk result (λ found. found.items ≡ map (λ node. node.0) nodes.now) }
{
    let mut found = Vec::new(alloc);
    for node in nodes {
        found.push(node.0)?;
    }
    Ok(found)
}

/// The places of these nodes.
fn root_places(alloc: Global, places: &[u64], roots: &[NodeId]) -> Result<Vec<u64>, AllocError>
    requires { All (λ root. root.0 < length places.now) roots.now }
    ensures { IfOk result (λ found.
        found.items ≡ map (λ root. slice_index_or places.now root.0 0) roots.now) }
{
    let mut found = Vec::new(alloc);
    for root in roots {
        found.push(places[root.0 as usize])?;
    }
    Ok(found)
}

/// The rows of the book that serve these nodes, and the nodes as roots.
fn append(
    book: &Book,
    alloc: Global,
    roots: &[NodeId],
    into: &mut Vec<u8>,
) -> Result<u64, AllocError>
    requires { IsSome (concluded_by book.now roots.now) }
    ensures ok { (Js : List Judgement) → concluded_by book.now roots.now ≡ Some Js →
        IfOk result (λ rows. Appends into.old.items into.new.items rows Js) }
    ensures err { OnErr result (Extends into.old.items into.new.items) }
{
    let asked = node_numbers(alloc, roots)?;
    let needed = needed_by(book, alloc, &asked)?;
    let mut lines = Lines::new(alloc)?;
    let places = add_rows(&mut lines, book, &needed.rows)?;
    let nodes = add_nodes(&mut lines, book, &needed, &places)?;
    let roots = root_places(alloc, &nodes, roots)?;
    Ok(lines.append_file(&roots, into)?)
}

/// Appends a derivation file whose roots are the conclusions of these nodes, in order. Each of its
/// rows but the header serves a root. The answer is the number of its rows.
///
/// # Errors
/// Only to be out of memory, and then `into` is as before. A root that stands on a shift above
/// 2^62, which no file spells, counts as out of memory.
pub fn write(
    book: &Book,
    alloc: Global,
    roots: &[NodeId],
    into: &mut Vec<u8>,
) -> Result<u64, AllocError>
    requires { IsSome (concluded_by book.now roots.now) }
    ensures ok { (Js : List Judgement) → concluded_by book.now roots.now ≡ Some Js →
        IfOk result (λ rows. Appends into.old.items into.new.items rows Js) }
    ensures err { OnErr result (into.new.items ≡ into.old.items) }
{
    let before = into.len();
    let written = append(book, alloc, roots, into);
    if written.is_err() {
        into.truncate(before);
    }
    written
}
