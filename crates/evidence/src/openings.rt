//! How trees begin.

ghost use Rattle.std.specs.Prelude.{◌↔◌, IfOk, IsTrue};
ghost use Rattle.rows.specs.Views.{IsTree};
ghost use Rattle.side_conditions.specs.Shapes.{tree_of};
ghost use Rattle.normal_parts.specs.Normal.{Begins};
ghost use Rattle.book.specs.Shown.{book_means};

use book::Book;
use closures::{Closure, Environments};
use rows::TermId;
use std::alloc::{AllocError, Global};
use theory::Op;
use tree_frames::{Opened, open_tree};

/// Whether a tree begins with an operator.
pub(crate) fn begins_with(
    alloc: Global,
    book: &Book,
    op: Op,
    tree: TermId,
) -> Result<bool, AllocError>
    requires { IsTree (book_means book.now tree.0) }
    ensures { IfOk result (λ yes.
        IsTrue yes ↔ Begins op (tree_of (book_means book.now tree.0))) }
{
    let mut environments = Environments::new(alloc);
    match open_tree(book, &mut environments, Closure::of_row(tree), 0)? {
        Opened::Variable(_) => Ok(false),
        Opened::Operator(frame) => Ok(frame.op == op),
    }
}
