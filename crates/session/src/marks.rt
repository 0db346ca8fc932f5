//! Nodes that are given back.

ghost use Rattle.std.specs.Prelude.{◌≡◌, ◌<◌, ◌≤◌, ℕ, None};
ghost use Rattle.book.specs.Shown.{book_concludes};

use book::{Book, Mark};

/// Gives back the nodes of a book from this number on. Rows stay.
pub(crate) fn give_back(book: &mut Book, nodes: u64)
    ensures below { (k : ℕ) → k < nodes →
        book_concludes book.new k ≡ book_concludes book.old k }
    ensures gone { (k : ℕ) → nodes ≤ k → book_concludes book.new k ≡ None }
{
    let all = book.mark();
    if nodes < all.nodes {
        book.release(Mark { nodes, ..all });
    }
}
