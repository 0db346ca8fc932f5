//! The rows that the conclusions of nodes name.

ghost use Rattle.std.specs.Prelude.{◌≡◌, Some};
ghost use Rattle.trees.specs.Judgements.{Context, Judgement};
ghost use Rattle.trees.specs.Language.{Sb, Tm};
ghost use Rattle.trees.specs.Things.{Thing, ASubst, ATree};
ghost use Rattle.trees.specs.Trees.{Subst, Tree};
ghost use Rattle.recipes.specs.Made.{field_at};
ghost use Rattle.book.specs.Shown.{book_means};
ghost use Rattle.typed_nodes.specs.Typed.{Says, subject_of};

use book::{Book, NodeId};

/// The row at this place of what the node concludes.
fn row_at(book: &Book, node: NodeId, place: usize) -> u64
    requires { (J : Judgement) × (x : Thing) × Says book.now node J × (field_at place J ≡ Some x) }
    ensures { (J : Judgement) (x : Thing) → Says book.now node J → field_at place J ≡ Some x →
        book_means book.now result ≡ Some x }
{
    let rows = book.conclusion(node).rows();
    rows.as_slice()[place]
}

/// A of `G >> A`, and a of `G >> a : A`.
pub fn subject_row(book: &Book, node: NodeId) -> u64
    requires { (J : Judgement) × (t : Tree) × Says book.now node J × (subject_of J ≡ Some t) }
    ensures { (J : Judgement) (t : Tree) → Says book.now node J → subject_of J ≡ Some t →
        book_means book.now result ≡ Some (ATree t) }
{
    row_at(book, node, 1)
}

/// A of `G >> a : A`.
pub fn type_row(book: &Book, node: NodeId) -> u64
    requires { (G : Context) × (a A : Tree) × Says book.now node (Tm G a A) }
    ensures { (G : Context) (a A : Tree) → Says book.now node (Tm G a A) →
        book_means book.now result ≡ Some (ATree A) }
{
    row_at(book, node, 2)
}

/// d of `d : H to G`.
pub fn substitution_row(book: &Book, node: NodeId) -> u64
    requires { (H G : Context) × (d : Subst) × Says book.now node (Sb H d G) }
    ensures { (H G : Context) (d : Subst) → Says book.now node (Sb H d G) →
        book_means book.now result ≡ Some (ASubst d) }
{
    row_at(book, node, 1)
}
