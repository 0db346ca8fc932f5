//! How far the substitutions of a book shift.
//!
//! ```text
//! // up then up : [].nat.nat to [] is what a node of the book concludes
//! laws_of_shifts(&book);
//! // its shift, 2, and the two entries of [].nat.nat are no more than 2^48, as in any book
//! ```
#![tactic(auto)]

ghost use Rattle.std.specs.Prelude.{◌≡◌, ◌≤◌, ◌^◌, ℕ, Some};
ghost use Rattle.trees.specs.Trees.{Subst};
ghost use Rattle.trees.specs.Judgements.{Context};
ghost use Rattle.trees.specs.Language.{Sb};
ghost use Rattle.trees.specs.Things.{AContext};
ghost use Rattle.substitution_laws.specs.Spans.{size_of};
ghost use Rattle.book.specs.Shown.{book_means, book_concludes};

use book::Book;
use substitution_laws::substitutions_span_contexts;

/// A context of a book has a row for each of its entries, and a substitution that a node concludes
/// shifts no further than its context goes: neither is more than the rows of a book.
pub fn laws_of_shifts(book: &Book)
    ensures sizes { (k : ℕ) (G : Context) →
        book_means book.now k ≡ Some (AContext G) → size_of G ≤ 2 ^ 48 }
    ensures shifts { (k : ℕ) (H : Context) (d : Subst) (G : Context) →
        book_concludes book.now k ≡ Some (Sb H d G) → d.shift ≤ 2 ^ 48 }
{
    book.few_rows();
    book.laws_of_book();
    book.laws_of_nodes();
    substitutions_span_contexts();
}
