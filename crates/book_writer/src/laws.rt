//! What the nodes of a book conclude is derivable.

ghost use Rattle.std.specs.Prelude.{◌≡◌, ℕ, Some};
ghost use Rattle.trees.specs.Judgements.{Judgement};
ghost use Rattle.derivation.specs.Derivations.{Derivable};
ghost use Rattle.book.specs.Shown.{book_concludes};
ghost use Rattle.book_writer.specs.Fits.{FileFits};

use book::Book;

/// Where all of the book fits in a derivation file, what a node concludes is derivable: that file
/// is right, and has the conclusion as a root.
pub fn laws_of_derivable(book: &Book)
    ensures { FileFits book.now → (k : ℕ) (J : Judgement) →
        book_concludes book.now k ≡ Some J → Derivable J }
{
    book.laws_of_book();
}
