//! Formulas of a text over the names of a place.

ghost use Rattle.std.specs.Prelude.{◌≡◌, IfOk, IfSome, Some};
ghost use Rattle.trees.specs.Judgements.{Context};
ghost use Rattle.trees.specs.Things.{ATree};
ghost use Rattle.form_rows.specs.Formulas.{formula_tree};
ghost use Rattle.typed_contexts.specs.Places.{IsPlace};
ghost use Rattle.book.specs.Shown.{Extends, book_means};
ghost use Rattle.typing_steps.specs.Steps.{IsFormulaRow};

use book::Book;
use codes::Formula;
use rows::Maker;
use std::alloc::AllocError;
use trees::Op;
use typed_contexts::Places;

/// The row of a formula. None where a variable that it names is no name of the place.
pub(crate) fn formula_row(
    places: &Places,
    book: &mut Book,
    formula: &Formula,
) -> Result<Option<u64>, AllocError>
    ensures extends { Extends book.old book.new }
    ensures row { IfOk result (λ row. (H : Context) → IsPlace book.old places.now H
        → IsFormulaRow book.new row H (formula_tree «formula».now)) }
    ensures means { IfOk result (λ found. IfSome found (λ row.
        book_means book.new row ≡ Some (ATree (formula_tree «formula».now)))) }
{
    match formula {
        Formula::Zero(_) => Ok(Some(book.make(Op::I0, &[])?)),
        Formula::One(_) => Ok(Some(book.make(Op::I1, &[])?)),
        Formula::Bound(_, index) => {
            if places.is_name(*index) {
                Ok(Some(book.var(*index)?))
            } else {
                Ok(None)
            }
        }
        Formula::Negate(_, negated) => {
            let Some(negated) = formula_row(places, book, negated)? else {
                return Ok(None);
            };
            Ok(Some(book.make(Op::Neg, &[negated])?))
        }
        Formula::Meet(_, left, right) => {
            let Some(left) = formula_row(places, book, left)? else {
                return Ok(None);
            };
            let Some(right) = formula_row(places, book, right)? else {
                return Ok(None);
            };
            Ok(Some(book.make(Op::Min, &[left, right])?))
        }
        Formula::Join(_, left, right) => {
            let Some(left) = formula_row(places, book, left)? else {
                return Ok(None);
            };
            let Some(right) = formula_row(places, book, right)? else {
                return Ok(None);
            };
            Ok(Some(book.make(Op::Max, &[left, right])?))
        }
    }
}
