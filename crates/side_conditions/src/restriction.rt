//! Formulas where a conjunction of equations holds.

ghost use Rattle.std.specs.Prelude.{◌≡◌, ◌↔◌, ◌∷◌, IfOk, IsTrue};
ghost use Rattle.points.specs.Values.{Valuation};
ghost use Rattle.interval.specs.Forms.{form_value};
ghost use Rattle.side_conditions.specs.Restricted.{with_ends, SameWith, SameWithin};

use faces::{Conj, Equation, Face};
use interval::Form;
use std::alloc::AllocError;

/// The form with each name of the equations at its end.
fn restricted(form: &Form, first: Equation, rest: &[Equation]) -> Result<Form, AllocError>
    ensures { IfOk result (λ new. (v : Valuation) →
        form_value new v ≡ form_value form.now (with_ends (first ∷ rest.now) v)) }
{
    let mut new = form.at(first.name, first.end)?;
    for equation in rest {
        new = new.at(equation.name, equation.end)?;
    }
    Ok(new)
}

/// Whether two forms are of one value wherever the conjunction is true. It fixes names: with these
/// at their ends both forms have one normal form.
fn same_at(left: &Form, right: &Form, conj: &Conj) -> Result<bool, AllocError>
    ensures { IfOk result (λ same. IsTrue same ↔ SameWith conj.now left.now right.now) }
{
    match conj.elements().split_first() {
        Some((first, rest)) => {
            let left = restricted(left, *first, rest)?;
            let right = restricted(right, *first, rest)?;
            Ok(left.same(&right))
        }
        None => Ok(left.same(right)),
    }
}

/// Whether two forms are of one value wherever the face is true: at each of its conjunctions.
pub fn same_under(face: &Face, left: &Form, right: &Form) -> Result<bool, AllocError>
    ensures { IfOk result (λ same. IsTrue same ↔ SameWithin face.now left.now right.now) }
{
    for conj in face.parts() {
        if !same_at(left, right, conj)? {
            return Ok(false);
        }
    }
    Ok(true)
}
