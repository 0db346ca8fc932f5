//! Formulas of the interval, and faces.

ghost use Rattle.std.specs.Prelude.{IfOk};
ghost use Rattle.trees.specs.Things.{Kept};
ghost use Rattle.form_rows.specs.Meant.{Is};
ghost use Rattle.form_rows.specs.Formulas.{formula_tree, equation_tree, face_tree};

use crate::nesting::tupled;
use codes::{Equation, Formula};
use rows::Maker;
use std::alloc::{AllocError, Global};
use syntax::End;
use trees::Op;

/// The tree of a formula.
pub fn formula<M: Maker>(maker: &mut M, formula: &Formula) -> Result<u64, AllocError>
    ensures kept { Kept (M.means maker.old) (M.means maker.new) }
    ensures tree { IfOk result (λ r. Is (M.means maker.new) r (formula_tree «formula».now)) }
{
    match formula {
        Formula::Zero(_) => Ok(maker.make(Op::I0, &[])?),
        Formula::One(_) => Ok(maker.make(Op::I1, &[])?),
        Formula::Bound(_, index) => Ok(maker.var(*index)?),
        Formula::Negate(_, negated) => {
            let negated = crate::formulas::formula(maker, negated)?;
            Ok(maker.make(Op::Neg, &[negated])?)
        }
        Formula::Meet(_, left, right) => {
            let left = crate::formulas::formula(maker, left)?;
            let right = crate::formulas::formula(maker, right)?;
            Ok(maker.make(Op::Min, &[left, right])?)
        }
        Formula::Join(_, left, right) => {
            let left = crate::formulas::formula(maker, left)?;
            let right = crate::formulas::formula(maker, right)?;
            Ok(maker.make(Op::Max, &[left, right])?)
        }
    }
}

/// The face of an equation.
pub(crate) fn equation<M: Maker>(maker: &mut M, equation: Equation) -> Result<u64, AllocError>
    ensures kept { Kept (M.means maker.old) (M.means maker.new) }
    ensures tree { IfOk result (λ r. Is (M.means maker.new) r (equation_tree «equation»)) }
{
    let name = maker.var(equation.index)?;
    match equation.end {
        End::Zero => Ok(maker.make(Op::Eq0, &[name])?),
        End::One => Ok(maker.make(Op::Eq1, &[name])?),
    }
}

/// The meet of equations.
pub fn face<M: Maker>(
    alloc: Global,
    maker: &mut M,
    equations: &[Equation],
) -> Result<u64, AllocError>
    ensures kept { Kept (M.means maker.old) (M.means maker.new) }
    ensures tree { IfOk result (λ r. Is (M.means maker.new) r (face_tree equations.now)) }
{
    let mut rows = Vec::new(alloc);
    for each in equations {
        rows.push(equation(maker, *each)?)?;
    }
    Ok(tupled(maker, Op::Meet, Op::F1, &rows)?)
}
