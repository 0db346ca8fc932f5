//! Formulas of the interval, and the equations of sides.

ghost use Rattle.std.specs.Prelude.{◌≡◌, IfOk};
ghost use Rattle.translation.specs.Forms.{one, two};
ghost use Rattle.translation.specs.Terms.{neg, min, max};
ghost use Rattle.codes.specs.Codes.{formula as meaning};
ghost use Rattle.codes.specs.FormulaShapes.{
  formula_shape,
  Join as a_join,
  Meet as a_meet,
  Negate as a_negation,
};

use layout_lexer::Span;
use std::alloc::{AllocError, Global};
use syntax::End;

/// A formula of the interval.
#[derive(Drop)]
pub enum Formula {
    Zero(Span),
    One(Span),
    /// A name of the interval, by its index.
    Bound(Span, u32),
    Negate(Span, Box<Formula>),
    Meet(Span, Box<Formula>, Box<Formula>),
    Join(Span, Box<Formula>, Box<Formula>),
}

impl Formula {
    /// `- formula`
    pub fn negate(alloc: Global, span: Span, formula: Formula) -> Result<Formula, AllocError>
        ensures means { IfOk result (λ f. meaning f ≡ one neg (meaning formula)) }
        ensures shaped { IfOk result (λ f.
            formula_shape f ≡ a_negation span (formula_shape formula)) }
    {
        Ok(Formula::Negate(span, Box::new(alloc, formula)?))
    }

    /// `left /\ right`
    pub fn meet(
        alloc: Global,
        span: Span,
        left: Formula,
        right: Formula,
    ) -> Result<Formula, AllocError>
        ensures means { IfOk result (λ f. meaning f ≡ two min (meaning left) (meaning right)) }
        ensures shaped { IfOk result (λ f.
            formula_shape f ≡ a_meet span (formula_shape left) (formula_shape right)) }
    {
        let left = Box::new(alloc, left)?;
        Ok(Formula::Meet(span, left, Box::new(alloc, right)?))
    }

    /// `left \/ right`
    pub fn join(
        alloc: Global,
        span: Span,
        left: Formula,
        right: Formula,
    ) -> Result<Formula, AllocError>
        ensures means { IfOk result (λ f. meaning f ≡ two max (meaning left) (meaning right)) }
        ensures shaped { IfOk result (λ f.
            formula_shape f ≡ a_join span (formula_shape left) (formula_shape right)) }
    {
        let left = Box::new(alloc, left)?;
        Ok(Formula::Join(span, left, Box::new(alloc, right)?))
    }
}

/// A name of the interval, by its index, and the end that it is at.
#[derive(Clone, Copy, Debug, PartialEq, Eq)]
pub struct Equation {
    pub index: u32,
    pub end: End,
}
