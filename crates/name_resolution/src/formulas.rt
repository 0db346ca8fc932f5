//! Formulas of the interval, and the equations of sides.

ghost use Rattle.std.specs.Prelude.{◌≡◌, IfOk, map};
ghost use Rattle.syntax.specs.View.{formula_of};
ghost use Rattle.translation.specs.Forms.{all};
ghost use Rattle.translation.specs.Texts.{equations as the_equations, formula as the_formula};
ghost use Rattle.translation.specs.Texts.{name_at};
ghost use Rattle.codes.specs.Codes.{equations as meant, formula as meaning};
ghost use Rattle.codes.specs.FormulaShapes.{formula_shape};
ghost use Rattle.name_resolution.specs.Named.{as_index, equations_in, formula_in, found_at};
ghost use Rattle.name_resolution.specs.Spelt.{index_of};
ghost use Rattle.scopes.specs.Steps.{Resolves};

use crate::names::References;
use codes::{Equation, Formula};
use layout_lexer::Span;
use scopes::{Found, Place};
use std::alloc::AllocError;
use translation::Cause;

impl<'a> References<'a> {
    /// The index of the name of the interval that is written there; 0 where it is refused.
    fn interval(&self, place: &mut Place<'a>, name: Span) -> u32
        ensures resolves { Resolves place.old place.new
            (name_at self.now.bytes.now name) (index_of result) }
        ensures named { result ≡ as_index (found_at self.now.bytes.now place.old.names name) }
    {
        match place.find(self.spelling(name)) {
            Found::Interval(index) => index,
            Found::Nothing => {
                place.refuse(name.start, Cause::Unbound);
                0
            }
            Found::Variable(_) => {
                place.refuse(name.start, Cause::NameKind);
                0
            }
            Found::Definition(_) => {
                place.refuse(name.start, Cause::NameKind);
                0
            }
            Found::BuiltIn(_) => {
                place.refuse(name.start, Cause::NameKind);
                0
            }
        }
    }

    /// The formula that is written.
    pub fn formula(
        &self,
        place: &mut Place<'a>,
        formula: &syntax::Formula,
    ) -> Result<Formula, AllocError>
        ensures resolves { IfOk result (λ f. Resolves place.old place.new
            (the_formula self.now.bytes.now (formula_of formula.now)) (meaning f)) }
        ensures shaped { IfOk result (λ f. formula_shape f
            ≡ formula_in self.now.bytes.now place.old.names (formula_of formula.now)) }
    {
        match formula {
            syntax::Formula::Zero(span) => Ok(Formula::Zero(*span)),
            syntax::Formula::One(span) => Ok(Formula::One(*span)),
            syntax::Formula::Name(span) => Ok(Formula::Bound(*span, self.interval(place, *span))),
            syntax::Formula::Negate(span, formula) => {
                let formula = self.formula(place, formula)?;
                Formula::negate(self.alloc, *span, formula)
            }
            syntax::Formula::Meet(span, left, right) => {
                let left = self.formula(place, left)?;
                let right = self.formula(place, right)?;
                Formula::meet(self.alloc, *span, left, right)
            }
            syntax::Formula::Join(span, left, right) => {
                let left = self.formula(place, left)?;
                let right = self.formula(place, right)?;
                Formula::join(self.alloc, *span, left, right)
            }
        }
    }

    /// The equations of a side, in order.
    pub fn equations(
        &self,
        place: &mut Place<'a>,
        equations: &[syntax::Equation],
    ) -> Result<Vec<Equation>, AllocError>
        ensures resolves { IfOk result (λ es. Resolves place.old place.new
            (all (the_equations self.now.bytes.now equations.now)) (all (meant es.items))) }
        ensures named { IfOk result (λ es.
            es.items ≡ equations_in self.now.bytes.now place.old.names equations.now) }
    {
        let mut resolved = Vec::new(self.alloc);
        for equation in equations {
            resolved.push(Equation {
                index: self.interval(place, equation.name),
                end: equation.end,
            })?;
        }
        Ok(resolved)
    }
}
