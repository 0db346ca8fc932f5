//! The sides of systems.

ghost use Rattle.std.specs.Prelude.{◌≡◌, IfOk};
ghost use Rattle.codes.specs.Shapes.{shape, Universe as a_universe};
ghost use Rattle.scopes.specs.Steps.{Resolves};
ghost use Rattle.resolved_forms.specs.Shaped.{AreLineSides, ArePairSides, AreSides, IsPair, IsTerm};
ghost use Rattle.resolved_forms.specs.Spelt.{
  code_line_sides,
  code_pair,
  code_pair_sides,
  code_term_sides,
  line_sides_of,
  no_pair_of,
  pair_of,
  pair_sides_of,
  term_sides_of,
};

use crate::resolving::Resolver;
use codes::{Code, LineSide, PairSide, Side};
use layout_lexer::Span;
use resolved_forms::{PairText, pair_text, tuple};
use scopes::Place;
use std::alloc::AllocError;
use syntax::Exp;
use translation::{Cause, span_of};

/// A written pair of a type and an equivalence.
#[derive(Drop)]
struct Pair {
    ty: Code,
    equivalence: Code,
}

impl<'a> Resolver<'a> {
    /// Sides that are terms.
    #[cycle(resolve)]
    pub(crate) fn sides(
        &self,
        place: &mut Place<'a>,
        sides: &[syntax::Side],
    ) -> Result<Vec<Side>, AllocError>
        ensures resolves { IfOk result (λ ss. Resolves place.old place.new
            (term_sides_of self.now.names.bytes.now sides.now) (code_term_sides ss.items)) }
        ensures spelt { IfOk result (λ ss.
            AreSides self.now.names.bytes.now place.old.names sides.now ss.items) }
    {
        let mut resolved = Vec::new(self.names.alloc);
        for side in sides {
            let equations = self.names.equations(place, side.equations.as_slice())?;
            let span = span_of(&side.body);
            let body = self.exp(place, &side.body)?;
            resolved.push(Side {
                equations,
                span,
                body,
            })?;
        }
        Ok(resolved)
    }

    /// Sides that are lines.
    #[cycle(resolve)]
    pub(crate) fn line_sides(
        &self,
        place: &mut Place<'a>,
        sides: &[syntax::Side],
    ) -> Result<Vec<LineSide>, AllocError>
        ensures resolves { IfOk result (λ ss. Resolves place.old place.new
            (line_sides_of self.now.names.bytes.now sides.now) (code_line_sides ss.items)) }
        ensures spelt { IfOk result (λ ss.
            AreLineSides self.now.names.bytes.now place.old.names sides.now ss.items) }
    {
        let mut resolved = Vec::new(self.names.alloc);
        for side in sides {
            let equations = self.names.equations(place, side.equations.as_slice())?;
            let body = self.line(place, span_of(&side.body), &side.body)?;
            resolved.push(LineSide { equations, body })?;
        }
        Ok(resolved)
    }

    /// Sides that are pairs of a type and an equivalence.
    #[cycle(resolve)]
    pub(crate) fn pair_sides(
        &self,
        place: &mut Place<'a>,
        sides: &[syntax::Side],
    ) -> Result<Vec<PairSide>, AllocError>
        ensures resolves { IfOk result (λ ss. Resolves place.old place.new
            (pair_sides_of self.now.names.bytes.now sides.now) (code_pair_sides ss.items)) }
        ensures spelt { IfOk result (λ ss.
            ArePairSides self.now.names.bytes.now place.old.names sides.now ss.items) }
    {
        let mut resolved = Vec::new(self.names.alloc);
        for side in sides {
            let equations = self.names.equations(place, side.equations.as_slice())?;
            let span = span_of(&side.body);
            let pair = self.pair(place, span, &side.body)?;
            resolved.push(PairSide {
                equations,
                span,
                ty: pair.ty,
                equivalence: pair.equivalence,
            })?;
        }
        Ok(resolved)
    }

    /// A written pair, in any brackets; the span is that of the text with all of them.
    #[cycle(resolve)]
    fn pair(&self, place: &mut Place<'a>, span: Span, exp: &Exp) -> Result<Pair, AllocError>
        ensures resolves { IfOk result (λ p. Resolves place.old place.new
            (pair_of self.now.names.bytes.now span.start exp.now) (code_pair p.ty p.equivalence)) }
        ensures spelt { IfOk result (λ p.
            IsPair self.now.names.bytes.now place.old.names span exp.now p.ty p.equivalence) }
    {
        match pair_text(exp) {
            PairText::Pair {
                span,
                ty,
                equivalence,
            } => {
                let ty = self.exp(place, ty)?;
                let equivalence = tuple(span, self.exps(place, equivalence)?);
                Ok(Pair { ty, equivalence })
            }
            PairText::Term => self.no_pair(place, span, exp),
        }
    }

    /// A side that is no written pair.
    #[cycle(resolve)]
    fn no_pair(&self, place: &mut Place<'a>, span: Span, exp: &Exp) -> Result<Pair, AllocError>
        ensures resolves { IfOk result (λ p. Resolves place.old place.new
            (no_pair_of self.now.names.bytes.now span.start exp.now)
            (code_pair p.ty p.equivalence)) }
        ensures spelt { let bytes = self.now.names.bytes.now in
            IfOk result (λ p. IsTerm bytes place.old.names exp.now p.ty
            × (shape p.equivalence ≡ a_universe span)) }
    {
        let ty = self.exp(place, exp)?;
        place.refuse(span.start, Cause::GlueSide);
        Ok(Pair {
            ty,
            equivalence: Code::Universe { span },
        })
    }
}
