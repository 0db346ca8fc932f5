//! Glueing.

ghost use Rattle.std.specs.Prelude.{IfOk};
ghost use Rattle.scopes.specs.Steps.{Resolves};
ghost use Rattle.resolved_forms.specs.Shaped.{IsTerm};
ghost use Rattle.resolved_forms.specs.Spelt.{code_term, term_of};
ghost use Rattle.resolver.specs.Forms.{IsGlueTerm, IsGlueType, IsUnglue};

use crate::resolving::Resolver;
use codes::Code;
use scopes::Place;
use std::alloc::AllocError;
use syntax::Exp;

impl<'a> Resolver<'a> {
    /// `Glue base sides`
    #[cycle(resolve)]
    pub(crate) fn glue_type(&self, place: &mut Place<'a>, exp: &Exp) -> Result<Code, AllocError>
        requires { IsGlueType exp.now }
        ensures resolves { IfOk result (λ c. Resolves place.old place.new
            (term_of self.now.names.bytes.now exp.now) (code_term c)) }
        ensures spelt { IfOk result (λ c.
            IsTerm self.now.names.bytes.now place.old.names exp.now c) }
    {
        let Exp::GlueType { span, base, sides } = exp else {
            unreachable!();
        };
        let base = self.exp(place, base)?;
        let sides = self.pair_sides(place, sides.as_slice())?;
        Code::glue_type(self.names.alloc, *span, base, sides)
    }

    /// `glue base sides`
    #[cycle(resolve)]
    pub(crate) fn glue_term(&self, place: &mut Place<'a>, exp: &Exp) -> Result<Code, AllocError>
        requires { IsGlueTerm exp.now }
        ensures resolves { IfOk result (λ c. Resolves place.old place.new
            (term_of self.now.names.bytes.now exp.now) (code_term c)) }
        ensures spelt { IfOk result (λ c.
            IsTerm self.now.names.bytes.now place.old.names exp.now c) }
    {
        let Exp::GlueTerm { span, base, sides } = exp else {
            unreachable!();
        };
        let base = self.exp(place, base)?;
        let sides = self.sides(place, sides.as_slice())?;
        Code::glue_term(self.names.alloc, *span, base, sides)
    }

    /// `unglue base sides`
    #[cycle(resolve)]
    pub(crate) fn unglue(&self, place: &mut Place<'a>, exp: &Exp) -> Result<Code, AllocError>
        requires { IsUnglue exp.now }
        ensures resolves { IfOk result (λ c. Resolves place.old place.new
            (term_of self.now.names.bytes.now exp.now) (code_term c)) }
        ensures spelt { IfOk result (λ c.
            IsTerm self.now.names.bytes.now place.old.names exp.now c) }
    {
        let Exp::Unglue { span, base, sides } = exp else {
            unreachable!();
        };
        let base = self.exp(place, base)?;
        let sides = self.pair_sides(place, sides.as_slice())?;
        Code::unglue(self.names.alloc, *span, base, sides)
    }
}
