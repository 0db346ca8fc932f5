//! Types of paths, and compositions.

ghost use Rattle.std.specs.Prelude.{IfOk};
ghost use Rattle.scopes.specs.Steps.{Resolves};
ghost use Rattle.resolved_forms.specs.Shaped.{IsTerm};
ghost use Rattle.resolved_forms.specs.Spelt.{code_term, term_of};
ghost use Rattle.resolver.specs.Forms.{IsComp, IsFill, IsPathType, IsTransport};

use crate::resolving::Resolver;
use codes::Code;
use scopes::Place;
use std::alloc::AllocError;
use syntax::Exp;
use translation::span_of;

impl<'a> Resolver<'a> {
    /// `PathP line left right`
    #[cycle(resolve)]
    pub(crate) fn path_type(&self, place: &mut Place<'a>, exp: &Exp) -> Result<Code, AllocError>
        requires { IsPathType exp.now }
        ensures resolves { IfOk result (λ c. Resolves place.old place.new
            (term_of self.now.names.bytes.now exp.now) (code_term c)) }
        ensures spelt { IfOk result (λ c.
            IsTerm self.now.names.bytes.now place.old.names exp.now c) }
    {
        let Exp::PathP {
            span,
            line,
            left,
            right,
        } = exp
        else {
            unreachable!();
        };
        let line = self.line(place, span_of(line), line)?;
        let left = self.exp(place, left)?;
        let right = self.exp(place, right)?;
        Code::path_type(self.names.alloc, *span, line, left, right)
    }

    /// `comp line base sides`
    #[cycle(resolve)]
    pub(crate) fn comp(&self, place: &mut Place<'a>, exp: &Exp) -> Result<Code, AllocError>
        requires { IsComp exp.now }
        ensures resolves { IfOk result (λ c. Resolves place.old place.new
            (term_of self.now.names.bytes.now exp.now) (code_term c)) }
        ensures spelt { IfOk result (λ c.
            IsTerm self.now.names.bytes.now place.old.names exp.now c) }
    {
        let Exp::Comp {
            span,
            line,
            base,
            sides,
        } = exp
        else {
            unreachable!();
        };
        let line = self.line(place, span_of(line), line)?;
        let base = self.exp(place, base)?;
        let sides = self.line_sides(place, sides.as_slice())?;
        Code::comp(self.names.alloc, *span, line, base, sides)
    }

    /// `fill line base sides`
    #[cycle(resolve)]
    pub(crate) fn fill(&self, place: &mut Place<'a>, exp: &Exp) -> Result<Code, AllocError>
        requires { IsFill exp.now }
        ensures resolves { IfOk result (λ c. Resolves place.old place.new
            (term_of self.now.names.bytes.now exp.now) (code_term c)) }
        ensures spelt { IfOk result (λ c.
            IsTerm self.now.names.bytes.now place.old.names exp.now c) }
    {
        let Exp::Fill {
            span,
            line,
            base,
            sides,
        } = exp
        else {
            unreachable!();
        };
        let line = self.line(place, span_of(line), line)?;
        let base = self.exp(place, base)?;
        let sides = self.line_sides(place, sides.as_slice())?;
        Code::fill(self.names.alloc, *span, line, base, sides)
    }

    /// `transport line base`
    #[cycle(resolve)]
    pub(crate) fn transport(&self, place: &mut Place<'a>, exp: &Exp) -> Result<Code, AllocError>
        requires { IsTransport exp.now }
        ensures resolves { IfOk result (λ c. Resolves place.old place.new
            (term_of self.now.names.bytes.now exp.now) (code_term c)) }
        ensures spelt { IfOk result (λ c.
            IsTerm self.now.names.bytes.now place.old.names exp.now c) }
    {
        let Exp::Transport { span, line, base } = exp else {
            unreachable!();
        };
        let line = self.line(place, span_of(line), line)?;
        let base = self.exp(place, base)?;
        Code::transport(self.names.alloc, *span, line, base)
    }
}
