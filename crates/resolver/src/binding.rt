//! Texts that bind names before a body: blocks, teles, names of the interval, and arrows.

ghost use Rattle.std.specs.Prelude.{IfOk};
ghost use Rattle.scopes.specs.Steps.{Resolves};
ghost use Rattle.resolved_forms.specs.Shaped.{IsTerm};
ghost use Rattle.resolved_forms.specs.Spelt.{code_term, term_of};
ghost use Rattle.resolver.specs.Forms.{IsArrow, IsLambda, IsLet, IsPathLambda, IsPi, IsSigma};

use crate::resolving::Resolver;
use codes::Code;
use resolved_forms::arrow;
use scopes::{Binding, Place};
use std::alloc::AllocError;
use syntax::Exp;

impl<'a> Resolver<'a> {
    /// `let defs in body`
    #[cycle(resolve)]
    pub(crate) fn let_in(&self, place: &mut Place<'a>, exp: &Exp) -> Result<Code, AllocError>
        requires { IsLet exp.now }
        ensures resolves { IfOk result (λ c. Resolves place.old place.new
            (term_of self.now.names.bytes.now exp.now) (code_term c)) }
        ensures spelt { IfOk result (λ c.
            IsTerm self.now.names.bytes.now place.old.names exp.now c) }
    {
        let Exp::Let { span, defs, body } = exp else {
            unreachable!();
        };
        let mark = place.mark();
        let locals = self.block(place, defs.as_slice())?;
        let body = self.exp(place, body)?;
        place.cut(mark);
        Code::let_in(self.names.alloc, *span, locals, body)
    }

    /// `\ teles -> body`
    #[cycle(resolve)]
    pub(crate) fn lambda(&self, place: &mut Place<'a>, exp: &Exp) -> Result<Code, AllocError>
        requires { IsLambda exp.now }
        ensures resolves { IfOk result (λ c. Resolves place.old place.new
            (term_of self.now.names.bytes.now exp.now) (code_term c)) }
        ensures spelt { IfOk result (λ c.
            IsTerm self.now.names.bytes.now place.old.names exp.now c) }
    {
        let Exp::Lambda { span, teles, body } = exp else {
            unreachable!();
        };
        let mark = place.mark();
        let binders = self.binders(place, teles.as_slice())?;
        let body = self.exp(place, body)?;
        place.cut(mark);
        Code::lambda(self.names.alloc, *span, binders, body)
    }

    /// `< names > body`
    #[cycle(resolve)]
    pub(crate) fn path_lambda(&self, place: &mut Place<'a>, exp: &Exp) -> Result<Code, AllocError>
        requires { IsPathLambda exp.now }
        ensures resolves { IfOk result (λ c. Resolves place.old place.new
            (term_of self.now.names.bytes.now exp.now) (code_term c)) }
        ensures spelt { IfOk result (λ c.
            IsTerm self.now.names.bytes.now place.old.names exp.now c) }
    {
        let Exp::PathLambda { span, names, body } = exp else {
            unreachable!();
        };
        let mark = place.mark();
        let names = names.as_slice();
        self.names.bind_all(place, names, Binding::Interval)?;
        let body = self.exp(place, body)?;
        place.cut(mark);
        Code::path_lambda(self.names.alloc, *span, names.len(), body)
    }

    /// `teles -> body`
    #[cycle(resolve)]
    pub(crate) fn pi(&self, place: &mut Place<'a>, exp: &Exp) -> Result<Code, AllocError>
        requires { IsPi exp.now }
        ensures resolves { IfOk result (λ c. Resolves place.old place.new
            (term_of self.now.names.bytes.now exp.now) (code_term c)) }
        ensures spelt { IfOk result (λ c.
            IsTerm self.now.names.bytes.now place.old.names exp.now c) }
    {
        let Exp::Pi { span, teles, body } = exp else {
            unreachable!();
        };
        let mark = place.mark();
        let binders = self.binders(place, teles.as_slice())?;
        let body = self.exp(place, body)?;
        place.cut(mark);
        Code::pi(self.names.alloc, *span, binders, body)
    }

    /// `teles * body`
    #[cycle(resolve)]
    pub(crate) fn sigma(&self, place: &mut Place<'a>, exp: &Exp) -> Result<Code, AllocError>
        requires { IsSigma exp.now }
        ensures resolves { IfOk result (λ c. Resolves place.old place.new
            (term_of self.now.names.bytes.now exp.now) (code_term c)) }
        ensures spelt { IfOk result (λ c.
            IsTerm self.now.names.bytes.now place.old.names exp.now c) }
    {
        let Exp::Sigma { span, teles, body } = exp else {
            unreachable!();
        };
        let mark = place.mark();
        let binders = self.binders(place, teles.as_slice())?;
        let body = self.exp(place, body)?;
        place.cut(mark);
        Code::sigma(self.names.alloc, *span, binders, body)
    }

    /// `from -> to`
    #[cycle(resolve)]
    pub(crate) fn arrow(&self, place: &mut Place<'a>, exp: &Exp) -> Result<Code, AllocError>
        requires { IsArrow exp.now }
        ensures resolves { IfOk result (λ c. Resolves place.old place.new
            (term_of self.now.names.bytes.now exp.now) (code_term c)) }
        ensures spelt { IfOk result (λ c.
            IsTerm self.now.names.bytes.now place.old.names exp.now c) }
    {
        let Exp::Arrow { span, from, to } = exp else {
            unreachable!();
        };
        let mark = place.mark();
        let from = self.exp(place, from)?;
        place.bind(b"_", Binding::Variable)?;
        let to = self.exp(place, to)?;
        place.cut(mark);
        arrow(self.names.alloc, *span, from, to)
    }
}
