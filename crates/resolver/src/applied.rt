//! Names that are applied, and what heads are applied to.

ghost use Rattle.std.specs.Prelude.{◌≡◌, [], ◌∷◌, IfOk};
ghost use Rattle.translation.specs.declared.built_in.BuiltIn.TheVariants.{NatRec as the_recursor};
ghost use Rattle.translation.specs.declared.built_in.BuiltIn.TheVariants.{Suc as the_successor};
ghost use Rattle.translation.specs.Texts.{word};
ghost use Rattle.scopes.specs.declared.names.Found.TheVariants.{BuiltIn as a_built_in};
ghost use Rattle.scopes.specs.Finding.{find};
ghost use Rattle.scopes.specs.Steps.{Resolves};
ghost use Rattle.resolved_forms.specs.Shaped.{
  AreElements,
  IsApplied,
  IsElement,
  IsPlain,
  IsTerm,
};
ghost use Rattle.resolved_forms.specs.Spelt.{
  Applies,
  code_element,
  code_elements,
  code_term,
  element_of,
  elements_of,
  named_of,
  plain_of,
  term_of,
};
ghost use Rattle.resolver.specs.Forms.{IsApply, IsProject};

use crate::resolving::Resolver;
use codes::{Code, Element};
use layout_lexer::Span;
use resolved_forms::{first_argument, projected};
use scopes::{Found, Place};
use std::alloc::AllocError;
use syntax::Element::{Argument, At};
use syntax::Exp;
use translation::{BuiltIn, span_of};

impl<'a> Resolver<'a> {
    /// `head elements`
    #[cycle(resolve)]
    pub(crate) fn applied(&self, place: &mut Place<'a>, exp: &Exp) -> Result<Code, AllocError>
        requires { IsApply exp.now }
        ensures resolves { IfOk result (λ c. Resolves place.old place.new
            (term_of self.now.names.bytes.now exp.now) (code_term c)) }
        ensures spelt { IfOk result (λ c.
            IsTerm self.now.names.bytes.now place.old.names exp.now c) }
    {
        let Exp::Apply {
            span,
            head,
            elements,
        } = exp
        else {
            unreachable!();
        };
        match &**head {
            Exp::Name { span: name } => self.named(place, *span, *name, elements.as_slice()),
            _ => {
                let head = self.exp(place, head)?;
                let elements = self.elements(place, elements.as_slice())?;
                Code::apply(self.names.alloc, *span, head, elements)
            }
        }
    }

    /// `pair.1.2 ..`
    #[cycle(resolve)]
    pub(crate) fn project(&self, place: &mut Place<'a>, exp: &Exp) -> Result<Code, AllocError>
        requires { IsProject exp.now }
        ensures resolves { IfOk result (λ c. Resolves place.old place.new
            (term_of self.now.names.bytes.now exp.now) (code_term c)) }
        ensures spelt { IfOk result (λ c.
            IsTerm self.now.names.bytes.now place.old.names exp.now c) }
    {
        let Exp::Project {
            span,
            pair,
            projections,
        } = exp
        else {
            unreachable!();
        };
        let pair = self.exp(place, pair)?;
        projected(self.names.alloc, *span, pair, projections.as_slice())
    }

    /// `name elements`. The built-in `suc` and `natrec` take arguments of their own, where enough
    /// are written.
    #[cycle(resolve)]
    pub(crate) fn named(
        &self,
        place: &mut Place<'a>,
        span: Span,
        name: Span,
        elements: &[syntax::Element],
    ) -> Result<Code, AllocError>
        ensures resolves { IfOk result (λ c. Resolves place.old place.new
            (named_of self.now.names.bytes.now name elements.now) (code_term c)) }
        ensures spelt { IfOk result (λ c.
            IsApplied self.now.names.bytes.now place.old.names span name elements.now c) }
    {
        match place.find(self.names.spelling(name)) {
            Found::BuiltIn(BuiltIn::Suc) => self.suc(place, span, name, elements),
            Found::BuiltIn(BuiltIn::NatRec) => self.natrec(place, span, name, elements),
            Found::BuiltIn(BuiltIn::Nat) => self.plain(place, span, name, elements),
            Found::BuiltIn(BuiltIn::Zero) => self.plain(place, span, name, elements),
            Found::Variable(_) => self.plain(place, span, name, elements),
            Found::Interval(_) => self.plain(place, span, name, elements),
            Found::Definition(_) => self.plain(place, span, name, elements),
            Found::Nothing => self.plain(place, span, name, elements),
        }
    }

    /// `suc elements`, of the built-in `suc`.
    #[cycle(resolve)]
    fn suc(
        &self,
        place: &mut Place<'a>,
        span: Span,
        name: Span,
        elements: &[syntax::Element],
    ) -> Result<Code, AllocError>
        requires { find place.old.names (word self.now.names.bytes.now name)
            ≡ a_built_in the_successor }
        ensures resolves { IfOk result (λ c. Resolves place.old place.new
            (named_of self.now.names.bytes.now name elements.now) (code_term c)) }
        ensures spelt { IfOk result (λ c.
            IsApplied self.now.names.bytes.now place.old.names span name elements.now c) }
    {
        let Some((argument, rest)) = first_argument(elements) else {
            return self.plain(place, span, name, elements);
        };
        let argument = self.exp(place, argument)?;
        let head = Code::suc(self.names.alloc, name, argument)?;
        let elements = self.elements(place, rest)?;
        Code::apply(self.names.alloc, span, head, elements)
    }

    /// `natrec elements`, of the built-in `natrec`.
    #[cycle(resolve)]
    fn natrec(
        &self,
        place: &mut Place<'a>,
        span: Span,
        name: Span,
        elements: &[syntax::Element],
    ) -> Result<Code, AllocError>
        requires { find place.old.names (word self.now.names.bytes.now name)
            ≡ a_built_in the_recursor }
        ensures resolves { IfOk result (λ c. Resolves place.old place.new
            (named_of self.now.names.bytes.now name elements.now) (code_term c)) }
        ensures spelt { IfOk result (λ c.
            IsApplied self.now.names.bytes.now place.old.names span name elements.now c) }
    {
        let Some((motive, rest)) = first_argument(elements) else {
            return self.plain(place, span, name, elements);
        };
        let Some((base, rest)) = first_argument(rest) else {
            return self.plain(place, span, name, elements);
        };
        let Some((step, rest)) = first_argument(rest) else {
            return self.plain(place, span, name, elements);
        };
        let Some((argument, rest)) = first_argument(rest) else {
            return self.plain(place, span, name, elements);
        };
        let alloc = self.names.alloc;
        let motive = self.motive(place, span_of(motive), motive)?;
        let base = self.exp(place, base)?;
        let step = self.exp(place, step)?;
        let argument = self.exp(place, argument)?;
        let head = Code::natrec(alloc, name, motive, base, step, argument)?;
        let elements = self.elements(place, rest)?;
        Code::apply(alloc, span, head, elements)
    }

    /// `name elements`, where the name takes no arguments of its own.
    #[cycle(resolve)]
    fn plain(
        &self,
        place: &mut Place<'a>,
        span: Span,
        name: Span,
        elements: &[syntax::Element],
    ) -> Result<Code, AllocError>
        ensures resolves { IfOk result (λ c. Resolves place.old place.new
            (plain_of self.now.names.bytes.now name elements.now) (code_term c)) }
        ensures spelt { IfOk result (λ c.
            IsPlain self.now.names.bytes.now place.old.names span name elements.now c) }
    {
        let head = self.names.name(place, name)?;
        let elements = self.elements(place, elements)?;
        Code::apply(self.names.alloc, span, head, elements)
    }

    /// What a head is applied to.
    #[cycle(resolve)]
    pub(crate) fn elements(
        &self,
        place: &mut Place<'a>,
        elements: &[syntax::Element],
    ) -> Result<Vec<Element>, AllocError>
        ensures resolves { IfOk result (λ es. Applies place.old place.new
            (elements_of self.now.names.bytes.now elements.now) (code_elements es.items)) }
        ensures spelt { IfOk result (λ es.
            AreElements self.now.names.bytes.now place.old.names elements.now es.items) }
    {
        let mut resolved = Vec::new(self.names.alloc);
        for element in elements {
            resolved.push(self.element(place, element)?)?;
        }
        Ok(resolved)
    }

    #[cycle(resolve)]
    fn element(
        &self,
        place: &mut Place<'a>,
        element: &syntax::Element,
    ) -> Result<Element, AllocError>
        ensures resolves { IfOk result (λ e. Applies place.old place.new
            (element_of self.now.names.bytes.now element.now ∷ []) (code_element e ∷ [])) }
        ensures spelt { IfOk result (λ e.
            IsElement self.now.names.bytes.now place.old.names element.now e) }
    {
        match element {
            Argument(exp) => Ok(Element::Argument(self.exp(place, exp)?)),
            At(span, formula) => Ok(Element::At(*span, self.names.formula(place, formula)?)),
        }
    }
}
