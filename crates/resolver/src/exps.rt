//! Expressions.

ghost use Rattle.std.specs.Prelude.{IfOk, map};
ghost use Rattle.translation.specs.Forms.{tuple as tupled};
ghost use Rattle.scopes.specs.Steps.{Resolves};
ghost use Rattle.resolved_forms.specs.Shaped.{AreTerms, IsTerm, IsTuple};
ghost use Rattle.resolved_forms.specs.Spelt.{code_term, code_terms, term_of, terms_of};

use crate::resolving::Resolver;
use codes::Code;
use layout_lexer::Span;
use resolved_forms::tuple;
use scopes::Place;
use std::alloc::AllocError;
use syntax::Exp;

impl<'a> Resolver<'a> {
    /// The code of an expression, by its form. Each form of several parts has a function of its
    /// own, so that deep texts take little stack.
    #[cycle(resolve)]
    pub(crate) fn exp(&self, place: &mut Place<'a>, exp: &Exp) -> Result<Code, AllocError>
        ensures resolves { IfOk result (λ c. Resolves place.old place.new
            (term_of self.now.names.bytes.now exp.now) (code_term c)) }
        ensures spelt { IfOk result (λ c.
            IsTerm self.now.names.bytes.now place.old.names exp.now c) }
    {
        match exp {
            Exp::Let { .. } => self.let_in(place, exp),
            Exp::Lambda { .. } => self.lambda(place, exp),
            Exp::PathLambda { .. } => self.path_lambda(place, exp),
            Exp::Pi { .. } => self.pi(place, exp),
            Exp::Sigma { .. } => self.sigma(place, exp),
            Exp::Arrow { .. } => self.arrow(place, exp),
            Exp::Apply { .. } => self.applied(place, exp),
            Exp::PathP { .. } => self.path_type(place, exp),
            Exp::Comp { .. } => self.comp(place, exp),
            Exp::Fill { .. } => self.fill(place, exp),
            Exp::Transport { .. } => self.transport(place, exp),
            Exp::GlueType { .. } => self.glue_type(place, exp),
            Exp::GlueTerm { .. } => self.glue_term(place, exp),
            Exp::Unglue { .. } => self.unglue(place, exp),
            Exp::Project { .. } => self.project(place, exp),
            Exp::Universe { span } => Ok(Code::Universe { span: *span }),
            Exp::Name { span } => self.names.name(place, *span),
            Exp::Brackets { span, components } => {
                self.brackets(place, *span, components.as_slice())
            }
        }
    }

    /// `( components )`
    #[cycle(resolve)]
    fn brackets(
        &self,
        place: &mut Place<'a>,
        span: Span,
        components: &[Exp],
    ) -> Result<Code, AllocError>
        ensures resolves { let bytes = self.now.names.bytes.now in
            IfOk result (λ c. Resolves place.old place.new
            (tupled (map (term_of bytes) components.now)) (code_term c)) }
        ensures spelt { IfOk result (λ c.
            IsTuple self.now.names.bytes.now place.old.names span components.now c) }
    {
        Ok(tuple(span, self.exps(place, components)?))
    }

    /// Expressions, in order.
    #[cycle(resolve)]
    pub(crate) fn exps(&self, place: &mut Place<'a>, exps: &[Exp]) -> Result<Vec<Code>, AllocError>
        ensures resolves { IfOk result (λ cs. Resolves place.old place.new
            (terms_of self.now.names.bytes.now exps.now) (code_terms cs.items)) }
        ensures spelt { IfOk result (λ cs.
            AreTerms self.now.names.bytes.now place.old.names exps.now cs.items) }
    {
        let mut resolved = Vec::new(self.names.alloc);
        for exp in exps {
            resolved.push(self.exp(place, exp)?)?;
        }
        Ok(resolved)
    }
}
