//! Texts that stand opened: lines, and motives of `natrec`.

ghost use Rattle.std.specs.Prelude.{IfOk};
ghost use Rattle.scopes.specs.Steps.{Resolves};
ghost use Rattle.resolved_forms.specs.Shaped.{IsLine, IsMotive};
ghost use Rattle.resolved_forms.specs.Spelt.{code_line, code_motive, line_of, motive_of};

use crate::resolving::Resolver;
use codes::{Code, Opened};
use layout_lexer::Span;
use resolved_forms::{
    LineText, MotiveText, line_text, line_under, motive_text, motive_under, open_at,
};
use scopes::{Binding, Place};
use std::alloc::AllocError;
use syntax::Exp;

impl<'a> Resolver<'a> {
    /// A text where a line is wanted; the span is that of the text with any brackets round it.
    #[cycle(resolve)]
    pub(crate) fn line(
        &self,
        place: &mut Place<'a>,
        span: Span,
        exp: &Exp,
    ) -> Result<Opened, AllocError>
        ensures resolves { IfOk result (λ l. Resolves place.old place.new
            (line_of self.now.names.bytes.now exp.now) (code_line l)) }
        ensures spelt { IfOk result (λ l.
            IsLine self.now.names.bytes.now place.old.names span exp.now l) }
    {
        match line_text(exp) {
            LineText::Under { name, others, body } => {
                let mark = place.mark();
                open_at(&self.names, place, name, others, Binding::Interval)?;
                let body = self.exp(place, body)?;
                place.cut(mark);
                line_under(self.names.alloc, span, others.len(), body)
            }
            LineText::Applied => Ok(Opened::Applied(span, self.exp(place, exp)?)),
        }
    }

    /// A text where the motive of `natrec` is wanted; the span is that of the text with any
    /// brackets round it.
    #[cycle(resolve)]
    pub(crate) fn motive(
        &self,
        place: &mut Place<'a>,
        span: Span,
        exp: &Exp,
    ) -> Result<Opened, AllocError>
        ensures resolves { IfOk result (λ m. Resolves place.old place.new
            (motive_of self.now.names.bytes.now exp.now) (code_motive m)) }
        ensures spelt { IfOk result (λ m.
            IsMotive self.now.names.bytes.now place.old.names span exp.now m) }
    {
        match motive_text(&self.names, place, exp) {
            MotiveText::Under {
                name,
                others,
                nat,
                teles,
                body,
            } => {
                let alloc = self.names.alloc;
                let mark = place.mark();
                open_at(&self.names, place, name, others, Binding::Variable)?;
                let binders = self.binders(place, teles)?;
                let body = self.exp(place, body)?;
                place.cut(mark);
                let body = Code::lambda(alloc, span, binders, body)?;
                motive_under(alloc, span, others.len(), nat, body)
            }
            MotiveText::Applied => Ok(Opened::Applied(span, self.exp(place, exp)?)),
        }
    }
}
