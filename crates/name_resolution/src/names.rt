//! Names where terms are wanted.

ghost use Rattle.std.specs.Prelude.{◌≡◌, IfOk};
ghost use Rattle.translation.specs.Texts.{term_at, word};
ghost use Rattle.codes.specs.Codes.{meaning};
ghost use Rattle.codes.specs.Shapes.{shape};
ghost use Rattle.name_resolution.specs.Named.{as_term, found_at};
ghost use Rattle.scopes.specs.Steps.{Resolves};

use codes::Code;
use layout_lexer::Span;
use scopes::{Found, Place};
use std::alloc::{AllocError, Global};
use translation::{BuiltIn, Cause};

/// The bytes of a text, where spans spell names.
///
/// A refused name stands for the universe, or for the innermost name of the interval, so that the
/// rest is resolved too and the first fault is found.
#[derive(Clone, Copy)]
pub struct References<'a> {
    pub alloc: Global,
    pub bytes: &'a [u8],
}

impl<'a> References<'a> {
    /// The piece of the text that a span names.
    pub fn spelling(&self, span: Span) -> &'a [u8]
        ensures { result.now ≡ word self.now.bytes.now span }
    {
        let end = (span.end as usize).min(self.bytes.len());
        let start = (span.start as usize).min(end);
        &self.bytes[start..end]
    }

    /// A name where a term is wanted.
    pub fn name(&self, place: &mut Place<'a>, span: Span) -> Result<Code, AllocError>
        ensures resolves { IfOk result (λ c.
            Resolves place.old place.new (term_at self.now.bytes.now span) (meaning c)) }
        ensures shaped { IfOk result (λ c.
            shape c ≡ as_term span (found_at self.now.bytes.now place.old.names span)) }
    {
        match place.find(self.spelling(span)) {
            Found::Variable(index) => Ok(Code::Bound { span, index }),
            Found::Definition(number) => Ok(Code::Defined { span, number }),
            Found::BuiltIn(BuiltIn::Nat) => Ok(Code::Nat { span }),
            Found::BuiltIn(BuiltIn::Zero) => Ok(Code::Zero { span }),
            Found::BuiltIn(BuiltIn::Suc) => Code::successor(self.alloc, span),
            Found::BuiltIn(BuiltIn::NatRec) => {
                place.refuse(span.start, Cause::NameKind);
                Ok(Code::Universe { span })
            }
            Found::Interval(_) => {
                place.refuse(span.start, Cause::NameKind);
                Ok(Code::Universe { span })
            }
            Found::Nothing => {
                place.refuse(span.start, Cause::Unbound);
                Ok(Code::Universe { span })
            }
        }
    }
}
