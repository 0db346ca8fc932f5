//! The pieces of the text that expressions spell.

ghost use Rattle.std.specs.Prelude.{◌≡◌};
ghost use Rattle.syntax.specs.View.{tree_of};
ghost use Rattle.translation.specs.Texts.{span_of};

use layout_lexer::Span;
use syntax::Exp;

/// The piece of the text that spells the expression, with its brackets if it is in brackets.
pub fn span_of(exp: &Exp) -> Span
    ensures { result ≡ span_of (tree_of exp.now) }
{
    match exp {
        Exp::Let { span, .. } => *span,
        Exp::Lambda { span, .. } => *span,
        Exp::PathLambda { span, .. } => *span,
        Exp::Pi { span, .. } => *span,
        Exp::Sigma { span, .. } => *span,
        Exp::Arrow { span, .. } => *span,
        Exp::Apply { span, .. } => *span,
        Exp::PathP { span, .. } => *span,
        Exp::Comp { span, .. } => *span,
        Exp::Fill { span, .. } => *span,
        Exp::Transport { span, .. } => *span,
        Exp::GlueType { span, .. } => *span,
        Exp::GlueTerm { span, .. } => *span,
        Exp::Unglue { span, .. } => *span,
        Exp::Project { span, .. } => *span,
        Exp::Universe { span } => *span,
        Exp::Name { span } => *span,
        Exp::Brackets { span, .. } => *span,
    }
}
