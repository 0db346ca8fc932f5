//! Where codes begin.

use codes::Code;

/// The first byte of a code.
pub fn start_of(code: &Code) -> u32 {
    let span = match code {
        Code::Bound { span, .. } => *span,
        Code::Defined { span, .. } => *span,
        Code::Let { span, .. } => *span,
        Code::Universe { span } => *span,
        Code::Nat { span } => *span,
        Code::Zero { span } => *span,
        Code::Suc { span, .. } => *span,
        Code::NatRec { span, .. } => *span,
        Code::Pi { span, .. } => *span,
        Code::Sigma { span, .. } => *span,
        Code::Lambda { span, .. } => *span,
        Code::PathLambda { span, .. } => *span,
        Code::Apply { span, .. } => *span,
        Code::Project { span, .. } => *span,
        Code::Tuple { span, .. } => *span,
        Code::PathP { span, .. } => *span,
        Code::Comp { span, .. } => *span,
        Code::Fill { span, .. } => *span,
        Code::Transport { span, .. } => *span,
        Code::GlueType { span, .. } => *span,
        Code::GlueTerm { span, .. } => *span,
        Code::Unglue { span, .. } => *span,
    };
    span.start
}
