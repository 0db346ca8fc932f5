//! Texts in brackets.

ghost use Rattle.std.specs.Prelude.{◌≡◌, ◌≤◌};
ghost use Rattle.syntax.specs.declared.exp.Exp.{size-Exp};
ghost use Rattle.syntax.specs.View.{tree_of};
ghost use Rattle.resolved_forms.specs.Opened.{bare as without_brackets};

use syntax::Exp;

/// The text without any brackets round it alone, and not under names of the interval where none
/// are written.
pub(crate) fn bare(exp: &Exp) -> &Exp
    ensures text { tree_of result.now ≡ without_brackets (tree_of exp.now) }
    ensures no_deeper { size-Exp result.now ≤ size-Exp exp.now }
{
    match exp {
        Exp::Brackets {
            span: _,
            components,
        } => match components.as_slice() {
            [only] => bare(only),
            [] => exp,
            [_, _, ..] => exp,
        },
        Exp::PathLambda {
            span: _,
            names,
            body,
        } => match names.as_slice() {
            [] => bare(body),
            [_, ..] => exp,
        },
        _ => exp,
    }
}
