//! Names at which texts stand opened, and codes that stand under them.

ghost use Rattle.std.specs.Prelude.{◌≡◌, IfOk, replicate};
ghost use Rattle.translation.specs.Forms.{over, under_names};
ghost use Rattle.translation.specs.Terms.{lam, nat as nat_tree};
ghost use Rattle.translation.specs.Texts.{word};
ghost use Rattle.codes.specs.Codes.{meaning};
ghost use Rattle.codes.specs.Shapes.{lambda as a_lambda, path_lambda as a_path_lambda, shape};
ghost use Rattle.scopes.specs.Steps.{all_bound_to, bound_to};
ghost use Rattle.resolved_forms.specs.Shaped.{numbers};
ghost use Rattle.resolved_forms.specs.Spelt.{words_of};
ghost use Rattle.resolved_forms.specs.Opening.{IsUnder};

use crate::forms::over_numbers;
use codes::{Code, Opened};
use layout_lexer::Span;
use name_resolution::References;
use scopes::{Binding, Place};
use std::alloc::{AllocError, Global};

/// Binds the name at which a text stands opened, and then the others that are written with it.
pub fn open_at<'a>(
    names: &References<'a>,
    place: &mut Place<'a>,
    first: Span,
    others: &[Span],
    binding: Binding,
) -> Result<(), AllocError>
    ensures { let bytes = names.now.bytes.now in
        IfOk result (λ _. let opened = bound_to place.old (word bytes first) binding in
        place.new ≡ all_bound_to opened (words_of bytes others.now) binding) }
{
    place.bind(names.spelling(first), binding)?;
    names.bind_all(place, others, binding)
}

/// The line that is `body` under its name, and under so many others.
pub fn line_under(
    alloc: Global,
    span: Span,
    others: usize,
    body: Code,
) -> Result<Opened, AllocError>
    ensures { let means = under_names (replicate others 0) (meaning body) in
        IfOk result (IsUnder span means (a_path_lambda span others (shape body))) }
{
    let under = Code::path_lambda(alloc, span, others, body)?;
    Ok(Opened::Under(span, under))
}

/// The motive that is `body` under its variable, and under so many others over the same `nat`.
pub fn motive_under(
    alloc: Global,
    span: Span,
    others: usize,
    nat: Span,
    body: Code,
) -> Result<Opened, AllocError>
    ensures { let means = over lam (replicate others 0) nat_tree (meaning body) in
        IfOk result (IsUnder span means (a_lambda span (numbers others nat) (shape body))) }
{
    let body = over_numbers(alloc, span, others, nat, body)?;
    Ok(Opened::Under(span, body))
}
