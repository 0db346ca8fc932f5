//! Codes that are made of several parts.

ghost use Rattle.std.specs.Prelude.{◌≡◌, [], ◌∷◌, IfOk, map, replicate};
ghost use Rattle.translation.specs.Forms.{after, one, over, project, tuple as tupled, under};
ghost use Rattle.translation.specs.Terms.{lam, nat as nat_tree, pi};
ghost use Rattle.codes.specs.Codes.{binder_of, definitions, meaning};
ghost use Rattle.codes.specs.Shapes.{
  def_shape,
  lambda as a_lambda,
  listed,
  more,
  none,
  shape,
  Binder as a_binder,
  Pi as a_pi,
  Project as a_projection,
};
ghost use Rattle.resolved_forms.specs.Shaped.{after as with_block, numbers, tuple as a_tuple};

use codes::{Binder, Code, CodeDef};
use layout_lexer::Span;
use std::alloc::{AllocError, Global};
use syntax::{Projection, Projections};

/// `ty -> body`: a Pi type over a variable that has no name.
pub fn arrow(alloc: Global, span: Span, ty: Code, body: Code) -> Result<Code, AllocError>
    ensures means { IfOk result (λ c.
        meaning c ≡ under pi (binder_of 1 (meaning ty) ∷ []) (meaning body)) }
    ensures shaped { IfOk result (λ c.
        shape c ≡ a_pi span (more (a_binder 1 (shape ty)) none) (shape body)) }
{
    let mut binders = Vec::new(alloc);
    binders.push(Binder { names: 1, ty })?;
    Code::pi(alloc, span, binders, body)
}

/// `\ (names : nat) -> body`, where so many names are written and `nat` stands there; over no
/// names, the body.
pub(crate) fn over_numbers(
    alloc: Global,
    span: Span,
    names: usize,
    nat: Span,
    body: Code,
) -> Result<Code, AllocError>
    ensures means { IfOk result (λ c.
        meaning c ≡ over lam (replicate names 0) nat_tree (meaning body)) }
    ensures shaped { IfOk result (λ c.
        shape c ≡ a_lambda span (numbers names nat) (shape body)) }
{
    if names == 0 {
        return Ok(body);
    }
    let mut binders = Vec::new(alloc);
    binders.push(Binder {
        names,
        ty: Code::Nat { span: nat },
    })?;
    Code::lambda(alloc, span, binders, body)
}

/// `pair projections`
pub fn projected(
    alloc: Global,
    span: Span,
    pair: Code,
    projections: &[Projection],
) -> Result<Code, AllocError>
    ensures means { IfOk result (λ c.
        meaning c ≡ one (λ t. project t projections.now) (meaning pair)) }
    ensures shaped { IfOk result (λ c.
        shape c ≡ a_projection span (shape pair) projections.now) }
{
    let projections = copied(alloc, projections)?;
    Code::project(alloc, span, pair, projections)
}

fn copied(alloc: Global, projections: &[Projection]) -> Result<Projections, AllocError>
    ensures { IfOk result (λ ps. ps ≡ projections.now) }
{
    let mut copied = Projections::new(alloc);
    for projection in projections {
        copied.push(*projection)?;
    }
    Ok(copied)
}

/// `( components )`: one is itself, several nest to the right.
pub fn tuple(span: Span, mut components: Vec<Code>) -> Code
    ensures means { meaning result ≡ tupled (map meaning components.items) }
    ensures shaped { shape result ≡ a_tuple span (listed shape components.items) }
{
    if components.len() != 1 {
        return Code::tuple(span, components);
    }
    match components.pop() {
        Some(only) => only,
        None => Code::tuple(span, components),
    }
}

/// The body after its `where` block; without one, the body.
pub fn with_locals(
    alloc: Global,
    span: Span,
    locals: Vec<CodeDef>,
    body: Code,
) -> Result<Code, AllocError>
    ensures means { IfOk result (λ c. meaning c ≡ after (definitions locals.items) (meaning body)) }
    ensures shaped { IfOk result (λ c.
        shape c ≡ with_block span (listed def_shape locals.items) (shape body)) }
{
    if locals.is_empty() {
        return Ok(body);
    }
    Code::let_in(alloc, span, locals, body)
}
