//! The form that a type literally is.

ghost use Rattle.std.specs.Prelude.{IfOk, reverse};
ghost use Rattle.trees.specs.Trees.{Tree};
ghost use Rattle.trees.specs.Judgements.{Context};
ghost use Rattle.trees.specs.Language.{Ty};
ghost use Rattle.book.specs.Shown.{Extends};
ghost use Rattle.typed_nodes.specs.Typed.{IsTypeAt, Says};
ghost use Rattle.literal_types.specs.Literal.{IsLiteral};
ghost use Rattle.literal_types.specs.Formed.{sized};
ghost use Rattle.literal_types.specs.Substitutions.{IsFrom};
ghost use Rattle.literal_types.specs.Waits.{FormStands, Stands};

use crate::forms::{Form, Former, Literal, Size};
use crate::joins::joined;
use crate::openings::{Opening, opened};
use crate::waiting::{Waiting, looked_up};
use book::{Book, NodeId};
use std::alloc::{AllocError, Global};
use typed_nodes::{Family, Line, TypeAt, small_type};

/// The form that a type literally is, under what waits then.
fn found(book: &Book, ty: NodeId, waiting: &mut Vec<Waiting>) -> Result<Option<Form>, AllocError>
    requires { (H : Context) × (T : Tree) × Stands book.now ty (reverse waiting.old.items) H T }
    ensures { IfOk result (λ form. (H : Context) (T : Tree) →
        Stands book.now ty (reverse waiting.old.items) H T
        → FormStands book.now form (reverse waiting.new.items) H T) }
{
    let mut node = ty;
    loop {
        match opened(book, node) {
            Opening::Same(next) => node = next,
            Opening::Instance(sub, next) => {
                waiting.push(Waiting::Sub(sub))?;
                node = next;
            }
            Opening::Variable => match looked_up(book, waiting)? {
                Some(next) => node = next,
                None => return Ok(None),
            },
            Opening::Formed(form) => return Ok(Some(form)),
            Opening::Other => return Ok(None),
        }
    }
}

/// `K >> A`
fn large(book: &mut Book, size: Size, node: NodeId) -> Result<NodeId, AllocError>
    requires { (K : Context) × (A : Tree) × Says book.old node (sized size K A) }
    ensures extends { Extends book.old book.new }
    ensures typed { IfOk result (λ ty. (K : Context) (A : Tree) →
        Says book.old node (sized size K A) → Says book.new ty (Ty K A)) }
{
    match size {
        Size::Large => Ok(node),
        Size::Small => Ok(small_type(book, node)?),
    }
}

/// A form under what waits, by its parts at home and one substitution from where `from` is from.
fn literal_of(
    alloc: Global,
    book: &mut Book,
    from: NodeId,
    form: Form,
    waiting: Vec<Waiting>,
) -> Result<Literal, AllocError>
    requires { (H : Context) × (T : Tree) × IsFrom book.old from H
        × FormStands book.old (Some form) (reverse waiting.items) H T }
    ensures extends { Extends book.old book.new }
    ensures literal { IfOk result (λ literal. (H : Context) (T : Tree) → IsFrom book.old «from» H
        → FormStands book.old (Some form) (reverse waiting.items) H T
        → IsLiteral book.new literal H T) }
{
    let sub = joined(alloc, book, from, waiting)?;
    match form {
        Form::Family(former, size, domain, codomain) => {
            let domain = large(book, size, domain)?;
            let codomain = large(book, size, codomain)?;
            let family = Family {
                domain,
                codomain,
                sub,
            };
            match former {
                Former::Pi => Ok(Literal::Pi(family)),
                Former::Sigma => Ok(Literal::Sigma(family)),
            }
        }
        Form::Line(size, ty, left, right) => {
            let ty = large(book, size, ty)?;
            Ok(Literal::Path(Line {
                ty,
                left,
                right,
                sub,
            }))
        }
    }
}

/// What a type literally is, whatever instances and conversions spell it. No rows are made where
/// the form stands at home in the node of the type, as a type.
///
/// Variables are looked up in the substitutions before them as `looked_up` says, which takes
/// exponential time where composites share their parts.
pub fn literal(alloc: Global, book: &mut Book, at: TypeAt) -> Result<Literal, AllocError>
    requires { (H : Context) × (T : Tree) × IsTypeAt book.old at H T }
    ensures extends { Extends book.old book.new }
    ensures literal { IfOk result (λ literal. (H : Context) (T : Tree) →
        IsTypeAt book.old at H T → IsLiteral book.new literal H T) }
{
    let mut waiting = Vec::new(alloc);
    waiting.push(Waiting::Sub(at.sub))?;
    match found(book, at.ty, &mut waiting)? {
        Some(form) => Ok(literal_of(alloc, book, at.sub, form, waiting)?),
        None => Ok(Literal::Other),
    }
}
