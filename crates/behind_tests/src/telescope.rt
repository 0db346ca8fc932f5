//! A function of many arguments, the types of which depend on the ones before.

ghost use Rattle.std.specs.Prelude.{IfOk, MatchOption, reverse};
ghost use Rattle.trees.specs.Trees.{Tree, Var};
ghost use Rattle.trees.specs.Judgements.{Context, WithVar, trees};
ghost use Rattle.trees.specs.Language.{Ctx, Tm, Ty};
ghost use Rattle.rules.specs.Table.{universe, weakened};
ghost use Rattle.book.specs.Shown.{Extends};
ghost use Rattle.typed_nodes.specs.Typed.{Says};
ghost use Rattle.behind_tests.specs.Telescopes.{AreArguments, IsTerm, with_two};
ghost use Rattle.behind_tests.specs.Telescopes.{IsClosed, IsTypedClosed, IsUnder};

use book::{Book, NodeId};
use literal_types::{Literal, literal};
use presupposed::type_of;
use std::alloc::{AllocError, Global};
use typed_nodes::{
    TypeAt, Typed, applied, empty, function, identity, numbers_type, small_type, type_row,
    universe_type, variable, with_variable, zero,
};

/// The last variable of a context, which is of this type.
fn last(book: &mut Book, ctx: NodeId, ty: NodeId) -> Result<NodeId, AllocError>
    requires { (G : Context) × (A : Tree) × Says book.old ctx (Ctx (WithVar G A))
        × Says book.old ty (Ty G A) }
    ensures extends { Extends book.old book.new }
    ensures typed { IfOk result (λ node. (G : Context) (A : Tree) →
        Says book.old ctx (Ctx (WithVar G A)) → Says book.old ty (Ty G A)
        → Says book.new node (Tm (WithVar G A) (Var 0) (weakened trees A))) }
{
    let here = identity(book, ctx)?;
    Ok(variable(book, here, ty)?)
}

/// Two arguments: a type, and an element of it.
#[derive(Clone, Copy, Debug)]
pub struct Arguments {
    /// The type of types, in the context.
    pub universe: NodeId,
    /// The first variable as a type.
    pub ty: NodeId,
    /// The context with both variables.
    pub ctx: NodeId,
    /// The second variable.
    pub element: NodeId,
}

/// `G.U >> var 0`, of `G >> U`
fn type_variable(book: &mut Book, small_types: NodeId) -> Result<NodeId, AllocError>
    requires { (G : Context) × Says book.old small_types (Ty G (universe trees)) }
    ensures extends { IfOk result (λ ty. Extends book.old book.new) }
    ensures typed { IfOk result (λ ty. (G : Context) →
        Says book.old small_types (Ty G (universe trees))
        → Says book.new ty (Ty (WithVar G (universe trees)) (Var 0))) }
{
    let ctx = with_variable(book, small_types)?;
    let small = last(book, ctx, small_types)?;
    Ok(small_type(book, small)?)
}

/// Two variables more of a context.
fn arguments_under(book: &mut Book, ctx: NodeId) -> Result<Arguments, AllocError>
    requires { (G : Context) × Says book.old ctx (Ctx G) }
    ensures extends { IfOk result (λ two. Extends book.old book.new) }
    ensures typed { IfOk result (λ two. (G : Context) → Says book.old ctx (Ctx G)
        → AreArguments book.new two G) }
{
    let universe = universe_type(book, ctx)?;
    let ty = type_variable(book, universe)?;
    let inner = with_variable(book, ty)?;
    let element = last(book, inner, ty)?;
    Ok(Arguments {
        universe,
        ty,
        ctx: inner,
        element,
    })
}

/// A term under two variables, as a function of both.
fn bound(book: &mut Book, two: Arguments, body: NodeId) -> Result<NodeId, AllocError>
    requires { (G : Context) × AreArguments book.old two G × IsTerm book.old body (with_two G) }
    ensures extends { IfOk result (λ node. Extends book.old book.new) }
    ensures typed { IfOk result (λ node. (G : Context) → AreArguments book.old two G
        → IsTerm book.old body (with_two G) → IsTerm book.new node G) }
{
    let inner = function(book, two.ty, body)?;
    Ok(function(book, two.universe, inner)?)
}

/// A term under all these variables, as a function of them.
fn bound_by_all(
    book: &mut Book,
    mut arguments: Vec<Arguments>,
    mut body: NodeId,
) -> Result<NodeId, AllocError>
    requires { IsUnder book.old (reverse arguments.items) body }
    ensures { IfOk result (IsClosed book.new) }
{
    while let Some(two) = arguments.pop() {
        body = bound(book, two, body)?;
    }
    Ok(body)
}

/// A function of so many types, and of an element of each behind it: the last of these elements.
///
/// # Errors
/// Only where memory runs out.
pub fn function_of(alloc: Global, book: &mut Book, pairs: u64) -> Result<NodeId, AllocError>
    ensures { IfOk result (IsClosed book.new) }
{
    let mut arguments = Vec::new(alloc);
    let mut ctx = empty(book)?;
    let mut body = zero(book, ctx)?;
    for _ in 0..pairs {
        let two = arguments_under(book, ctx)?;
        ctx = two.ctx;
        body = two.element;
        arguments.push(two)?;
    }
    Ok(bound_by_all(book, arguments, body)?)
}

/// A function at this argument, where it is literally one of such arguments.
fn applied_to(
    alloc: Global,
    book: &mut Book,
    function: Typed,
    argument: NodeId,
) -> Result<Option<Typed>, AllocError>
    requires function { IsTypedClosed book.old «function» }
    requires argument { IsClosed book.old argument }
    ensures extends { Extends book.old book.new }
    ensures typed { IfOk result (λ found. MatchOption found (Unit {0}) (IsTypedClosed book.new)) }
{
    let Literal::Pi(family) = literal(alloc, book, function.ty)? else {
        return Ok(None);
    };
    let domain = TypeAt {
        ty: family.domain,
        sub: family.sub,
    };
    let ty = type_row(book, argument);
    if domain.is_row(book, ty)? {
        return Ok(Some(applied(book, family, function.term, argument)?));
    }
    Ok(None)
}

/// A function at two arguments, where it is literally one of such arguments.
fn applied_to_both(
    alloc: Global,
    book: &mut Book,
    function: Typed,
    ty: NodeId,
    element: NodeId,
) -> Result<Option<Typed>, AllocError>
    requires function { IsTypedClosed book.old «function» }
    requires ty { IsClosed book.old ty }
    requires element { IsClosed book.old element }
    ensures extends { IfOk result (λ found. Extends book.old book.new) }
    ensures typed { IfOk result (λ found. MatchOption found (Unit {0}) (IsTypedClosed book.new)) }
{
    match applied_to(alloc, book, function, ty)? {
        Some(family) => Ok(applied_to(alloc, book, family, element)?),
        None => Ok(None),
    }
}

/// A term at its type.
fn typed_of(alloc: Global, book: &mut Book, term: NodeId) -> Result<Typed, AllocError>
    requires { IsClosed book.old term }
    ensures extends { IfOk result (λ typed. Extends book.old book.new) }
    ensures typed { IfOk result (IsTypedClosed book.new) }
{
    let ctx = empty(book)?;
    let sub = identity(book, ctx)?;
    let ty = type_of(alloc, book, term)?;
    Ok(Typed {
        term,
        ty: TypeAt { ty, sub },
    })
}

/// A function at the type of numbers and then at zero, so many times, where it is one of such
/// arguments.
///
/// # Errors
/// Only where memory runs out.
pub fn applied_to_all(
    alloc: Global,
    book: &mut Book,
    function: NodeId,
    pairs: u64,
) -> Result<Option<Typed>, AllocError>
    requires { IsClosed book.old «function» }
{
    let ctx = empty(book)?;
    let (numbers, _) = numbers_type(book, ctx)?;
    let number = zero(book, ctx)?;
    let mut typed = typed_of(alloc, book, function)?;
    for _ in 0..pairs {
        let Some(next) = applied_to_both(alloc, book, typed, numbers, number)? else {
            return Ok(None);
        };
        typed = next;
    }
    Ok(Some(typed))
}
