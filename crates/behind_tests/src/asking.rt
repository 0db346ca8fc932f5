//! Every node, asked.

ghost use Rattle.std.specs.Prelude.{◌≡◌, IfOk, IsSome, Some};
ghost use Rattle.trees.specs.Trees.{Subst, Tree};
ghost use Rattle.trees.specs.Judgements.{Context, Judgement};
ghost use Rattle.trees.specs.Language.{Sb, Tm, TmEq, Ty, TyEq};
ghost use Rattle.trees.specs.Things.{AContext, ATree};
ghost use Rattle.book.specs.Shown.{Extends};
ghost use Rattle.book_writer.specs.Written.{concluded_by};
ghost use Rattle.typed_nodes.specs.Typed.{Says};
ghost use Rattle.behind_tests.specs.Claims.{IsRow};

use crate::answers::{anchored_is, context_is, far_is, home_is, left_is, right_is, type_is};
use crate::forms::{kids_are, opened_is};
use book::{Book, NodeId};
use std::alloc::{AllocError, Global};
use theory::Claim;

/// What may be asked of a node.
#[derive(Clone, Copy, Debug)]
pub enum Asked {
    Context,
    Type,
    Left,
    Right,
    From,
    To,
    /// A typing once more, at its type.
    Anchor,
    /// The parts of a type or a term, and how they fit.
    Parts,
}

/// How many questions were asked, and how many answers were not what they should be.
#[derive(Clone, Copy, Debug, PartialEq, Eq)]
pub struct Tally {
    pub asked: u64,
    pub wrong: u64,
}

/// Asks of a type.
fn ask_type(
    alloc: Global,
    book: &mut Book,
    asked: Asked,
    node: NodeId,
    ctx: u64,
) -> Result<Option<bool>, AllocError>
    requires { (G : Context) × (A : Tree) × Says book.old node (Ty G A)
        × IsRow book.old ctx (AContext G) }
    ensures { Extends book.old book.new }
{
    match asked {
        Asked::Context => Ok(Some(context_is(alloc, book, node, Claim::Ctx(ctx))?)),
        Asked::Parts => Ok(Some(kids_are(alloc, book, node, ctx)?)),
        _ => Ok(None),
    }
}

/// Asks of an equation of types.
fn ask_equal_types(
    alloc: Global,
    book: &mut Book,
    asked: Asked,
    node: NodeId,
    ctx: u64,
    left: u64,
    right: u64,
) -> Result<Option<bool>, AllocError>
    requires { (G : Context) × (A B : Tree) × Says book.old node (TyEq G A B)
        × IsRow book.old ctx (AContext G) × IsRow book.old left (ATree A)
        × IsRow book.old right (ATree B) }
    ensures { Extends book.old book.new }
{
    match asked {
        Asked::Context => Ok(Some(context_is(alloc, book, node, Claim::Ctx(ctx))?)),
        Asked::Left => Ok(Some(left_is(alloc, book, node, Claim::Ty(ctx, left))?)),
        Asked::Right => Ok(Some(right_is(alloc, book, node, Claim::Ty(ctx, right))?)),
        _ => Ok(None),
    }
}

/// Asks of a term.
fn ask_term(
    alloc: Global,
    book: &mut Book,
    asked: Asked,
    node: NodeId,
    ctx: u64,
    term: u64,
    ty: u64,
) -> Result<Option<bool>, AllocError>
    requires { (G : Context) × (a A : Tree) × Says book.old node (Tm G a A)
        × IsRow book.old ctx (AContext G) × IsRow book.old term (ATree a)
        × IsRow book.old ty (ATree A) }
    ensures { Extends book.old book.new }
{
    match asked {
        Asked::Context => Ok(Some(context_is(alloc, book, node, Claim::Ctx(ctx))?)),
        Asked::Type => Ok(Some(type_is(alloc, book, node, Claim::Ty(ctx, ty))?)),
        Asked::Anchor => { Ok(Some(anchored_is(alloc, book, node, Claim::Tm(ctx, term, ty))?)) }
        Asked::Parts => Ok(Some(opened_is(alloc, book, node, ctx, ty)?)),
        _ => Ok(None),
    }
}

/// Asks of an equation of terms.
fn ask_equal_terms(
    alloc: Global,
    book: &mut Book,
    asked: Asked,
    node: NodeId,
    ctx: u64,
    left: u64,
    right: u64,
    ty: u64,
) -> Result<Option<bool>, AllocError>
    requires { (G : Context) × (a b A : Tree) × Says book.old node (TmEq G a b A)
        × IsRow book.old ctx (AContext G) × IsRow book.old left (ATree a)
        × IsRow book.old right (ATree b) × IsRow book.old ty (ATree A) }
    ensures { Extends book.old book.new }
{
    match asked {
        Asked::Context => Ok(Some(context_is(alloc, book, node, Claim::Ctx(ctx))?)),
        Asked::Type => Ok(Some(type_is(alloc, book, node, Claim::Ty(ctx, ty))?)),
        Asked::Left => Ok(Some(left_is(alloc, book, node, Claim::Tm(ctx, left, ty))?)),
        Asked::Right => Ok(Some(right_is(alloc, book, node, Claim::Tm(ctx, right, ty))?)),
        _ => Ok(None),
    }
}

/// Asks of a substitution.
fn ask_substitution(
    alloc: Global,
    book: &mut Book,
    asked: Asked,
    node: NodeId,
    far: u64,
    home: u64,
) -> Result<Option<bool>, AllocError>
    requires { (H G : Context) × (d : Subst) × Says book.old node (Sb H d G)
        × IsRow book.old far (AContext H) × IsRow book.old home (AContext G) }
    ensures { Extends book.old book.new }
{
    match asked {
        Asked::From => Ok(Some(far_is(alloc, book, node, Claim::Ctx(far))?)),
        Asked::To => Ok(Some(home_is(alloc, book, node, Claim::Ctx(home))?)),
        _ => Ok(None),
    }
}

/// Whether the answer is what it should be, where that may be asked of the node.
///
/// # Errors
/// Only where memory runs out.
pub fn ask(
    alloc: Global,
    book: &mut Book,
    asked: Asked,
    node: NodeId,
) -> Result<Option<bool>, AllocError>
    requires { (J : Judgement) × Says book.old node J }
    ensures { Extends book.old book.new }
{
    match book.conclusion(node) {
        Claim::Ctx(_) => Ok(None),
        Claim::Ty(ctx, _) => Ok(ask_type(alloc, book, asked, node, ctx)?),
        Claim::TyEq(ctx, left, right) => {
            Ok(ask_equal_types(alloc, book, asked, node, ctx, left, right)?)
        }
        Claim::Tm(ctx, term, ty) => Ok(ask_term(alloc, book, asked, node, ctx, term, ty)?),
        Claim::TmEq(ctx, left, right, ty) => {
            Ok(ask_equal_terms(alloc, book, asked, node, ctx, left, right, ty)?)
        }
        Claim::Sb(far, _, home) => Ok(ask_substitution(alloc, book, asked, node, far, home)?),
    }
}

/// The same of the node of this number, if there is one.
///
/// # Errors
/// Only where memory runs out.
pub fn ask_numbered(
    alloc: Global,
    book: &mut Book,
    asked: Asked,
    number: u64,
) -> Result<Option<bool>, AllocError> {
    if number < book.mark().nodes {
        Ok(ask(alloc, book, asked, NodeId(number))?)
    } else {
        Ok(None)
    }
}

/// Asks the same of every node of a book, but not of those that answer.
///
/// # Errors
/// Only where memory runs out.
pub fn ask_every_node(alloc: Global, book: &mut Book, asked: Asked) -> Result<Tally, AllocError> {
    let mut tally = Tally { asked: 0, wrong: 0 };
    for node in 0..book.mark().nodes {
        if let Some(right) = ask(alloc, book, asked, NodeId(node))? {
            tally.asked = tally.asked.saturating_add(1);
            tally.wrong = tally.wrong.saturating_add(u64::from(!right));
        }
    }
    Ok(tally)
}

/// Every node of a book.
///
/// # Errors
/// Only where memory runs out.
pub fn every_node(alloc: Global, book: &Book) -> Result<Vec<NodeId>, AllocError>
    ensures { IfOk result (λ nodes. IsSome (concluded_by book.now nodes.items)) }
{
    let mut nodes = Vec::new(alloc);
    for node in 0..book.mark().nodes {
        nodes.push(NodeId(node))?;
    }
    Ok(nodes)
}
