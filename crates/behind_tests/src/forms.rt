//! The parts of types and terms that are forms, put together again.

ghost use Rattle.std.specs.Prelude.{◌≡◌, IfOk, IsTrue, MatchOption, Some, true};
ghost use Rattle.trees.specs.Trees.{Make, More, NoTrees, Tree};
ghost use Rattle.trees.specs.Judgements.{Context, Judgement, trees};
ghost use Rattle.trees.specs.Language.{Tm, Ty};
ghost use Rattle.trees.specs.Things.{AContext, ATree};
ghost use Rattle.rules.specs.Table.{pathp};
ghost use Rattle.book.specs.Shown.{Extends};
ghost use Rattle.typed_nodes.specs.Typed.{Says, subject_of};
ghost use Rattle.literal_terms.specs.Forms.{is_literal};
ghost use Rattle.literal_terms.specs.Traces.{Fits};
ghost use Rattle.presuppositions.specs.Behind.{behind, is_binder};
ghost use Rattle.presuppositions.specs.Sought.{is_of_parts};
ghost use Rattle.presupposed.specs.Terms.{AreKids};
ghost use Rattle.behind_tests.specs.Claims.{IsClaim, IsRow};

use crate::answers::{concludes, right_is};
use book::{Book, NodeId};
use literal_terms::literal_term;
use literal_types::Literal;
use presupposed::{TermKids, context_of, fits_of, kid_of, kids_of, opened_term};
use presuppositions::Label;
use rows::Maker;
use std::alloc::{AllocError, Global};
use theory::{Claim, Op};
use typed_nodes::{identity, subject_row};

/// The row of a part of a type.
fn kid_row(alloc: Global, book: &mut Book, ty: NodeId, label: Label) -> Result<u64, AllocError>
    requires { (G : Context) × (T K : Tree) × (J : Judgement) × Says book.old ty (Ty G T)
        × (is_of_parts label ≡ true) × (behind label (Ty G T) ≡ Some J) × (subject_of J ≡ Some K) }
    ensures extends { Extends book.old book.new }
    ensures row { IfOk result (λ row. (G : Context) (T K : Tree) (J : Judgement) →
        Says book.old ty (Ty G T) → is_of_parts label ≡ true → behind label (Ty G T) ≡ Some J
        → subject_of J ≡ Some K → IsRow book.new row (ATree K)) }
{
    let kid = kid_of(alloc, book, ty, label)?;
    Ok(subject_row(book, kid))
}

/// Whether a type is made of its domain and its codomain by the operator.
fn is_family(
    alloc: Global,
    book: &mut Book,
    ty: NodeId,
    ctx: u64,
    op: Op,
) -> Result<bool, AllocError>
    requires ty { (G : Context) × (A B : Tree)
        × Says book.old ty (Ty G (Make op (More A (More B NoTrees))))
        × IsRow book.old ctx (AContext G) }
    requires binder { is_binder op ≡ true }
    ensures { Extends book.old book.new }
{
    let domain = kid_row(alloc, book, ty, Label::Domain)?;
    let codomain = kid_row(alloc, book, ty, Label::Codomain)?;
    let tree = book.make(op, &[domain, codomain])?;
    Ok(concludes(alloc, book, ty, Claim::Ty(ctx, tree))?)
}

/// Whether a type of paths is made of its line and its ends.
fn is_line(alloc: Global, book: &mut Book, ty: NodeId, ctx: u64) -> Result<bool, AllocError>
    requires { (G : Context) × (A u v : Tree) × Says book.old ty (Ty G (pathp trees A u v))
        × IsRow book.old ctx (AContext G) }
    ensures { Extends book.old book.new }
{
    let line = kid_row(alloc, book, ty, Label::Line)?;
    let left = kid_row(alloc, book, ty, Label::LeftEnd)?;
    let right = kid_row(alloc, book, ty, Label::RightEnd)?;
    let tree = book.make(Op::PathP, &[line, left, right])?;
    Ok(concludes(alloc, book, ty, Claim::Ty(ctx, tree))?)
}

/// Whether a type is made of its parts, if it is of functions, of pairs or of paths.
pub fn kids_are(alloc: Global, book: &mut Book, ty: NodeId, ctx: u64) -> Result<bool, AllocError>
    requires { (G : Context) × (T : Tree) × Says book.old ty (Ty G T)
        × IsRow book.old ctx (AContext G) }
    ensures { Extends book.old book.new }
{
    match kids_of(alloc, book, ty)? {
        Literal::Pi(_) => Ok(is_family(alloc, book, ty, ctx, Op::Pi)?),
        Literal::Sigma(_) => Ok(is_family(alloc, book, ty, ctx, Op::Sig)?),
        Literal::Path(_) => Ok(is_line(alloc, book, ty, ctx)?),
        Literal::Other => Ok(true),
    }
}

/// The tree of a function, a pair, a path or a type, of its parts. None of a glued term, whose face
/// no part names.
fn term_row(book: &mut Book, kids: TermKids) -> Result<Option<u64>, AllocError>
    requires { (G : Context) × (t S : Tree) × AreKids book.old kids G t S }
    ensures extends { Extends book.old book.new }
    ensures row { IfOk result (λ found. MatchOption found (Unit {0}) (λ row.
        (t : Tree) × IsRow book.new row (ATree t))) }
{
    match kids {
        TermKids::Function(domain, body) => {
            let ty = subject_row(book, domain);
            let value = subject_row(book, body);
            Ok(Some(book.make(Op::Lam, &[ty, value])?))
        }
        TermKids::Pair(pair) => {
            let first = subject_row(book, pair.left);
            let second = subject_row(book, pair.right);
            Ok(Some(book.make(Op::Pair, &[first, second])?))
        }
        TermKids::Path(body, _, _) => {
            let point = subject_row(book, body);
            Ok(Some(book.make(Op::PLam, &[point])?))
        }
        TermKids::Glued(_, _) => Ok(None),
        TermKids::Type(node) => Ok(Some(subject_row(book, node))),
    }
}

/// Whether a term that is a form is made of its parts.
fn is_formed(
    alloc: Global,
    book: &mut Book,
    typing: NodeId,
    ctx: u64,
    ty: u64,
) -> Result<bool, AllocError>
    requires { (G : Context) × (t T : Tree) × Says book.old typing (Tm G t T)
        × (is_literal t ≡ true) × IsRow book.old ctx (AContext G) × IsRow book.old ty (ATree T) }
    ensures { Extends book.old book.new }
{
    let opened = opened_term(alloc, book, typing)?;
    match term_row(book, opened.kids)? {
        Some(tree) => Ok(concludes(alloc, book, typing, Claim::Tm(ctx, tree, ty))?),
        None => Ok(true),
    }
}

/// Whether an equation, where there is one, has this right side.
fn fits_to(
    alloc: Global,
    book: &mut Book,
    fits: Option<NodeId>,
    ty: Claim,
) -> Result<bool, AllocError>
    requires { (G : Context) × (S T : Tree) × Fits book.old fits G S T
        × IsClaim book.old ty (Ty G T) }
    ensures { Extends book.old book.new }
{
    match fits {
        Some(equation) => Ok(right_is(alloc, book, equation, ty)?),
        None => Ok(true),
    }
}

/// Whether the type that a form was made at equals the type of the term.
fn is_fitting(
    alloc: Global,
    book: &mut Book,
    typing: NodeId,
    ctx: u64,
    ty: u64,
) -> Result<bool, AllocError>
    requires { (G : Context) × (t T : Tree) × Says book.old typing (Tm G t T)
        × (is_literal t ≡ true) × IsRow book.old ctx (AContext G) × IsRow book.old ty (ATree T) }
    ensures { Extends book.old book.new }
{
    let fits = fits_of(alloc, book, typing)?;
    Ok(fits_to(alloc, book, fits, Claim::Ty(ctx, ty))?)
}

/// Whether a term is a form.
fn is_form(alloc: Global, book: &mut Book, typing: NodeId) -> Result<bool, AllocError>
    requires { (G : Context) × (t T : Tree) × Says book.old typing (Tm G t T) }
    ensures extends { Extends book.old book.new }
    ensures literal { IfOk result (λ form. (G : Context) (t T : Tree) →
        Says book.old typing (Tm G t T) → IsTrue form → is_literal t ≡ true) }
{
    let ctx = context_of(alloc, book, typing)?;
    let here = identity(book, ctx)?;
    match literal_term(alloc, book, typing, here)? {
        Some(_) => Ok(true),
        None => Ok(false),
    }
}

/// Whether a term, if it is a form, is made of its parts, and fits its type.
pub fn opened_is(
    alloc: Global,
    book: &mut Book,
    typing: NodeId,
    ctx: u64,
    ty: u64,
) -> Result<bool, AllocError>
    requires { (G : Context) × (t T : Tree) × Says book.old typing (Tm G t T)
        × IsRow book.old ctx (AContext G) × IsRow book.old ty (ATree T) }
    ensures { Extends book.old book.new }
{
    let form = is_form(alloc, book, typing)?;
    if form {
        let formed = is_formed(alloc, book, typing, ctx, ty)?;
        let fitting = is_fitting(alloc, book, typing, ctx, ty)?;
        return Ok(formed && fitting);
    }
    Ok(true)
}
