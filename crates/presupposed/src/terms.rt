//! The parts of terms, and the types that they were made at.

ghost use Rattle.std.specs.Prelude.{◌≡◌, IfOk, Some, true};
ghost use Rattle.trees.specs.Trees.{Subst, Tree, apply};
ghost use Rattle.trees.specs.Judgements.{Context, WithVar};
ghost use Rattle.trees.specs.Language.{Sb, Tm, Ty};
ghost use Rattle.book.specs.Shown.{Extends};
ghost use Rattle.typed_nodes.specs.Typed.{Says};
ghost use Rattle.literal_terms.specs.Forms.{IsFormed, is_literal};
ghost use Rattle.literal_terms.specs.Traces.{Fits, IsLiteralTerm};
ghost use Rattle.presupposed.specs.Terms.{AreKids, IsMadeAt, IsOpened};

use crate::parts::last_entry;
use crate::questions::context_of;
use book::{Book, NodeId};
use literal_terms::{
    Glued, LiteralTerm, Paired, TermForm, function_under, literal_term, pair_under, path_under,
};
use presuppositions::Label;
use std::alloc::{AllocError, Global};
use typed_nodes::{identity, term_instance};

/// The parts of a term that is literally a form, by their nodes in its context; those of a glued
/// term where it was made.
#[derive(Clone, Copy, Debug)]
pub enum TermKids {
    /// `lam A b : pi A B`: `G >> A`, and `G.A >> b : B`.
    Function(NodeId, NodeId),
    /// `pair a b : sig A B`
    Pair(Paired),
    /// `plam b : pathp A u v`: `G.I >> b : A`, `G >> b{0} = u : A{0}`, and `G >> b{1} = v : A{1}`.
    Path(NodeId, NodeId, NodeId),
    /// `glue p c a : Glue A p T w`, where it was made, and the substitution from here to there.
    Glued(Glued, NodeId),
    /// A type: `G >> A : U`.
    Type(NodeId),
}

/// A term that is literally a form.
#[derive(Clone, Copy, Debug)]
pub struct OpenedTerm {
    pub kids: TermKids,
    /// That the type that the parts make equals the type of the term; None where they are one tree.
    pub fits: Option<NodeId>,
}

/// `G.A >> B`, `G >> a : A` and `G >> b : B{a}`, with `G >> A`.
fn with_domain(
    alloc: Global,
    book: &mut Book,
    codomain: NodeId,
    left: NodeId,
    right: NodeId,
) -> Result<Paired, AllocError>
    requires { (G : Context) × (A B : Tree) × Says book.old codomain (Ty (WithVar G A) B) }
    ensures extends { Extends book.old book.new }
    ensures domain { IfOk result (λ pair. (G : Context) (A B : Tree) →
        Says book.old codomain (Ty (WithVar G A) B) → Says book.new pair.domain (Ty G A)) }
    ensures others { IfOk result (λ pair. (pair.codomain ≡ codomain) × (pair.left ≡ left)
        × (pair.right ≡ right)) }
{
    let ctx = context_of(alloc, book, codomain)?;
    let domain = last_entry(book, ctx, Label::Type);
    Ok(Paired {
        domain,
        codomain,
        left,
        right,
    })
}

/// The parts of a form under a substitution.
fn kids_under(
    alloc: Global,
    book: &mut Book,
    sub: NodeId,
    form: TermForm,
) -> Result<TermKids, AllocError>
    requires { (H G : Context) × (d : Subst) × (t S : Tree) × Says book.old sub (Sb H d G)
        × IsFormed book.old form G t S }
    ensures extends { Extends book.old book.new }
    ensures kids { IfOk result (λ kids. (H G : Context) (d : Subst) (t S : Tree) →
        Says book.old sub (Sb H d G) → IsFormed book.old form G t S
        → AreKids book.new kids H (apply t d) (apply S d)) }
{
    match form {
        TermForm::Function(domain, body) => {
            let (domain, body) = function_under(book, sub, domain, body)?;
            Ok(TermKids::Function(domain, body))
        }
        TermForm::Pair(codomain, left, right) => {
            let pair = with_domain(alloc, book, codomain, left, right)?;
            Ok(TermKids::Pair(pair_under(book, sub, pair)?))
        }
        TermForm::Path(body, left, right) => {
            let (body, left, right) = path_under(book, sub, body, left, right)?;
            Ok(TermKids::Path(body, left, right))
        }
        TermForm::Glued(parts) => Ok(TermKids::Glued(parts, sub)),
        TermForm::Type(node) => Ok(TermKids::Type(term_instance(book, sub, node)?)),
    }
}

/// What a term literally is, where it was made.
fn made(alloc: Global, book: &mut Book, typing: NodeId) -> Result<LiteralTerm, AllocError>
    requires { (G : Context) × (t T : Tree) × Says book.old typing (Tm G t T)
        × (is_literal t ≡ true) }
    ensures extends { Extends book.old book.new }
    ensures literal { IfOk result (λ term. (G : Context) (t T : Tree) →
        Says book.old typing (Tm G t T) → is_literal t ≡ true
        → IsLiteralTerm book.new (Some term) G t T) }
{
    let ctx = context_of(alloc, book, typing)?;
    let here = identity(book, ctx)?;
    match literal_term(alloc, book, typing, here)? {
        Some(term) => Ok(term),
        None => unreachable!(),
    }
}

/// The parts of a function, a pair, a path, a glued term or a type, whatever instances and
/// conversions spell it, and how the type that they make is that of the term.
///
/// # Errors
/// Only where memory runs out.
pub fn opened_term(alloc: Global, book: &mut Book, typing: NodeId) -> Result<OpenedTerm, AllocError>
    requires { (G : Context) × (t T : Tree) × Says book.old typing (Tm G t T)
        × (is_literal t ≡ true) }
    ensures extends { Extends book.old book.new }
    ensures opened { IfOk result (λ opened. (G : Context) (t T : Tree) →
        Says book.old typing (Tm G t T) → is_literal t ≡ true
        → IsOpened book.new opened G t T) }
{
    let term = made(alloc, book, typing)?;
    let kids = kids_under(alloc, book, term.sub, term.form)?;
    Ok(OpenedTerm {
        kids,
        fits: term.fits,
    })
}

/// That the type which a function, a pair, a path, a glued term or a type was made at equals the
/// type of the term. None only where they are one tree; a conversion that keeps the type adds none.
///
/// # Errors
/// Only where memory runs out.
pub fn fits_of(alloc: Global, book: &mut Book, typing: NodeId) -> Result<Option<NodeId>, AllocError>
    requires { (G : Context) × (t T : Tree) × Says book.old typing (Tm G t T)
        × (is_literal t ≡ true) }
    ensures extends { Extends book.old book.new }
    ensures fits { IfOk result (λ fits. (G : Context) (t T : Tree) →
        Says book.old typing (Tm G t T) → is_literal t ≡ true
        → (S : Tree) × IsMadeAt book.new G t S × Fits book.new fits G S T) }
{
    let term = made(alloc, book, typing)?;
    Ok(term.fits)
}
