//! What stands behind nodes, asked of nodes that were tested to be of the form that has it.

ghost use Rattle.std.specs.Prelude.{IsTrue};
ghost use Rattle.trees.specs.Trees.{Subst, Tree};
ghost use Rattle.trees.specs.Judgements.{Context};
ghost use Rattle.trees.specs.Language.{Sb, Ty};
ghost use Rattle.book.specs.Shown.{Extends};
ghost use Rattle.typed_nodes.specs.Typed.{Says};
ghost use Rattle.presupposed.specs.Asked.{IsAt, IsIn};

use crate::fault::Fault;
use crate::run::derive;
use book::{Book, NodeId};
use literal_types::Literal;
use std::alloc::Global;
use theory::Claim;
use typing_rules::{TYPE_INSTANCE, TYPE_INSTANCE_GIVES, UNDER_VARIABLE, UNDER_VARIABLE_GIVES};

/// Whether a node concludes a type, a term or an equation in a context.
fn is_in_context(book: &Book, node: NodeId) -> bool
    ensures { IsTrue result → (G : Context) × IsIn book.now node G }
{
    if !book.is_node(node) {
        return false;
    }
    match book.conclusion(node) {
        Claim::Ty(..) => true,
        Claim::TyEq(..) => true,
        Claim::Tm(..) => true,
        Claim::TmEq(..) => true,
        Claim::Ctx(..) | Claim::Sb(..) => false,
    }
}

/// Whether a node concludes a term or an equation of terms.
fn is_at_type(book: &Book, node: NodeId) -> bool
    ensures { IsTrue result → (G : Context) × (A : Tree) × IsAt book.now node G A }
{
    if !book.is_node(node) {
        return false;
    }
    match book.conclusion(node) {
        Claim::Tm(..) => true,
        Claim::TmEq(..) => true,
        _ => false,
    }
}

/// Whether a node concludes a type.
fn is_type(book: &Book, node: NodeId) -> bool
    ensures { IsTrue result → (G : Context) × (T : Tree) × Says book.now node (Ty G T) }
{
    if !book.is_node(node) {
        return false;
    }
    match book.conclusion(node) {
        Claim::Ty(..) => true,
        _ => false,
    }
}

/// Whether a node concludes a substitution.
fn is_substitution(book: &Book, node: NodeId) -> bool
    ensures { IsTrue result →
        (H G : Context) × (d : Subst) × Says book.now node (Sb H d G) }
{
    if !book.is_node(node) {
        return false;
    }
    match book.conclusion(node) {
        Claim::Sb(..) => true,
        _ => false,
    }
}

/// `ctx G`, of a type, a term or an equation in G.
pub fn context_of(alloc: Global, book: &mut Book, node: NodeId) -> Result<NodeId, Fault>
    ensures { Extends book.old book.new }
{
    if !is_in_context(book, node) {
        return Err(Fault::Misfit);
    }
    Ok(presupposed::context_of(alloc, book, node)?)
}

/// `ctx H`, of `d : H to G`.
pub fn far_of(alloc: Global, book: &mut Book, sub: NodeId) -> Result<NodeId, Fault>
    ensures { Extends book.old book.new }
{
    if !is_substitution(book, sub) {
        return Err(Fault::Misfit);
    }
    Ok(presupposed::far_of(alloc, book, sub)?)
}

/// `G >> A`, of `G >> a : A` or `G >> a = b : A`.
pub fn type_of(alloc: Global, book: &mut Book, node: NodeId) -> Result<NodeId, Fault>
    ensures { Extends book.old book.new }
{
    if !is_at_type(book, node) {
        return Err(Fault::Misfit);
    }
    Ok(presupposed::type_of(alloc, book, node)?)
}

/// What a type literally is, of `G >> A`.
pub fn kids_of(alloc: Global, book: &mut Book, ty: NodeId) -> Result<Literal, Fault>
    ensures { Extends book.old book.new }
{
    if !is_type(book, ty) {
        return Err(Fault::Misfit);
    }
    Ok(presupposed::kids_of(alloc, book, ty)?)
}

/// `G.A >> B`, of `G >> t : pi A B` or `G >> t : sig A B`.
pub fn codomain_of(alloc: Global, book: &mut Book, term: NodeId) -> Result<NodeId, Fault> {
    let ty = type_of(alloc, book, term)?;
    match kids_of(alloc, book, ty)? {
        Literal::Pi(family) | Literal::Sigma(family) => {
            let premises = [family.sub, family.domain];
            let [sub]: [NodeId; 1] = derive(
                book,
                UNDER_VARIABLE,
                UNDER_VARIABLE_GIVES,
                &[],
                &premises,
            )?;
            let premises = [sub, family.codomain];
            let [codomain]: [NodeId; 1] = derive(
                book,
                TYPE_INSTANCE,
                TYPE_INSTANCE_GIVES,
                &[],
                &premises,
            )?;
            Ok(codomain)
        }
        Literal::Path(_) | Literal::Other => Err(Fault::Misfit),
    }
}
