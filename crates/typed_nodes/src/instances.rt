//! Types, terms and variables under substitutions.

ghost use Rattle.std.specs.Prelude.{IfOk};
ghost use Rattle.trees.specs.Trees.{Subst, Tree, Var, apply};
ghost use Rattle.trees.specs.Judgements.{Context, WithVar, trees};
ghost use Rattle.trees.specs.Language.{Sb, Tm, Ty};
ghost use Rattle.rules.specs.Table.{weakened};
ghost use Rattle.book.specs.Shown.{Extends};
ghost use Rattle.typed_nodes.specs.Typed.{Says};

use crate::calls::derive;
use book::{Book, NodeId};
use book_shifts::laws_of_shifts;
use std::alloc::AllocError;
use typing_rules::{
    TERM_INSTANCE, TERM_INSTANCE_GIVES, TYPE_INSTANCE, TYPE_INSTANCE_GIVES, VARIABLE,
    VARIABLE_GIVES, places_are_derived, places_at_trees,
};

/// `H >> A[d]`, of `d : H to G` and `G >> A`
pub fn type_instance(book: &mut Book, sub: NodeId, ty: NodeId) -> Result<NodeId, AllocError>
    requires { (H G : Context) × (d : Subst) × (A : Tree) × Says book.old sub (Sb H d G)
        × Says book.old ty (Ty G A) }
    ensures extends { Extends book.old book.new }
    ensures typed { IfOk result (λ node. (H G : Context) (d : Subst) (A : Tree) →
        Says book.old sub (Sb H d G) → Says book.old ty (Ty G A)
        → Says book.new node (Ty H (apply A d))) }
{
    places_are_derived();
    places_at_trees();
    laws_of_shifts(book);
    let premises = [sub.0, ty.0];
    Ok(derive(book, TYPE_INSTANCE, TYPE_INSTANCE_GIVES, &[], &premises)?)
}

/// `H >> a[d] : A[d]`, of `d : H to G` and `G >> a : A`
pub fn term_instance(book: &mut Book, sub: NodeId, term: NodeId) -> Result<NodeId, AllocError>
    requires { (H G : Context) × (d : Subst) × (a A : Tree) × Says book.old sub (Sb H d G)
        × Says book.old term (Tm G a A) }
    ensures extends { Extends book.old book.new }
    ensures typed { IfOk result (λ node. (H G : Context) (d : Subst) (a A : Tree) →
        Says book.old sub (Sb H d G) → Says book.old term (Tm G a A)
        → Says book.new node (Tm H (apply a d) (apply A d))) }
{
    places_are_derived();
    places_at_trees();
    laws_of_shifts(book);
    let premises = [sub.0, term.0];
    Ok(derive(book, TERM_INSTANCE, TERM_INSTANCE_GIVES, &[], &premises)?)
}

/// The innermost variable of `G.A` under d, of `d : H to G.A` and `G >> A`
pub fn variable(book: &mut Book, sub: NodeId, ty: NodeId) -> Result<NodeId, AllocError>
    requires { (H G : Context) × (d : Subst) × (A : Tree) × Says book.old sub (Sb H d (WithVar G A))
        × Says book.old ty (Ty G A) }
    ensures extends { Extends book.old book.new }
    ensures typed { IfOk result (λ node. (H G : Context) (d : Subst) (A : Tree) →
        Says book.old sub (Sb H d (WithVar G A)) → Says book.old ty (Ty G A)
        → Says book.new node (Tm H (apply (Var 0) d) (apply (weakened trees A) d))) }
{
    places_are_derived();
    places_at_trees();
    laws_of_shifts(book);
    Ok(derive(book, VARIABLE, VARIABLE_GIVES, &[], &[sub.0, ty.0])?)
}
