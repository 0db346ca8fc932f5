//! Equations of types.

ghost use Rattle.std.specs.Prelude.{◌≡◌, ◌∷◌, [], IfOk};
ghost use Rattle.trees.specs.Trees.{Subst, Tree, apply};
ghost use Rattle.trees.specs.Judgements.{Context, trees};
ghost use Rattle.trees.specs.Language.{Sb, TyEq};
ghost use Rattle.trees.specs.Things.{AContext, ASubst, ATree};
ghost use Rattle.recipes.specs.Derivations.{Derives, StatesAt};
ghost use Rattle.book.specs.Shown.{Extends};
ghost use Rattle.typed_nodes.specs.Typed.{Says};
ghost use Rattle.literal_terms.specs.Equations as equations;

use crate::equation_instance::{EQUATION_INSTANCE, EQUATION_INSTANCE_GIVES};
use crate::equations_joined::{EQUATIONS_JOINED, EQUATIONS_JOINED_GIVES};
use book::{Book, NodeId};
use book_shifts::laws_of_shifts;
use std::alloc::AllocError;
use typed_nodes::derive;

/// The tables derive what they are for.
fn equations_are_derived()
    ensures instance { Derives [] equations.equation_instance_statement
        EQUATION_INSTANCE.now EQUATION_INSTANCE_GIVES.now }
    ensures joined { Derives [] equations.equations_joined_statement
        EQUATIONS_JOINED.now EQUATIONS_JOINED_GIVES.now }
{}

/// At trees these state what their definitions say there.
fn equations_at_trees()
    ensures instance { (H : Context) (d : Subst) (G : Context) (A B : Tree) →
        StatesAt equations.equation_instance_statement
        (AContext H ∷ ASubst d ∷ AContext G ∷ ATree A ∷ ATree B ∷ [])
        (equations.equation_instance trees H d G A B) }
    ensures joined { (G : Context) (A B C : Tree) →
        StatesAt equations.equations_joined_statement
        (AContext G ∷ ATree A ∷ ATree B ∷ ATree C ∷ [])
        (equations.equations_joined trees G A B C) }
{}

/// `H >> A[d] = B[d]`, of `d : H to G` and `G >> A = B`
pub fn equation_under(book: &mut Book, sub: NodeId, equation: NodeId) -> Result<NodeId, AllocError>
    requires { (H G : Context) × (d : Subst) × (A B : Tree) × Says book.old sub (Sb H d G)
        × Says book.old equation (TyEq G A B) }
    ensures extends { Extends book.old book.new }
    ensures typed { IfOk result (λ node. (H G : Context) (d : Subst) (A B : Tree) →
        Says book.old sub (Sb H d G) → Says book.old equation (TyEq G A B)
        → Says book.new node (TyEq H (apply A d) (apply B d))) }
{
    equations_are_derived();
    equations_at_trees();
    laws_of_shifts(book);
    let premises = [sub.0, equation.0];
    Ok(derive(
        book,
        EQUATION_INSTANCE,
        EQUATION_INSTANCE_GIVES,
        &[],
        &premises,
    )?)
}

/// `G >> A = C`, of `G >> A = B` and `G >> B = C`
pub fn joined_equations(
    book: &mut Book,
    first: NodeId,
    second: NodeId,
) -> Result<NodeId, AllocError>
    requires { (G : Context) × (A B C : Tree) × Says book.old first (TyEq G A B)
        × Says book.old second (TyEq G B C) }
    ensures extends { Extends book.old book.new }
    ensures typed { IfOk result (λ node. (G : Context) (A B C : Tree) →
        Says book.old first (TyEq G A B) → Says book.old second (TyEq G B C)
        → Says book.new node (TyEq G A C)) }
{
    equations_are_derived();
    equations_at_trees();
    Ok(derive(
        book,
        EQUATIONS_JOINED,
        EQUATIONS_JOINED_GIVES,
        &[],
        &[first.0, second.0],
    )?)
}
