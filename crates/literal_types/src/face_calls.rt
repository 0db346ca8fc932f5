//! Contexts and substitutions past a face.

ghost use Rattle.std.specs.Prelude.{◌≡◌, ◌∷◌, [], IfOk, IsTrue, Some};
ghost use Rattle.trees.specs.Trees.{Subst, Tree};
ghost use Rattle.trees.specs.Judgements.{Context, WithFace, trees};
ghost use Rattle.trees.specs.Language.{Ctx, Sb};
ghost use Rattle.trees.specs.Things.{AContext, ASubst, ATree};
ghost use Rattle.conditions.specs.Sides.{is_face};
ghost use Rattle.recipes.specs.Derivations.{Derives, StatesAt};
ghost use Rattle.book.specs.Shown.{Extends, book_means};
ghost use Rattle.typed_nodes.specs.Typed.{Says};
ghost use Rattle.literal_types.specs.Faces as faces;

use crate::past_face::{PAST_FACE, PAST_FACE_GIVES};
use crate::with_face::{WITH_FACE, WITH_FACE_GIVES};
use book::{Book, NodeId};
use book_shifts::laws_of_shifts;
use std::alloc::AllocError;
use typed_nodes::derive;

/// The tables derive what they are for.
fn faces_are_derived()
    ensures with_face { Derives [] faces.with_face_statement WITH_FACE.now WITH_FACE_GIVES.now }
    ensures past_face { Derives [] faces.past_face_statement PAST_FACE.now PAST_FACE_GIVES.now }
{}

/// At trees these state what their definitions say there.
fn faces_at_trees()
    ensures with_face { (p : Tree) (H : Context) →
        StatesAt faces.with_face_statement
        (ATree p ∷ AContext H ∷ [])
        (faces.with_face trees p H) }
    ensures past_face { (p : Tree) (H : Context) (d : Subst) (G : Context) →
        StatesAt faces.past_face_statement
        (ATree p ∷ AContext H ∷ ASubst d ∷ AContext G ∷ [])
        (faces.past_face trees p H d G) }
{}

/// `ctx H.p`, of `ctx H` and a face p
pub fn with_face(book: &mut Book, ctx: NodeId, face: u64) -> Result<NodeId, AllocError>
    requires { (H : Context) × (p : Tree) × Says book.old ctx (Ctx H)
        × (book_means book.old face ≡ Some (ATree p)) × IsTrue (is_face H p) }
    ensures extends { Extends book.old book.new }
    ensures typed { IfOk result (λ node. (H : Context) (p : Tree) → Says book.old ctx (Ctx H)
        → book_means book.old «face» ≡ Some (ATree p) → IsTrue (is_face H p)
        → Says book.new node (Ctx (WithFace H p))) }
{
    faces_are_derived();
    faces_at_trees();
    Ok(derive(book, WITH_FACE, WITH_FACE_GIVES, &[face], &[ctx.0])?)
}

/// `d : H.p to G`, of `d : H to G` and a face p
pub fn past_face(book: &mut Book, sub: NodeId, face: u64) -> Result<NodeId, AllocError>
    requires { (H G : Context) × (d : Subst) × (p : Tree) × Says book.old sub (Sb H d G)
        × (book_means book.old face ≡ Some (ATree p)) × IsTrue (is_face H p) }
    ensures extends { Extends book.old book.new }
    ensures typed { IfOk result (λ node. (H G : Context) (d : Subst) (p : Tree) →
        Says book.old sub (Sb H d G) → book_means book.old «face» ≡ Some (ATree p)
        → IsTrue (is_face H p) → Says book.new node (Sb (WithFace H p) d G)) }
{
    faces_are_derived();
    faces_at_trees();
    laws_of_shifts(book);
    Ok(derive(book, PAST_FACE, PAST_FACE_GIVES, &[face], &[sub.0])?)
}
