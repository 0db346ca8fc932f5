//! Contexts and substitutions.

ghost use Rattle.std.specs.Prelude.{IfOk};
ghost use Rattle.trees.specs.Trees.{Subst, Tree, apply, push, then, up};
ghost use Rattle.trees.specs.Judgements.{Context, Nil, WithName, WithVar, trees};
ghost use Rattle.trees.specs.Language.{Ctx, Sb, Tm, Ty};
ghost use Rattle.substitution.specs.Forms.{lift};
ghost use Rattle.rules.specs.Table.{i0, i1, id, nat, zero};
ghost use Rattle.book.specs.Shown.{Extends};
ghost use Rattle.typed_nodes.specs.Typed.{Says};

use crate::calls::{derive, derive_two};
use book::{Book, NodeId};
use book_shifts::laws_of_shifts;
use std::alloc::AllocError;
use typing_rules::{
    COMPOSED, COMPOSED_GIVES, LINE_ENDS, LINE_ENDS_GIVES, MOTIVE_START, MOTIVE_START_GIVES,
    NO_ENTRIES, NO_ENTRIES_GIVES, NOTHING_DONE, NOTHING_DONE_GIVES, PAST_NAME, PAST_NAME_GIVES,
    PAST_VARIABLE, PAST_VARIABLE_GIVES, PUSHED, PUSHED_GIVES, UNDER_NAME, UNDER_NAME_GIVES,
    UNDER_VARIABLE, UNDER_VARIABLE_GIVES, WITH_ENTRY, WITH_ENTRY_GIVES, WITH_NAME, WITH_NAME_GIVES,
    places_are_derived, places_at_trees,
};

/// `ctx []`
pub fn empty(book: &mut Book) -> Result<NodeId, AllocError>
    ensures extends { Extends book.old book.new }
    ensures typed { IfOk result (λ node. Says book.new node (Ctx Nil)) }
{
    places_are_derived();
    places_at_trees();
    Ok(derive(book, NO_ENTRIES, NO_ENTRIES_GIVES, &[], &[])?)
}

/// `ctx H.A`, of `H >> A`
pub fn with_variable(book: &mut Book, ty: NodeId) -> Result<NodeId, AllocError>
    requires { (H : Context) × (A : Tree) × Says book.old ty (Ty H A) }
    ensures extends { Extends book.old book.new }
    ensures typed { IfOk result (λ node. (H : Context) (A : Tree) →
        Says book.old ty (Ty H A) → Says book.new node (Ctx (WithVar H A))) }
{
    places_are_derived();
    places_at_trees();
    Ok(derive(book, WITH_ENTRY, WITH_ENTRY_GIVES, &[], &[ty.0])?)
}

/// `ctx H.I`, of `ctx H`
pub fn with_name(book: &mut Book, ctx: NodeId) -> Result<NodeId, AllocError>
    requires { (H : Context) × Says book.old ctx (Ctx H) }
    ensures extends { Extends book.old book.new }
    ensures typed { IfOk result (λ node. (H : Context) →
        Says book.old ctx (Ctx H) → Says book.new node (Ctx (WithName H))) }
{
    places_are_derived();
    places_at_trees();
    Ok(derive(book, WITH_NAME, WITH_NAME_GIVES, &[], &[ctx.0])?)
}

/// `id : H to H`, of `ctx H`
pub fn identity(book: &mut Book, ctx: NodeId) -> Result<NodeId, AllocError>
    requires { (H : Context) × Says book.old ctx (Ctx H) }
    ensures extends { Extends book.old book.new }
    ensures typed { IfOk result (λ node. (H : Context) →
        Says book.old ctx (Ctx H) → Says book.new node (Sb H (id trees) H)) }
{
    places_are_derived();
    places_at_trees();
    Ok(derive(book, NOTHING_DONE, NOTHING_DONE_GIVES, &[], &[ctx.0])?)
}

/// `d then up : H.A to G`, of `d : H to G` and `H >> A`
pub fn past_variable(book: &mut Book, sub: NodeId, ty: NodeId) -> Result<NodeId, AllocError>
    requires { (H G : Context) × (d : Subst) × (A : Tree) × Says book.old sub (Sb H d G)
        × Says book.old ty (Ty H A) }
    ensures extends { Extends book.old book.new }
    ensures typed { IfOk result (λ node. (H G : Context) (d : Subst) (A : Tree) →
        Says book.old sub (Sb H d G) → Says book.old ty (Ty H A)
        → Says book.new node (Sb (WithVar H A) (then d up) G)) }
{
    places_are_derived();
    places_at_trees();
    laws_of_shifts(book);
    let premises = [sub.0, ty.0];
    Ok(derive(book, PAST_VARIABLE, PAST_VARIABLE_GIVES, &[], &premises)?)
}

/// `d then up : H.I to G`, of `d : H to G`
pub fn past_name(book: &mut Book, sub: NodeId) -> Result<NodeId, AllocError>
    requires { (H G : Context) × (d : Subst) × Says book.old sub (Sb H d G) }
    ensures extends { Extends book.old book.new }
    ensures typed { IfOk result (λ node. (H G : Context) (d : Subst) →
        Says book.old sub (Sb H d G) → Says book.new node (Sb (WithName H) (then d up) G)) }
{
    places_are_derived();
    places_at_trees();
    laws_of_shifts(book);
    Ok(derive(book, PAST_NAME, PAST_NAME_GIVES, &[], &[sub.0])?)
}

/// `lift d : H.A[d] to G.A`, of `d : H to G` and `G >> A`
pub fn under_variable(book: &mut Book, sub: NodeId, ty: NodeId) -> Result<NodeId, AllocError>
    requires { (H G : Context) × (d : Subst) × (A : Tree) × Says book.old sub (Sb H d G)
        × Says book.old ty (Ty G A) }
    ensures extends { Extends book.old book.new }
    ensures typed { IfOk result (λ node. (H G : Context) (d : Subst) (A : Tree) →
        Says book.old sub (Sb H d G) → Says book.old ty (Ty G A)
        → Says book.new node (Sb (WithVar H (apply A d)) (lift trees d) (WithVar G A))) }
{
    places_are_derived();
    places_at_trees();
    laws_of_shifts(book);
    let premises = [sub.0, ty.0];
    Ok(derive(book, UNDER_VARIABLE, UNDER_VARIABLE_GIVES, &[], &premises)?)
}

/// `lift d : H.I to G.I`, of `d : H to G`
pub fn under_name(book: &mut Book, sub: NodeId) -> Result<NodeId, AllocError>
    requires { (H G : Context) × (d : Subst) × Says book.old sub (Sb H d G) }
    ensures extends { Extends book.old book.new }
    ensures typed { IfOk result (λ node. (H G : Context) (d : Subst) →
        Says book.old sub (Sb H d G)
        → Says book.new node (Sb (WithName H) (lift trees d) (WithName G))) }
{
    places_are_derived();
    places_at_trees();
    laws_of_shifts(book);
    Ok(derive(book, UNDER_NAME, UNDER_NAME_GIVES, &[], &[sub.0])?)
}

/// `d then e : K to G`, of `e : K to H` and `d : H to G`
pub fn composed(book: &mut Book, inner: NodeId, outer: NodeId) -> Result<NodeId, AllocError>
    requires { (K H G : Context) × (e d : Subst) × Says book.old inner (Sb K e H)
        × Says book.old outer (Sb H d G) }
    ensures extends { Extends book.old book.new }
    ensures typed { IfOk result (λ node. (K H G : Context) (e d : Subst) →
        Says book.old inner (Sb K e H) → Says book.old outer (Sb H d G)
        → Says book.new node (Sb K (then d e) G)) }
{
    places_are_derived();
    places_at_trees();
    laws_of_shifts(book);
    Ok(derive(book, COMPOSED, COMPOSED_GIVES, &[], &[inner.0, outer.0])?)
}

/// `push d a : H to G.A`, of `d : H to G`, `G >> A` and `H >> a : A[d]`
pub fn pushed(book: &mut Book, sub: NodeId, ty: NodeId, term: NodeId) -> Result<NodeId, AllocError>
    requires { (H G : Context) × (d : Subst) × (A a : Tree) × Says book.old sub (Sb H d G)
        × Says book.old ty (Ty G A) × Says book.old term (Tm H a (apply A d)) }
    ensures extends { Extends book.old book.new }
    ensures typed { IfOk result (λ node. (H G : Context) (d : Subst) (A a : Tree) →
        Says book.old sub (Sb H d G) → Says book.old ty (Ty G A)
        → Says book.old term (Tm H a (apply A d))
        → Says book.new node (Sb H (push d a) (WithVar G A))) }
{
    places_are_derived();
    places_at_trees();
    laws_of_shifts(book);
    Ok(derive(book, PUSHED, PUSHED_GIVES, &[], &[sub.0, ty.0, term.0])?)
}

/// The substitutions of 0 and of 1 for the name: `H to H.I`, of `ctx H`
pub fn line_ends(book: &mut Book, ctx: NodeId) -> Result<(NodeId, NodeId), AllocError>
    requires { (H : Context) × Says book.old ctx (Ctx H) }
    ensures extends { Extends book.old book.new }
    ensures typed { IfOk result (λ nodes. (H : Context) →
        Says book.old ctx (Ctx H)
        → Says book.new nodes.0 (Sb H (push (id trees) (i0 trees)) (WithName H))
        × Says book.new nodes.1 (Sb H (push (id trees) (i1 trees)) (WithName H))) }
{
    places_are_derived();
    places_at_trees();
    let (start, end) = derive_two(book, LINE_ENDS, LINE_ENDS_GIVES, &[], &[ctx.0])?;
    Ok((start, end))
}

/// The substitution of zero for the number: `H to H.nat`, of `ctx H`
pub fn motive_start(book: &mut Book, ctx: NodeId) -> Result<NodeId, AllocError>
    requires { (H : Context) × Says book.old ctx (Ctx H) }
    ensures extends { Extends book.old book.new }
    ensures typed { IfOk result (λ node. (H : Context) →
        Says book.old ctx (Ctx H)
        → Says book.new node (Sb H (push (id trees) (zero trees)) (WithVar H (nat trees)))) }
{
    places_are_derived();
    places_at_trees();
    Ok(derive(book, MOTIVE_START, MOTIVE_START_GIVES, &[], &[ctx.0])?)
}
