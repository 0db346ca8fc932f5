//! Types, and types of the universe, formed of their parts.

ghost use Rattle.std.specs.Prelude.{◌≡◌, IfOk, Some};
ghost use Rattle.trees.specs.Things.{ATree};
ghost use Rattle.trees.specs.Trees.{Tree, Var};
ghost use Rattle.trees.specs.Judgements.{Context, WithName, WithVar, trees};
ghost use Rattle.trees.specs.Language.{Ctx, Tm, Ty};
ghost use Rattle.rules.specs.Table.{app, at, i0, i1, nat, papp, pathp, pi, sig, universe, weakened};
ghost use Rattle.rules.specs.Table.{motive_step as motive_step_of};
ghost use Rattle.book.specs.Shown.{Extends, book_means};
ghost use Rattle.typed_nodes.specs.Typed.{Says};

use crate::calls::{derive, derive_two};
use book::{Book, NodeId};
use std::alloc::AllocError;
use typing_rules::{
    FAMILY_OF_NUMBERS, FAMILY_OF_NUMBERS_GIVES, MOTIVE_STEP, MOTIVE_STEP_GIVES, NUMBERS_TYPE,
    NUMBERS_TYPE_GIVES, PATH_IN_UNIVERSE, PATH_IN_UNIVERSE_GIVES, PATH_SMALL, PATH_SMALL_GIVES,
    PATH_TYPE, PATH_TYPE_GIVES, PI_SMALL, PI_SMALL_GIVES, PI_TYPE, PI_TYPE_GIVES, SIG_SMALL,
    SIG_SMALL_GIVES, SIG_TYPE, SIG_TYPE_GIVES, SMALL_TYPE, SMALL_TYPE_GIVES, UNIVERSE_TYPE,
    UNIVERSE_TYPE_GIVES, types_are_derived, types_at_trees,
};

/// `H >> U`, of `ctx H`
pub fn universe_type(book: &mut Book, ctx: NodeId) -> Result<NodeId, AllocError>
    requires { (H : Context) × Says book.old ctx (Ctx H) }
    ensures extends { Extends book.old book.new }
    ensures typed { IfOk result (λ node. (H : Context) →
        Says book.old ctx (Ctx H) → Says book.new node (Ty H (universe trees))) }
{
    types_are_derived();
    types_at_trees();
    Ok(derive(book, UNIVERSE_TYPE, UNIVERSE_TYPE_GIVES, &[], &[ctx.0])?)
}

/// `H >> nat : U` and `H >> nat`, of `ctx H`
pub fn numbers_type(book: &mut Book, ctx: NodeId) -> Result<(NodeId, NodeId), AllocError>
    requires { (H : Context) × Says book.old ctx (Ctx H) }
    ensures extends { Extends book.old book.new }
    ensures typed { IfOk result (λ nodes. (H : Context) →
        Says book.old ctx (Ctx H) → Says book.new nodes.0 (Tm H (nat trees) (universe trees))
        × Says book.new nodes.1 (Ty H (nat trees))) }
{
    types_are_derived();
    types_at_trees();
    Ok(derive_two(book, NUMBERS_TYPE, NUMBERS_TYPE_GIVES, &[], &[ctx.0])?)
}

/// `H >> A`, of `H >> A : U`
pub fn small_type(book: &mut Book, term: NodeId) -> Result<NodeId, AllocError>
    requires { (H : Context) × (A : Tree) × Says book.old term (Tm H A (universe trees)) }
    ensures extends { Extends book.old book.new }
    ensures typed { IfOk result (λ node. (H : Context) (A : Tree) →
        Says book.old term (Tm H A (universe trees)) → Says book.new node (Ty H A)) }
{
    types_are_derived();
    types_at_trees();
    Ok(derive(book, SMALL_TYPE, SMALL_TYPE_GIVES, &[], &[term.0])?)
}

/// `H >> pi A B`, of `H >> A` and `H.A >> B`
pub fn pi_type(book: &mut Book, domain: NodeId, codomain: NodeId) -> Result<NodeId, AllocError>
    requires { (H : Context) × (A B : Tree) × Says book.old domain (Ty H A)
        × Says book.old codomain (Ty (WithVar H A) B) }
    ensures extends { Extends book.old book.new }
    ensures typed { IfOk result (λ node. (H : Context) (A B : Tree) →
        Says book.old domain (Ty H A) → Says book.old codomain (Ty (WithVar H A) B)
        → Says book.new node (Ty H (pi trees A B))) }
{
    types_are_derived();
    types_at_trees();
    Ok(derive(book, PI_TYPE, PI_TYPE_GIVES, &[], &[domain.0, codomain.0])?)
}

/// `H >> pi A B : U`, of `H >> A : U` and `H.A >> B : U`
pub fn pi_small(book: &mut Book, domain: NodeId, codomain: NodeId) -> Result<NodeId, AllocError>
    requires { (H : Context) × (A B : Tree) × Says book.old domain (Tm H A (universe trees))
        × Says book.old codomain (Tm (WithVar H A) B (universe trees)) }
    ensures extends { Extends book.old book.new }
    ensures typed { IfOk result (λ node. (H : Context) (A B : Tree) →
        Says book.old domain (Tm H A (universe trees))
        → Says book.old codomain (Tm (WithVar H A) B (universe trees))
        → Says book.new node (Tm H (pi trees A B) (universe trees))) }
{
    types_are_derived();
    types_at_trees();
    Ok(derive(book, PI_SMALL, PI_SMALL_GIVES, &[], &[domain.0, codomain.0])?)
}

/// `H >> sig A B`, of `H >> A` and `H.A >> B`
pub fn sigma_type(book: &mut Book, domain: NodeId, codomain: NodeId) -> Result<NodeId, AllocError>
    requires { (H : Context) × (A B : Tree) × Says book.old domain (Ty H A)
        × Says book.old codomain (Ty (WithVar H A) B) }
    ensures extends { Extends book.old book.new }
    ensures typed { IfOk result (λ node. (H : Context) (A B : Tree) →
        Says book.old domain (Ty H A) → Says book.old codomain (Ty (WithVar H A) B)
        → Says book.new node (Ty H (sig trees A B))) }
{
    types_are_derived();
    types_at_trees();
    Ok(derive(book, SIG_TYPE, SIG_TYPE_GIVES, &[], &[domain.0, codomain.0])?)
}

/// `H >> sig A B : U`, of `H >> A : U` and `H.A >> B : U`
pub fn sigma_small(book: &mut Book, domain: NodeId, codomain: NodeId) -> Result<NodeId, AllocError>
    requires { (H : Context) × (A B : Tree) × Says book.old domain (Tm H A (universe trees))
        × Says book.old codomain (Tm (WithVar H A) B (universe trees)) }
    ensures extends { Extends book.old book.new }
    ensures typed { IfOk result (λ node. (H : Context) (A B : Tree) →
        Says book.old domain (Tm H A (universe trees))
        → Says book.old codomain (Tm (WithVar H A) B (universe trees))
        → Says book.new node (Tm H (sig trees A B) (universe trees))) }
{
    types_are_derived();
    types_at_trees();
    let premises = [domain.0, codomain.0];
    Ok(derive(book, SIG_SMALL, SIG_SMALL_GIVES, &[], &premises)?)
}

/// `H >> pathp A u v`, of `H.I >> A`, `H >> u : A{0}` and `H >> v : A{1}`
pub fn path_type(
    book: &mut Book,
    line: NodeId,
    left: NodeId,
    right: NodeId,
) -> Result<NodeId, AllocError>
    requires { (H : Context) × (A u v : Tree) × Says book.old line (Ty (WithName H) A)
        × Says book.old left (Tm H u (at trees A (i0 trees)))
        × Says book.old right (Tm H v (at trees A (i1 trees))) }
    ensures extends { Extends book.old book.new }
    ensures typed { IfOk result (λ node. (H : Context) (A u v : Tree) →
        Says book.old line (Ty (WithName H) A) → Says book.old left (Tm H u (at trees A (i0 trees)))
        → Says book.old right (Tm H v (at trees A (i1 trees)))
        → Says book.new node (Ty H (pathp trees A u v))) }
{
    types_are_derived();
    types_at_trees();
    let premises = [line.0, left.0, right.0];
    Ok(derive(book, PATH_TYPE, PATH_TYPE_GIVES, &[], &premises)?)
}

/// `H >> pathp A u v : U`, of `H.I >> A : U`, `H >> u : A{0}` and `H >> v : A{1}`
pub fn path_small(
    book: &mut Book,
    line: NodeId,
    left: NodeId,
    right: NodeId,
) -> Result<NodeId, AllocError>
    requires { (H : Context) × (A u v : Tree)
        × Says book.old line (Tm (WithName H) A (universe trees))
        × Says book.old left (Tm H u (at trees A (i0 trees)))
        × Says book.old right (Tm H v (at trees A (i1 trees))) }
    ensures extends { Extends book.old book.new }
    ensures typed { IfOk result (λ node. (H : Context) (A u v : Tree) →
        Says book.old line (Tm (WithName H) A (universe trees))
        → Says book.old left (Tm H u (at trees A (i0 trees)))
        → Says book.old right (Tm H v (at trees A (i1 trees)))
        → Says book.new node (Tm H (pathp trees A u v) (universe trees))) }
{
    types_are_derived();
    types_at_trees();
    let premises = [line.0, left.0, right.0];
    Ok(derive(book, PATH_SMALL, PATH_SMALL_GIVES, &[], &premises)?)
}

/// The type of the step of a recursion with the motive P, of `ctx H` and `H.nat >> P`
pub fn motive_step(book: &mut Book, ctx: NodeId, motive: NodeId) -> Result<NodeId, AllocError>
    requires { (H : Context) × (P : Tree) × Says book.old ctx (Ctx H)
        × Says book.old motive (Ty (WithVar H (nat trees)) P) }
    ensures extends { Extends book.old book.new }
    ensures typed { IfOk result (λ node. (H : Context) (P : Tree) →
        Says book.old ctx (Ctx H) → Says book.old motive (Ty (WithVar H (nat trees)) P)
        → Says book.new node (Ty H (motive_step_of trees P))) }
{
    types_are_derived();
    types_at_trees();
    let premises = [ctx.0, motive.0];
    Ok(derive(book, MOTIVE_STEP, MOTIVE_STEP_GIVES, &[], &premises)?)
}

/// `H.I >> papp c+ i : U`, of `ctx H` and `H >> c : pathp U u v`, with the rows of u and v
pub fn path_in_universe(
    book: &mut Book,
    ends: (u64, u64),
    ctx: NodeId,
    path: NodeId,
) -> Result<NodeId, AllocError>
    requires { (H : Context) × (u v c : Tree) × (book_means book.old ends.0 ≡ Some (ATree u))
        × (book_means book.old ends.1 ≡ Some (ATree v)) × Says book.old ctx (Ctx H)
        × Says book.old path (Tm H c (pathp trees (universe trees) u v)) }
    ensures extends { Extends book.old book.new }
    ensures typed { IfOk result (λ node. (H : Context) (u v c : Tree) →
        (book_means book.old ends.0 ≡ Some (ATree u))
        → (book_means book.old ends.1 ≡ Some (ATree v)) → Says book.old ctx (Ctx H)
        → Says book.old path (Tm H c (pathp trees (universe trees) u v))
        → Says book.new node (Tm (WithName H)
        (papp trees (weakened trees c) (Var 0)) (universe trees))) }
{
    types_are_derived();
    types_at_trees();
    Ok(derive(
        book,
        PATH_IN_UNIVERSE,
        PATH_IN_UNIVERSE_GIVES,
        &[ends.0, ends.1],
        &[ctx.0, path.0],
    )?)
}

/// `H.nat >> app c+ n : U`, of `ctx H` and `H >> c : pi nat U`
pub fn family_of_numbers(
    book: &mut Book,
    ctx: NodeId,
    function: NodeId,
) -> Result<NodeId, AllocError>
    requires { (H : Context) × (c : Tree) × Says book.old ctx (Ctx H)
        × Says book.old function (Tm H c (pi trees (nat trees) (universe trees))) }
    ensures extends { Extends book.old book.new }
    ensures typed { IfOk result (λ node. (H : Context) (c : Tree) →
        Says book.old ctx (Ctx H)
        → Says book.old function (Tm H c (pi trees (nat trees) (universe trees)))
        → Says book.new node (Tm (WithVar H (nat trees))
        (app trees (weakened trees c) (Var 0)) (universe trees))) }
{
    types_are_derived();
    types_at_trees();
    Ok(derive(
        book,
        FAMILY_OF_NUMBERS,
        FAMILY_OF_NUMBERS_GIVES,
        &[],
        &[ctx.0, function.0],
    )?)
}
