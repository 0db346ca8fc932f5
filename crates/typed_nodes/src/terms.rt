//! Terms, formed of typed parts.

ghost use Rattle.std.specs.Prelude.{◌≡◌, IfOk, IsTrue, Some};
ghost use Rattle.trees.specs.Things.{ATree};
ghost use Rattle.trees.specs.Trees.{Tree};
ghost use Rattle.trees.specs.Judgements.{Context, WithVar, WithName, trees};
ghost use Rattle.trees.specs.Language.{Ctx, Ty, Tm};
ghost use Rattle.conditions.specs.Sides.{is_formula};
ghost use Rattle.rules.specs.Table.{app, at, comp, empty, f0, fst, i0, i1, lam, motive_step, nat};
ghost use Rattle.rules.specs.Table.{natrec, pair, papp, pathp, pi, plam, sig, snd, suc, zero};
ghost use Rattle.book.specs.Shown.{Extends, book_means};
ghost use Rattle.typed_nodes.specs.Typed.{IsFamily, IsLine, IsTyped, Says};

use crate::calls::{derive, derive_two};
use crate::types::{Family, Line, TypeAt, Typed};
use book::{Book, NodeId};
use book_shifts::laws_of_shifts;
use std::alloc::AllocError;
use typing_rules::{
    APPLIED, APPLIED_GIVES, FIRST, FIRST_GIVES, FUNCTION, FUNCTION_GIVES, PAIR_TERM,
    PAIR_TERM_GIVES, PATH_APPLIED, PATH_APPLIED_GIVES, PATH_TERM, PATH_TERM_GIVES, RECURSION,
    RECURSION_GIVES, SECOND, SECOND_GIVES, SUCCESSOR_TERM, SUCCESSOR_TERM_GIVES, TRANSPORTED,
    TRANSPORTED_GIVES, ZERO_TERM, ZERO_TERM_GIVES, terms_are_derived, terms_at_trees,
};

/// `H >> zero : nat`, of `ctx H`
pub fn zero(book: &mut Book, ctx: NodeId) -> Result<NodeId, AllocError>
    requires { (H : Context) × Says book.old ctx (Ctx H) }
    ensures extends { Extends book.old book.new }
    ensures typed { IfOk result (λ node. (H : Context) → Says book.old ctx (Ctx H)
        → Says book.new node (Tm H (zero trees) (nat trees))) }
{
    terms_are_derived();
    terms_at_trees();
    Ok(derive(book, ZERO_TERM, ZERO_TERM_GIVES, &[], &[ctx.0])?)
}

/// `H >> suc n : nat`, of `H >> n : nat`
pub fn successor(book: &mut Book, number: NodeId) -> Result<NodeId, AllocError>
    requires { (H : Context) × (n : Tree) × Says book.old number (Tm H n (nat trees)) }
    ensures extends { Extends book.old book.new }
    ensures typed { IfOk result (λ node. (H : Context) (n : Tree) →
        Says book.old number (Tm H n (nat trees))
        → Says book.new node (Tm H (suc trees n) (nat trees))) }
{
    terms_are_derived();
    terms_at_trees();
    Ok(derive(book, SUCCESSOR_TERM, SUCCESSOR_TERM_GIVES, &[], &[number.0])?)
}

/// `H >> lam A b : pi A B`, of `H >> A` and `H.A >> b : B`
pub fn function(book: &mut Book, domain: NodeId, body: NodeId) -> Result<NodeId, AllocError>
    requires { (H : Context) × (A b B : Tree) × Says book.old domain (Ty H A)
        × Says book.old body (Tm (WithVar H A) b B) }
    ensures extends { Extends book.old book.new }
    ensures typed { IfOk result (λ node. (H : Context) (A b B : Tree) →
        Says book.old domain (Ty H A) → Says book.old body (Tm (WithVar H A) b B)
        → Says book.new node (Tm H (lam trees A b) (pi trees A B))) }
{
    terms_are_derived();
    terms_at_trees();
    Ok(derive(book, FUNCTION, FUNCTION_GIVES, &[], &[domain.0, body.0])?)
}

/// `H >> app f a : B{a}`, of `H >> f : pi A B` and `H >> a : A`
pub fn applied(
    book: &mut Book,
    family: Family,
    function: NodeId,
    argument: NodeId,
) -> Result<Typed, AllocError>
    requires { (H : Context) × (A B f a : Tree) × IsFamily book.old family H A B
        × Says book.old function (Tm H f (pi trees A B)) × Says book.old argument (Tm H a A) }
    ensures extends { Extends book.old book.new }
    ensures typed { IfOk result (λ typed. (H : Context) (A B f a : Tree) →
        IsFamily book.old family H A B → Says book.old «function» (Tm H f (pi trees A B))
        → Says book.old argument (Tm H a A)
        → IsTyped book.new typed H (app trees f a) (at trees B a)) }
{
    terms_are_derived();
    terms_at_trees();
    laws_of_shifts(book);
    let premises = [
        family.sub.0,
        family.domain.0,
        family.codomain.0,
        function.0,
        argument.0,
    ];
    let (term, sub) = derive_two(book, APPLIED, APPLIED_GIVES, &[], &premises)?;
    Ok(Typed {
        term,
        ty: TypeAt {
            ty: family.codomain,
            sub,
        },
    })
}

/// `H >> fst c : A`, of `H >> c : sig A B`
pub fn first(book: &mut Book, family: Family, pair: NodeId) -> Result<Typed, AllocError>
    requires { (H : Context) × (A B c : Tree) × IsFamily book.old family H A B
        × Says book.old pair (Tm H c (sig trees A B)) }
    ensures extends { Extends book.old book.new }
    ensures typed { IfOk result (λ typed. (H : Context) (A B c : Tree) →
        IsFamily book.old family H A B → Says book.old «pair» (Tm H c (sig trees A B))
        → IsTyped book.new typed H (fst trees c) A) }
{
    terms_are_derived();
    terms_at_trees();
    laws_of_shifts(book);
    let premises = [family.sub.0, family.domain.0, family.codomain.0, pair.0];
    let term = derive(book, FIRST, FIRST_GIVES, &[], &premises)?;
    Ok(Typed {
        term,
        ty: TypeAt {
            ty: family.domain,
            sub: family.sub,
        },
    })
}

/// `H >> snd c : B{fst c}`, of `H >> c : sig A B`
pub fn second(book: &mut Book, family: Family, pair: NodeId) -> Result<Typed, AllocError>
    requires { (H : Context) × (A B c : Tree) × IsFamily book.old family H A B
        × Says book.old pair (Tm H c (sig trees A B)) }
    ensures extends { Extends book.old book.new }
    ensures typed { IfOk result (λ typed. (H : Context) (A B c : Tree) →
        IsFamily book.old family H A B → Says book.old «pair» (Tm H c (sig trees A B))
        → IsTyped book.new typed H (snd trees c) (at trees B (fst trees c))) }
{
    terms_are_derived();
    terms_at_trees();
    laws_of_shifts(book);
    let premises = [family.sub.0, family.domain.0, family.codomain.0, pair.0];
    let (term, sub) = derive_two(book, SECOND, SECOND_GIVES, &[], &premises)?;
    Ok(Typed {
        term,
        ty: TypeAt {
            ty: family.codomain,
            sub,
        },
    })
}

/// `H >> pair a b : sig A B`, of `H >> a : A` and `H >> b : B{a}`
pub fn paired(
    book: &mut Book,
    family: Family,
    first: NodeId,
    second: NodeId,
) -> Result<NodeId, AllocError>
    requires { (H : Context) × (A B a b : Tree) × IsFamily book.old family H A B
        × Says book.old first (Tm H a A) × Says book.old second (Tm H b (at trees B a)) }
    ensures extends { Extends book.old book.new }
    ensures typed { IfOk result (λ node. (H : Context) (A B a b : Tree) →
        IsFamily book.old family H A B → Says book.old «first» (Tm H a A)
        → Says book.old «second» (Tm H b (at trees B a))
        → Says book.new node (Tm H (pair trees a b) (sig trees A B))) }
{
    terms_are_derived();
    terms_at_trees();
    laws_of_shifts(book);
    let premises = [
        family.sub.0,
        family.domain.0,
        family.codomain.0,
        first.0,
        second.0,
    ];
    Ok(derive(book, PAIR_TERM, PAIR_TERM_GIVES, &[], &premises)?)
}

/// `H >> plam b : pathp A b{0} b{1}`, of `ctx H` and `H.I >> b : A`
pub fn path(book: &mut Book, ctx: NodeId, body: NodeId) -> Result<NodeId, AllocError>
    requires { (H : Context) × (A b : Tree) × Says book.old ctx (Ctx H)
        × Says book.old body (Tm (WithName H) b A) }
    ensures extends { Extends book.old book.new }
    ensures typed { IfOk result (λ node. (H : Context) (A b : Tree) → Says book.old ctx (Ctx H)
        → Says book.old body (Tm (WithName H) b A) → Says book.new node (Tm H (plam trees b)
        (pathp trees A (at trees b (i0 trees)) (at trees b (i1 trees))))) }
{
    terms_are_derived();
    terms_at_trees();
    Ok(derive(book, PATH_TERM, PATH_TERM_GIVES, &[], &[ctx.0, body.0])?)
}

/// `H >> papp c r : A{r}`, of `H >> c : pathp A u v` and a formula r
pub fn path_at(book: &mut Book, line: Line, path: NodeId, formula: u64) -> Result<Typed, AllocError>
    requires { (H : Context) × (A u v c r : Tree) × IsLine book.old line H A u v
        × Says book.old path (Tm H c (pathp trees A u v))
        × (book_means book.old formula ≡ Some (ATree r)) × IsTrue (is_formula H r) }
    ensures extends { Extends book.old book.new }
    ensures typed { IfOk result (λ typed. (H : Context) (A u v c r : Tree) →
        IsLine book.old line H A u v → Says book.old «path» (Tm H c (pathp trees A u v))
        → book_means book.old «formula» ≡ Some (ATree r) → IsTrue (is_formula H r)
        → IsTyped book.new typed H (papp trees c r) (at trees A r)) }
{
    terms_are_derived();
    terms_at_trees();
    laws_of_shifts(book);
    let premises = [line.sub.0, line.ty.0, line.left.0, line.right.0, path.0];
    let (term, sub) = derive_two(
        book,
        PATH_APPLIED,
        PATH_APPLIED_GIVES,
        &[formula],
        &premises,
    )?;
    Ok(Typed {
        term,
        ty: TypeAt { ty: line.ty, sub },
    })
}

/// `H >> comp A f0 empty a : A{1}`, of `ctx H`, `H.I >> A` and `H >> a : A{0}`
pub fn transported(
    book: &mut Book,
    ctx: NodeId,
    line: NodeId,
    base: NodeId,
) -> Result<Typed, AllocError>
    requires { (H : Context) × (A a : Tree) × Says book.old ctx (Ctx H)
        × Says book.old line (Ty (WithName H) A)
        × Says book.old base (Tm H a (at trees A (i0 trees))) }
    ensures extends { Extends book.old book.new }
    ensures typed { IfOk result (λ typed. (H : Context) (A a : Tree) → Says book.old ctx (Ctx H)
        → Says book.old «line» (Ty (WithName H) A)
        → Says book.old «base» (Tm H a (at trees A (i0 trees)))
        → IsTyped book.new typed H (comp trees A (f0 trees) (empty trees) a)
        (at trees A (i1 trees))) }
{
    terms_are_derived();
    terms_at_trees();
    let premises = [ctx.0, line.0, base.0];
    let (term, sub) = derive_two(book, TRANSPORTED, TRANSPORTED_GIVES, &[], &premises)?;
    Ok(Typed {
        term,
        ty: TypeAt { ty: line, sub },
    })
}

/// `H >> natrec P a b n : P{n}`, of `ctx H`, `H.nat >> P`, `H >> a : P{zero}`,
/// `H >> b : motive_step P` and `H >> n : nat`
pub fn recursion(
    book: &mut Book,
    ctx: NodeId,
    motive: NodeId,
    base: NodeId,
    step: NodeId,
    number: NodeId,
) -> Result<Typed, AllocError>
    requires { (H : Context) × (P a b n : Tree) × Says book.old ctx (Ctx H)
        × Says book.old motive (Ty (WithVar H (nat trees)) P)
        × Says book.old base (Tm H a (at trees P (zero trees)))
        × Says book.old step (Tm H b (motive_step trees P))
        × Says book.old number (Tm H n (nat trees)) }
    ensures extends { Extends book.old book.new }
    ensures typed { IfOk result (λ typed. (H : Context) (P a b n : Tree) →
        Says book.old ctx (Ctx H) → Says book.old motive (Ty (WithVar H (nat trees)) P)
        → Says book.old «base» (Tm H a (at trees P (zero trees)))
        → Says book.old «step» (Tm H b (motive_step trees P))
        → Says book.old «number» (Tm H n (nat trees))
        → IsTyped book.new typed H (natrec trees P a b n) (at trees P n)) }
{
    terms_are_derived();
    terms_at_trees();
    let premises = [ctx.0, motive.0, base.0, step.0, number.0];
    let (term, sub) = derive_two(book, RECURSION, RECURSION_GIVES, &[], &premises)?;
    Ok(Typed {
        term,
        ty: TypeAt { ty: motive, sub },
    })
}
