//! The calls.

ghost use Rattle.std.specs.Prelude.{◌≡◌, ◌≤◌, ◌<◌, ◌+◌, ◌++◌, ◌∷◌, List, length};
ghost use Rattle.std.specs.Prelude.{Some, IfOk, IsOk};
ghost use Rattle.trees.specs.Judgements.{Judgement};
ghost use Rattle.trees.specs.Things.{meanings};
ghost use Rattle.book.specs.Shown.{book_concludes, Extends};
ghost use Rattle.recipe_runner.specs.Running.{MayRun, most_added_by, most_made_by};
ghost use Rattle.kan_fill.specs.Statements.{fill_statement, contr_statement, pres_statement};
ghost use Rattle.kan_fill.specs.Statements.{ext_statement};
ghost use Rattle.kan_calls.specs.Calls.{MayUse, Gives};

use crate::earlier::{Contraction, Filling};
use book::{Book, Few, NodeId};
use kan_fill::{
    CONTR, CONTR_GIVES, EXT, EXT_GIVES, FILL, FILL_GIVES, PRES, PRES_GIVES, contraction_is_derived,
    extension_is_derived, filling_is_derived, preservation_is_derived,
};
use recipe_runner::{Earlier, NoRecipes, run};
use recipes::Row;
use std::alloc::AllocError;

/// The most rows and nodes that a call adds to a book: preservation, with the filling in it.
pub const MOST_ADDED: u64 = 4805;

/// A use of a derived rule: its parts are rows, and its premises past that of the context are
/// nodes.
#[derive(Drop)]
pub struct Derive {
    pub parts: Few,
    pub premises: Few,
}

/// What a derived rule gives: a typing, and equations of the tree that it types.
#[derive(Drop)]
pub struct Derived {
    pub typing: NodeId,
    pub equations: Few,
}

/// These numbers, and then more.
pub fn followed(mut few: Few, more: &[u64]) -> Few
    requires { length few + length more.now ≤ 16 }
    ensures { result ≡ few ++ more.now }
{
    for number in more {
        few.push(*number);
    }
    few
}

/// Runs a recipe that gives a typing and then equations.
fn call<E: Earlier>(
    book: &mut Book,
    earlier: &E,
    rows: &[Row],
    outs: &[u16],
    ctx: NodeId,
    step: &Derive,
) -> Result<Derived, AllocError>
    requires rows { most_made_by rows.now ≤ 512 }
    requires outs { length outs.now ≤ 16 }
    requires some { 0 < length outs.now }
    requires few { length step.now.premises < 16 }
    requires right { (gives : List Judgement) × MayRun (E.states earlier.now) book.old
        rows.now outs.now step.now.parts (ctx.0 ∷ step.now.premises) gives }
    ensures covered { most_added_by (E.most earlier.now) rows.now ≤ book.old.spare →
        IsOk result }
    ensures spends { book.old.spare ≤
        book.new.spare + most_added_by (E.most earlier.now) rows.now }
    ensures extends { Extends book.old book.new }
    ensures gives { IfOk result (λ derived. (gives : List Judgement) →
        MayRun (E.states earlier.now) book.old
        rows.now outs.now step.now.parts (ctx.0 ∷ step.now.premises) gives →
        meanings (book_concludes book.new) (derived.typing.0 ∷ derived.equations) ≡ Some gives) }
{
    let premises = followed(Few::of(&[ctx.0]), step.premises.as_slice());
    let nodes = run(
        book,
        earlier,
        rows,
        outs,
        step.parts.as_slice(),
        premises.as_slice(),
    )?;
    let (first, rest) = nodes.as_slice().split_at(1);
    Ok(Derived {
        typing: NodeId(first[0]),
        equations: Few::of(rest),
    })
}

/// Filling, of parts G A p b a r and the premises of `comp`: `Fill(i.A, p, i.b, a, r)` has the type
/// `A{r}`, is a at r = 0, the composition at r = 1, and b{r} where p is.
///
/// # Errors
/// Only where memory runs out that the spare does not cover.
pub fn fill(book: &mut Book, ctx: NodeId, step: &Derive) -> Result<Derived, AllocError>
    requires { MayUse fill_statement book.old ctx step.now }
    ensures covered { MOST_ADDED ≤ book.old.spare → IsOk result }
    ensures spends { book.old.spare ≤ book.new.spare + MOST_ADDED }
    ensures extends { Extends book.old book.new }
    ensures gives { IfOk result (Gives fill_statement book.old book.new ctx step.now) }
{
    filling_is_derived();
    Ok(call(book, &NoRecipes, FILL, FILL_GIVES, ctx, step)?)
}

/// Contraction, of parts G A c p b and the premises `G >> A`, `G >> c : isContr A` and
/// `G.p >> b : A`: `Contr(A, c, p, b)` has the type A, and is b where p is.
///
/// # Errors
/// Only where memory runs out that the spare does not cover.
pub fn contr(book: &mut Book, ctx: NodeId, step: &Derive) -> Result<Derived, AllocError>
    requires { MayUse contr_statement book.old ctx step.now }
    ensures covered { MOST_ADDED ≤ book.old.spare → IsOk result }
    ensures spends { book.old.spare ≤ book.new.spare + MOST_ADDED }
    ensures extends { Extends book.old book.new }
    ensures gives { IfOk result (Gives contr_statement book.old book.new ctx step.now) }
{
    contraction_is_derived();
    Ok(call(book, &NoRecipes, CONTR, CONTR_GIVES, ctx, step)?)
}

/// Preservation, of parts G T A f p t t0 and the premises that type T, A and f under a name, and
/// those of `comp` on t and t0: a path from the composition of images to the image of the
/// composition, with its ends, and constant where p is.
///
/// # Errors
/// Only where memory runs out that the spare does not cover.
pub fn pres(book: &mut Book, ctx: NodeId, step: &Derive) -> Result<Derived, AllocError>
    requires { MayUse pres_statement book.old ctx step.now }
    ensures covered { MOST_ADDED ≤ book.old.spare → IsOk result }
    ensures spends { book.old.spare ≤ book.new.spare + MOST_ADDED }
    ensures extends { Extends book.old book.new }
    ensures gives { IfOk result (Gives pres_statement book.old book.new ctx step.now) }
{
    preservation_is_derived();
    Ok(call(book, &Filling, PRES, PRES_GIVES, ctx, step)?)
}

/// Extension, of parts G T A w p z a and the premises that type T, A, w, a, and z where p is:
/// `Ext(T, A, w, p, z, a)` is in the fiber of w at a, and is z where p is.
///
/// # Errors
/// Only where memory runs out that the spare does not cover.
pub fn ext(book: &mut Book, ctx: NodeId, step: &Derive) -> Result<Derived, AllocError>
    requires { MayUse ext_statement book.old ctx step.now }
    ensures covered { MOST_ADDED ≤ book.old.spare → IsOk result }
    ensures spends { book.old.spare ≤ book.new.spare + MOST_ADDED }
    ensures extends { Extends book.old book.new }
    ensures gives { IfOk result (Gives ext_statement book.old book.new ctx step.now) }
{
    extension_is_derived();
    Ok(call(book, &Contraction, EXT, EXT_GIVES, ctx, step)?)
}
