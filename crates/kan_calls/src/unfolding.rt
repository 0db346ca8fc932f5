//! The unfolding of a composition, by the table of its rule.

ghost use Rattle.std.specs.Prelude.{◌≡◌, ◌≤◌, ◌+◌, ◌++◌, ◌∷◌, [], length, Some, IfOk, IfErr};
ghost use Rattle.trees.specs.Judgements.{Judgement};
ghost use Rattle.trees.specs.Things.{meanings};
ghost use Rattle.theory.specs.RuleNames.{kinds_of};
ghost use Rattle.book.specs.Contents.{Contents};
ghost use Rattle.book.specs.Shown.{book_concludes, Extends};
ghost use Rattle.book.specs.declared.few.RuleUse.{RuleUse};
ghost use Rattle.book.specs.declared.kernel.NodeId.{NodeId};
ghost use Rattle.kan_calls.specs.Calls.{Gives, IsRecipe, MayUse};
ghost use Rattle.kan_calls.specs.Unfoldings.{HasNoSubst, IsUseIn, right_side_of};
ghost use Rattle.kan_calls.specs.Unfoldings.{nodes_of, unfold_statement, use_of};
ghost use Rattle.kan_calls.specs.declared.unfolding.Unfolded.{Unfolded};

use crate::calls::followed;
use book::{Book, Few, NodeId, RuleUse};
use recipe_runner::{Earlier, run};
use recipes::Row;
use std::alloc::AllocError;

/// A recipe: its rows, and those of them that conclude what it gives.
#[derive(Clone, Copy)]
pub struct Recipe {
    pub rows: &'static [Row],
    pub gives: &'static [u16],
}

/// The unfolding of a composition: the conclusion of its rule, and the typing of its right side.
#[derive(Drop)]
pub struct Unfolded {
    pub typing: NodeId,
    pub equal: NodeId,
}

/// Unfolds a composition by the recipe of its rule. Room for `most` rows and nodes is made first,
/// and no more are added.
///
/// # Errors
/// Only where memory runs out: the book is as before.
pub fn unfold_by<E: Earlier>(
    book: &mut Book,
    earlier: &E,
    recipe: Recipe,
    most: u64,
    ctx: NodeId,
    step: &RuleUse,
) -> Result<Unfolded, AllocError>
    requires recipe { IsRecipe (E.states earlier.now) (E.most earlier.now)
        (unfold_statement step.now.rule) recipe.rows.now recipe.gives.now most }
    requires two { length recipe.gives.now ≡ 2 }
    requires right { MayUse (unfold_statement step.now.rule) book.old ctx (use_of step.now) }
    ensures spends { book.old.spare ≤ book.new.spare + most }
    ensures same { IfErr result (λ e. Extends book.new book.old) }
    ensures extends { Extends book.old book.new }
    ensures gives { IfOk result (λ unfolded. Gives (unfold_statement step.now.rule)
        book.old book.new ctx (use_of step.now) (nodes_of unfolded)) }
{
    let premises = followed(Few::of(&[ctx.0]), step.premises.as_slice());
    book.reserve(most)?;
    let nodes = run(
        book,
        earlier,
        recipe.rows,
        recipe.gives,
        step.parts.as_slice(),
        premises.as_slice(),
    )?;
    let numbers = nodes.as_slice();
    Ok(Unfolded {
        typing: NodeId(numbers[0]),
        equal: NodeId(numbers[1]),
    })
}

/// Where a step is a use of its rule beside a node of its context, it may be unfolded, and the
/// unfolding is the typing of the right side of what the rule concludes, and that conclusion.
pub fn laws_of_unfoldings()
    ensures may_use { (b : Contents) (ctx : NodeId) (step : RuleUse) (J : Judgement) →
        HasNoSubst (kinds_of step.rule) → IsUseIn b ctx step J →
        MayUse (unfold_statement step.rule) b ctx (use_of step) }
    ensures gives { (b new : Contents) (ctx : NodeId) (step : RuleUse) (unfolded : Unfolded)
        (J : Judgement) → HasNoSubst (kinds_of step.rule) → IsUseIn b ctx step J →
        Gives (unfold_statement step.rule) b new ctx (use_of step) (nodes_of unfolded) →
        meanings (book_concludes new) (unfolded.typing.0 ∷ unfolded.equal.0 ∷ [])
        ≡ Some (right_side_of J ++ J ∷ []) }
{}
