//! The call.

ghost use Rattle.std.specs.Prelude.{◌≡◌, ◌≤◌, ◌+◌, IfOk, IfErr};
ghost use Rattle.theory.specs.declared.rule.RuleName.TheVariants.{Composition};
ghost use Rattle.theory.specs.declared.rule.CompRule.TheVariants.{CompU};
ghost use Rattle.book.specs.Shown.{Extends};
ghost use Rattle.kan_calls.specs.Calls.{Gives, MayUse};
ghost use Rattle.kan_calls.specs.Unfoldings.{nodes_of, unfold_statement, use_of};

use crate::parts::UniverseParts;
use crate::{COMP_U, COMP_U_GIVES, comp_u_is_derived};
use book::{Book, NodeId, RuleUse};
use kan_calls::{Recipe, Unfolded, unfold_by};
use std::alloc::AllocError;

/// The most rows and nodes that an unfolding adds to a book.
pub const ROWS: u64 = 36963;

/// Unfolds a composition at the universe. Room for `ROWS` rows and nodes is made first, and no more
/// are added.
///
/// # Errors
/// Only where memory runs out: the book is as before.
pub fn unfold(book: &mut Book, ctx: NodeId, step: &RuleUse) -> Result<Unfolded, AllocError>
    requires of { step.now.rule ≡ Composition CompU }
    requires right { MayUse (unfold_statement step.now.rule) book.old ctx (use_of step.now) }
    ensures spends { book.old.spare ≤ book.new.spare + ROWS }
    ensures same { IfErr result (λ e. Extends book.new book.old) }
    ensures extends { Extends book.old book.new }
    ensures gives { IfOk result (λ unfolded. Gives (unfold_statement step.now.rule)
        book.old book.new ctx (use_of step.now) (nodes_of unfolded)) }
{
    comp_u_is_derived();
    let recipe = Recipe {
        rows: COMP_U,
        gives: COMP_U_GIVES,
    };
    Ok(unfold_by(book, &UniverseParts, recipe, ROWS, ctx, step)?)
}
