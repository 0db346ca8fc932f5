//! The call.

ghost use Rattle.std.specs.Prelude.{◌≡◌, ◌≤◌, ◌+◌, IfOk, IfErr, length, slice_index};
ghost use Rattle.theory.specs.declared.rule.RuleName.TheVariants.{Composition};
ghost use Rattle.book.specs.Shown.{Extends};
ghost use Rattle.kan_fill.specs.Statements.{kan_statements};
ghost use Rattle.kan_calls.specs.Calls.{Gives, IsRecipe, MayUse, most_of_each};
ghost use Rattle.kan_calls.specs.Unfoldings.{nodes_of, unfold_statement, use_of};
ghost use Rattle.kan_types.specs.Types.{IsOfTypes};
ghost use Rattle.kan_types.specs.declared.calls.TheConstants.{ROWS};

use crate::{
    COMP_PATH, COMP_PATH_GIVES, COMP_PI, COMP_PI_GIVES, COMP_SIG, COMP_SIG_GIVES, COMP_SUC,
    COMP_SUC_GIVES, COMP_ZERO, COMP_ZERO_GIVES, functions_are_derived, pairs_are_derived,
    paths_are_derived, successors_are_derived, zero_is_derived,
};
use book::{Book, NodeId, RuleUse};
use kan_calls::{Kan, Recipe, Unfolded, unfold_by};
use std::alloc::AllocError;
use theory::CompRule;
use theory::RuleName::Composition;

/// The most rows and nodes that an unfolding adds to a book.
pub const ROWS: u64 = 6484;

/// The recipe of a rule.
fn recipe_of(rule: CompRule) -> Recipe
    requires { IsOfTypes (Composition rule) }
    ensures recipe { IsRecipe kan_statements (slice_index most_of_each)
        (unfold_statement (Composition rule)) result.rows.now result.gives.now ROWS }
    ensures two { length result.gives.now ≡ 2 }
{
    match rule {
        CompRule::CompPi => {
            functions_are_derived();
            Recipe {
                rows: COMP_PI,
                gives: COMP_PI_GIVES,
            }
        }
        CompRule::CompSig => {
            pairs_are_derived();
            Recipe {
                rows: COMP_SIG,
                gives: COMP_SIG_GIVES,
            }
        }
        CompRule::CompPath => {
            paths_are_derived();
            Recipe {
                rows: COMP_PATH,
                gives: COMP_PATH_GIVES,
            }
        }
        CompRule::CompZero => {
            zero_is_derived();
            Recipe {
                rows: COMP_ZERO,
                gives: COMP_ZERO_GIVES,
            }
        }
        _ => {
            successors_are_derived();
            Recipe {
                rows: COMP_SUC,
                gives: COMP_SUC_GIVES,
            }
        }
    }
}

/// Unfolds a composition at a type of functions, pairs, paths or numbers. Room for `ROWS` rows and
/// nodes is made first, and no more are added.
///
/// # Errors
/// Only where memory runs out: the book is as before.
pub fn unfold(book: &mut Book, ctx: NodeId, step: &RuleUse) -> Result<Unfolded, AllocError>
    requires of { IsOfTypes step.now.rule }
    requires right { MayUse (unfold_statement step.now.rule) book.old ctx (use_of step.now) }
    ensures spends { book.old.spare ≤ book.new.spare + ROWS }
    ensures same { IfErr result (λ e. Extends book.new book.old) }
    ensures extends { Extends book.old book.new }
    ensures gives { IfOk result (λ unfolded. Gives (unfold_statement step.now.rule)
        book.old book.new ctx (use_of step.now) (nodes_of unfolded)) }
{
    let Composition(rule) = step.rule else {
        unreachable!()
    };
    Ok(unfold_by(book, &Kan, recipe_of(rule), ROWS, ctx, step)?)
}
