//! The unfolding of a composition, if its rule fits.

ghost use Rattle.std.specs.Prelude.{IfOk};
ghost use Rattle.trees.specs.Judgements.{Judgement};
ghost use Rattle.kan_calls.specs.Unfoldings.{IsUseIn};

use book::{Book, NodeId, RuleUse};
use kan_calls::{Unfolded, laws_of_unfoldings};
use tested_steps::{Fault, claim_of, try_conclude};
use theory::{Claim, CompRule, RuleName};

/// Concludes a rule, if it fits. The node of its context is handed in.
fn concluded(book: &mut Book, ctx: NodeId, step: &RuleUse) -> Result<(), Fault>
    ensures { IfOk result (λ _. (J : Judgement) × IsUseIn book.new ctx step.now J) }
{
    let equal = try_conclude(book, step)?;
    let Claim::TmEq(there, _, _, _) = claim_of(book, equal)? else {
        return Err(Fault::Misfit);
    };
    let Claim::Ctx(here) = claim_of(book, ctx)? else {
        return Err(Fault::Misfit);
    };
    if here != there {
        return Err(Fault::Misfit);
    }
    Ok(())
}

/// The unfolding of a composition by its rule. The rule is tested at its parts and premises, and
/// the recipe of the unfolding, which is proved for all of them, is run untested.
///
/// # Errors
/// `Memory`; `Unfit` where the rule does not fit, and `Misfit` where it unfolds nothing.
pub fn unfolded(book: &mut Book, ctx: NodeId, step: &RuleUse) -> Result<Unfolded, Fault> {
    let RuleName::Composition(rule) = step.rule else {
        return Err(Fault::Misfit);
    };
    concluded(book, ctx, step)?;
    laws_of_unfoldings();
    match rule {
        CompRule::CompPi => Ok(kan_types::unfold(book, ctx, step)?),
        CompRule::CompSig => Ok(kan_types::unfold(book, ctx, step)?),
        CompRule::CompPath => Ok(kan_types::unfold(book, ctx, step)?),
        CompRule::CompGlue => Ok(kan_glue::unfold(book, ctx, step)?),
        CompRule::CompU => Ok(kan_universe::unfold(book, ctx, step)?),
        _ => Err(Fault::Misfit),
    }
}
