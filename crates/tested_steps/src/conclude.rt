//! Uses of rules, tested.

ghost use Rattle.std.specs.Prelude.{◌≡◌, Some, IfOk, IfErr};
ghost use Rattle.trees.specs.Judgements.{Judgement};
ghost use Rattle.book.specs.Right.{IsUse, IsMadeBy};
ghost use Rattle.book.specs.Shown.{book_means, book_nodes, book_concludes, Extends};
ghost use Rattle.tested_steps.specs.Refusals.{Refuses};

use crate::fault::Fault;
use book::{Book, NodeId, RuleUse};

/// Concludes a rule, if what the parts mean and the premises conclude is an instance of it. Else
/// there is no new node.
///
/// # Errors
/// `Unfit` with the first thing that is not as the rule has it, and `Memory`.
pub fn try_conclude(book: &mut Book, step: &RuleUse) -> Result<NodeId, Fault>
    ensures extends { Extends book.old book.new }
    ensures concludes { IfOk result (λ node. (J : Judgement) ×
        IsUse (book_means book.old) (book_concludes book.old)
        step.now.rule step.now.parts step.now.premises J ×
        (book_concludes book.new node.0 ≡ Some J)) }
    ensures made { IfOk result (λ node.
        IsMadeBy step.now.rule step.now.parts step.now.premises (book_nodes book.new node.0)) }
    ensures refuses { IfErr result (Refuses book.old book.new step.now) }
{
    match book.try_conclude(step)? {
        Ok(node) => Ok(node),
        Err(found) => Err(Fault::Unfit(step.rule, found)),
    }
}
