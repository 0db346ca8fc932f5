//! The right sides of the rules of composition at types of functions, pairs and paths, at glued
//! types and at the universe. These are typed as they are unfolded, so that no entry has them.

ghost use Rattle.std.specs.Prelude.{◌≡◌, IfOk, true};
ghost use Rattle.theory.specs.declared.rule.RuleName.TheVariants.{Composition};
ghost use Rattle.trees.specs.Trees.{Tree};
ghost use Rattle.trees.specs.Judgements.{Context, Judgement};
ghost use Rattle.trees.specs.Language.{Ctx, Tm};
ghost use Rattle.book.specs.Right.{IsMadeBy, IsUse};
ghost use Rattle.book.specs.Shown.{Extends, book_concludes, book_means, book_nodes};
ghost use Rattle.typed_nodes.specs.Typed.{Says};
ghost use Rattle.presuppositions.specs.declared.source.Label.TheVariants as label;
ghost use Rattle.presuppositions.specs.Entries.{is_unfolded};
ghost use Rattle.kan_calls.specs.Calls.{Gives, MayUse};
ghost use Rattle.kan_calls.specs.Unfoldings.{nodes_of, unfold_statement, use_of};
ghost use Rattle.presupposed.specs.Asked.{Unfolds};

use book::{Book, Few, NodeId, RuleUse};
use kan_calls::{Unfolded, laws_of_unfoldings};
use std::alloc::AllocError;
use theory::{CompRule, RuleName};

/// The use of a rule that made a node.
fn made_by(book: &Book, node: NodeId) -> RuleUse
    requires { (J : Judgement) × Says book.now node J }
    ensures made { IsMadeBy result.rule result.parts result.premises
        (book_nodes book.now node.0) }
    ensures right { (J : Judgement) → Says book.now node J →
        IsUse (book_means book.now) (book_concludes book.now)
        result.rule result.parts result.premises J }
{
    let step = book.step(node);
    RuleUse {
        rule: step.rule,
        parts: Few::of(step.parts),
        premises: Few::of(step.premises),
    }
}

/// The rule of composition.
fn comp_rule(rule: RuleName) -> CompRule
    requires { is_unfolded rule label.Right ≡ true }
    ensures { rule ≡ Composition result }
{
    match rule {
        RuleName::Composition(rule) => rule,
        _ => unreachable!(),
    }
}

/// Unfolds a composition by one of those rules.
fn unfold(book: &mut Book, ctx: NodeId, step: &RuleUse) -> Result<Unfolded, AllocError>
    requires of { is_unfolded step.now.rule label.Right ≡ true }
    requires right { MayUse (unfold_statement step.now.rule) book.old ctx (use_of step.now) }
    ensures extends { Extends book.old book.new }
    ensures gives { IfOk result (λ unfolded. Gives (unfold_statement step.now.rule)
        book.old book.new ctx (use_of step.now) (nodes_of unfolded)) }
{
    match comp_rule(step.rule) {
        CompRule::CompGlue => Ok(kan_glue::unfold(book, ctx, step)?),
        CompRule::CompU => Ok(kan_universe::unfold(book, ctx, step)?),
        _ => Ok(kan_types::unfold(book, ctx, step)?),
    }
}

/// The right side of an equation by one of those rules, typed, where its context is this.
pub fn right_side(book: &mut Book, ctx: NodeId, node: NodeId) -> Result<NodeId, AllocError>
    requires { (G : Context) × (a c A : Tree) × Unfolds book.old node G a c A
        × Says book.old ctx (Ctx G) }
    ensures extends { Extends book.old book.new }
    ensures typed { IfOk result (λ right. (G : Context) (a c A : Tree) →
        Unfolds book.old node G a c A → Says book.old ctx (Ctx G)
        → Says book.new right (Tm G c A)) }
{
    let step = made_by(book, node);
    laws_of_unfoldings();
    let unfolded = unfold(book, ctx, &step)?;
    Ok(unfolded.typing)
}
