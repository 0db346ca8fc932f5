//! Derivations that are concluded rule by rule, nodes as they are read, each maker once, and a book
//! that goes back to a mark.

ghost use Rattle.std.specs.Prelude.{◌≡◌, IfOk, IsSome, Some};
ghost use Rattle.trees.specs.Trees.{Tree};
ghost use Rattle.trees.specs.Judgements.{Judgement, Context, Nil, WithVar, trees};
ghost use Rattle.trees.specs.Language.{Ctx, Ty, Tm};
ghost use Rattle.rules.specs.Table.{nat};
ghost use Rattle.book.specs.Shown.{book_concludes, Extends};
ghost use Rattle.book.specs.Tests.{Follows};

use book::{Book, Few, NodeId, RuleUse};
use rows::{Maker, Row, SubRow, TermId};
use std::alloc::AllocError;
use std::process::Abort;
use std::test::Fail;
use theory::{Claim, ContextRule, InstanceRule, NatRule, Op, PiRule, RuleName, UniverseRule};

/// Concludes a rule of one premise, whose parts are the first rows of what the premise says. The
/// node says that.
pub fn follow(
    rt: &impl Abort,
    book: &mut Book,
    rule: RuleName,
    count: usize,
    premise: NodeId,
    says: Claim,
) -> Result<NodeId, AllocError>
    requires { (K : Judgement) × Follows book.old rule count premise.0 K }
    ensures extends { Extends book.old book.new }
    ensures concludes { IfOk result (λ node. (K : Judgement) →
        Follows book.old rule count premise.0 K → book_concludes book.new node.0 ≡ Some K) }
{
    let rows = book.conclusion(premise).rows();
    let node = book.conclude(&RuleUse {
        rule,
        parts: Few::of(rows.as_slice().split_at(count).0),
        premises: Few::of(&[premise.0]),
    })?;
    assert_eq!(rt; book.conclusion(node), says);
    Ok(node)
}

/// `ctx []`
pub fn empty_context(book: &mut Book) -> Result<NodeId, AllocError>
    ensures extends { Extends book.old book.new }
    ensures concludes { IfOk result (λ node. book_concludes book.new node.0 ≡ Some (Ctx Nil)) }
{
    Ok(book.conclude(&RuleUse {
        rule: RuleName::Contexts(ContextRule::CtxNil),
        parts: Few::new(),
        premises: Few::new(),
    })?)
}

/// `ctx []` and `[] >> nat`
fn numbers(rt: &impl Abort, book: &mut Book) -> Result<(NodeId, NodeId), AllocError>
    ensures { IfOk result (λ nodes.
        (book_concludes book.new nodes.0.0 ≡ Some (Ctx Nil)) ×
        (book_concludes book.new nodes.1.0 ≡ Some (Ty Nil (nat trees)))) }
{
    let ctx = empty_context(book)?;
    let rule = RuleName::Naturals(NatRule::NatU);
    let code = follow(rt, book, rule, 1, ctx, Claim::Tm(0, 1, 2))?;
    let rule = RuleName::Universe(UniverseRule::TyU);
    let ty = follow(rt, book, rule, 2, code, Claim::Ty(0, 1))?;
    Ok((ctx, ty))
}

/// `G >> \(x : A) -> b : (x : A) -> B`, where `G >> A` and `G.A >> b : B`.
fn function(
    rt: &impl Abort,
    book: &mut Book,
    domain: NodeId,
    body: NodeId,
) -> Result<NodeId, AllocError>
    requires { (G : Context) × (A : Tree) × (b : Tree) × (B : Tree) ×
        (book_concludes book.old domain.0 ≡ Some (Ty G A)) ×
        (book_concludes book.old body.0 ≡ Some (Tm (WithVar G A) b B)) }
    ensures extends { Extends book.old book.new }
    ensures there { IfOk result (λ node. IsSome (book_concludes book.new node.0)) }
{
    let (Claim::Ty(ctx, ty), Claim::Tm(_, term, to)) = (
        book.conclusion(domain),
        book.conclusion(body),
    ) else {
        panic!(rt; "a type and a term");
    };
    Ok(book.conclude(&RuleUse {
        rule: RuleName::Pi(PiRule::Lam),
        parts: Few::of(&[ctx, ty, term, to]),
        premises: Few::of(&[domain.0, body.0]),
    })?)
}

#[test]
fn two_is_a_number(rt: HostRuntime) -> Result<(), Fail> {
    let book = &mut Book::new(rt.alloc())?;
    let (ctx, _) = numbers(&rt, book)?;
    let rule = RuleName::Naturals(NatRule::Zero);
    let zero = follow(&rt, book, rule, 1, ctx, Claim::Tm(0, 3, 1))?;
    let rule = RuleName::Naturals(NatRule::Suc);
    let one = follow(&rt, book, rule, 2, zero, Claim::Tm(0, 4, 1))?;
    let two = follow(&rt, book, rule, 2, one, Claim::Tm(0, 5, 1))?;
    let step = book.step(two);
    assert_eq!(rt; step.rule, rule);
    assert!(rt; matches!(step.parts, [0, 4]));
    assert!(rt; matches!(step.premises, [4]));
    Ok(())
}

#[test]
fn the_successor_is_a_function(rt: HostRuntime) -> Result<(), Fail> {
    let book = &mut Book::new(rt.alloc())?;
    let (_, ty) = numbers(&rt, book)?;
    let rule = RuleName::Instances(InstanceRule::TmVar);
    let var = follow(&rt, book, rule, 2, ty, Claim::Tm(3, 4, 6))?;
    let rule = RuleName::Naturals(NatRule::Suc);
    let next = follow(&rt, book, rule, 2, var, Claim::Tm(3, 7, 1))?;
    let node = function(&rt, book, ty, next)?;
    assert_eq!(rt; book.conclusion(node), Claim::Tm(0, 8, 9));
    Ok(())
}

#[test]
fn a_row_of_any_kind_is_read_as_it_was_made(rt: HostRuntime) -> Result<(), Fail> {
    let mut book = Book::new(rt.alloc())?;
    let shift = book.shift(2)?;
    let then = book.then(shift, shift)?;
    assert!(rt; matches!(book.row(then), Row::Subst(SubRow::Shift(4))));
    Ok(())
}

fn assert_trees_compared(rt: &impl Abort, book: &mut Book) -> Result<(), Fail> {
    let zero = TermId(book.make(Op::Zero, &[])?);
    let nat = TermId(book.make(Op::Nat, &[])?);
    let same = book.same_tree(zero, zero)?;
    assert!(rt; same);
    let same = book.same_tree(zero, nat)?;
    assert!(rt; !same);
    Ok(())
}

#[test]
fn trees_are_the_same_by_what_they_mean(rt: HostRuntime) -> Result<(), Fail> {
    let mut book = Book::new(rt.alloc())?;
    assert_trees_compared(&rt, &mut book)
}

#[test]
fn a_release_leaves_the_rows_and_nodes_of_its_mark(rt: HostRuntime) -> Result<(), Fail> {
    let mut book = Book::new(rt.alloc())?;
    book.reserve(64)?;
    let first = book.mark();
    let ctx = empty_context(&mut book)?;
    assert!(rt; book.mark() != first);
    book.release(first);
    assert_eq!(rt; book.mark(), first);
    assert_eq!(rt; empty_context(&mut book)?, ctx);
    Ok(())
}
