//! Calls of the derived rules as derivation files, each within the room that is made for it.

ghost use Rattle.std.specs.Prelude.{◌≡◌, ◌∷◌, IfOk, IsSome, map};
ghost use Rattle.kan_tests.specs.Fillings.{given_by};

use crate::{contraction, extension, filling, preservation};
use book::{Book, NodeId};
use book_tests::judged;
use kan_calls::{Derived, MOST_ADDED, contr, ext, fill, pres};
use replay::Verdict;
use std::alloc::{AllocError, Global};
use std::process::Abort;
use std::test::Fail;

/// A derived rule.
#[derive(Clone, Copy, Debug)]
enum DerivedRule {
    Filling,
    Contraction,
    Preservation,
    Extension,
}

/// The nodes of what a call gave.
fn roots_of(alloc: Global, derived: &Derived) -> Result<Vec<NodeId>, AllocError>
    ensures { IfOk result (λ nodes.
        map (λ node. node.0) nodes.items ≡ derived.now.typing.0 ∷ derived.now.equations) }
{
    let mut nodes = Vec::new(alloc);
    nodes.push(derived.typing)?;
    for number in derived.equations.as_slice() {
        nodes.push(NodeId(*number))?;
    }
    Ok(nodes)
}

/// What a call gave for which there was room. That it is not out of memory is told by making each
/// allocation fail in turn.
fn within(rt: &impl Abort, derived: Result<Derived, AllocError>) -> Result<Derived, AllocError>
    ensures { result ≡ derived }
{
    assert!(rt; derived.is_ok(), "out of memory within the spare");
    derived
}

fn filled(rt: &impl Abort, book: &mut Book) -> Result<Derived, AllocError>
    ensures { IfOk result (λ derived. IsSome (given_by book.new derived)) }
{
    let call = filling(book)?;
    book.reserve(MOST_ADDED)?;
    Ok(within(rt, fill(book, call.ctx, &call.step))?)
}

fn contracted(rt: &impl Abort, book: &mut Book) -> Result<Derived, AllocError>
    ensures { IfOk result (λ derived. IsSome (given_by book.new derived)) }
{
    let call = contraction(book)?;
    book.reserve(MOST_ADDED)?;
    Ok(within(rt, contr(book, call.ctx, &call.step))?)
}

fn preserved(rt: &impl Abort, book: &mut Book) -> Result<Derived, AllocError>
    ensures { IfOk result (λ derived. IsSome (given_by book.new derived)) }
{
    let call = preservation(book)?;
    book.reserve(MOST_ADDED)?;
    Ok(within(rt, pres(book, call.ctx, &call.step))?)
}

fn extended(rt: &impl Abort, book: &mut Book) -> Result<Derived, AllocError>
    ensures { IfOk result (λ derived. IsSome (given_by book.new derived)) }
{
    let call = extension(book)?;
    book.reserve(MOST_ADDED)?;
    Ok(within(rt, ext(book, call.ctx, &call.step))?)
}

/// What a call of the rule gives.
fn called(rt: &impl Abort, book: &mut Book, rule: DerivedRule) -> Result<Derived, AllocError>
    ensures { IfOk result (λ derived. IsSome (given_by book.new derived)) }
{
    match rule {
        DerivedRule::Filling => Ok(filled(rt, book)?),
        DerivedRule::Contraction => Ok(contracted(rt, book)?),
        DerivedRule::Preservation => Ok(preserved(rt, book)?),
        DerivedRule::Extension => Ok(extended(rt, book)?),
    }
}

/// The verdict on the file of what a call of the rule gives.
fn verdict(rt: &impl Abort, alloc: Global, rule: DerivedRule) -> Result<Verdict, AllocError> {
    let mut book = Book::new(alloc)?;
    let derived = called(rt, &mut book, rule)?;
    let roots = roots_of(alloc, &derived)?;
    Ok(judged(alloc, &book, roots.as_slice())?)
}

#[test]
fn what_is_called_is_right(rt: HostRuntime) -> Result<(), Fail> {
    let rules = [
        (DerivedRule::Filling, 4),
        (DerivedRule::Contraction, 2),
        (DerivedRule::Preservation, 4),
        (DerivedRule::Extension, 2),
    ];
    for (rule, count) in rules {
        let found = verdict(&rt, rt.alloc(), rule)?;
        assert!(rt;
            matches!(found, Verdict::Yes { roots, .. } if roots == count),
            "{rule:?}"
        );
    }
    Ok(())
}
