//! An application of a function that has another type than the one at which it is applied, where
//! whatever is compared is said to differ.

use book::{Book, NodeId};
use evaluate::{HeadState, HeadStep, step_head};
use evidence::{Equated, unaligned};
use examining::{Examined, Root, examine_definitions};
use grammar::read;
use layout_lexer::tokens;
use resolver::{Codes, Scope, ScopeNames, resolve};
use std::alloc::{AllocError, Global};
use std::test::Fail;
use tested_steps::{Fault, claim_of, context_of, same_sides};
use theory::Claim;
use values::{Question, Reply, Step, Trail, Unaligned, suspend};

/// The domain of the function is `nat`, and it is applied as one of the domain `F nat`.
const TEXT: &str = "module M where\n\
                    F (A : U) : U = A\n\
                    f : F nat -> nat = \\(x : nat) -> x\n\
                    n : nat = f zero\n";

/// The codes of the text.
fn codes_of(alloc: Global) -> Result<Option<Codes>, AllocError> {
    let bytes = TEXT.as_bytes();
    let Ok(tokens) = tokens(alloc, bytes) else {
        return Ok(None);
    };
    let Ok(module) = read(alloc, bytes, &tokens) else {
        return Ok(None);
    };
    let scope = Scope {
        names: ScopeNames::new(alloc),
        next: 0,
    };
    let Ok(codes) = resolve(alloc, bytes, &module, &scope) else {
        return Ok(None);
    };
    Ok(Some(codes))
}

/// The body of the last definition of the text, and its type.
fn typed(alloc: Global, book: &mut Book) -> Result<Option<Root>, AllocError> {
    let Some(codes) = codes_of(alloc)? else {
        return Ok(None);
    };
    let Examined::Typed(roots) = examine_definitions(alloc, book, codes.as_slice(), 1_000)? else {
        return Ok(None);
    };
    match roots.as_slice() {
        [.., last] => Ok(Some(*last)),
        [] => Ok(None),
    }
}

/// What becomes of the head of a term where all that it compares is said to differ, by one trail.
fn misled(
    alloc: Global,
    book: &mut Book,
    term: NodeId,
    trail: [NodeId; 2],
) -> Result<Option<Unaligned>, Fault> {
    let [left, right] = trail;
    let ctx = context_of(alloc, book, term)?;
    let mut state = HeadState::new(alloc, suspend(book, ctx, term)?);
    for _ in 0..100 {
        state = match step_head(alloc, book, state)? {
            HeadStep::Moved(state) => state,
            HeadStep::Asks(Question::Convert { .. }, state) => {
                let mut state = state;
                let mut steps = Vec::new(alloc);
                steps.push(Step::Into(0))?;
                state.answer(Reply::Differ(Trail { left, right, steps }))?;
                state
            }
            HeadStep::Asks(..) => return Err(Fault::Misfit),
            HeadStep::Done(Reply::Unaligned(types)) => return Ok(Some(types)),
            HeadStep::Done(_) => return Ok(None),
        };
    }
    Ok(None)
}

/// Whether a node concludes that two types are equal that are two trees.
fn are_two_types(book: &Book, equation: NodeId) -> Result<bool, Fault> {
    match claim_of(book, equation)? {
        Claim::TyEq(..) => Ok(!same_sides(book, equation)?),
        _ => Ok(false),
    }
}

/// The equation of two types that could not be aligned, and whether they are two, and differ by the
/// trail that was told.
fn told(alloc: Global, book: &mut Book) -> Result<Option<(NodeId, bool)>, Fault> {
    let Some(root) = typed(alloc, book)? else {
        return Ok(None);
    };
    let Some(found) = misled(alloc, book, root.body, [root.body, root.ty])? else {
        return Ok(None);
    };
    let is_told = found.trail.left == root.body && found.trail.right == root.ty;
    let are_two = are_two_types(book, found.types)?;
    Ok(Some((found.types, is_told && are_two)))
}

#[test]
fn types_that_are_said_to_differ_are_told(rt: HostRuntime) -> Result<(), Fail> {
    let alloc = rt.alloc();
    let mut book = Book::new(alloc)?;
    let Some((types, is_told)) = told(alloc, &mut book)? else {
        return Err(Fail::new("two types are aligned"));
    };
    assert!(&rt; is_told);
    // the two are one in normal form, so there is no evidence
    let nodes = Equated {
        types,
        found: types,
        wanted: types,
    };
    let evidence = unaligned(alloc, &mut book, nodes)?;
    assert!(&rt; evidence.is_none());
    Ok(())
}
