//! Everything is asked of every node of whole derivations.

use crate::{Asked, Whole, applied_to_all, ask_every_node, derive_whole, every_node, function_of};
use book::Book;
use book_tests::judged;
use replay::Verdict;
use std::alloc::{AllocError, Global};
use std::test::Fail;

/// All that may be asked.
const EVERYTHING: [Asked; 8] = [
    Asked::Context,
    Asked::Type,
    Asked::Left,
    Asked::Right,
    Asked::From,
    Asked::To,
    Asked::Anchor,
    Asked::Parts,
];

/// Whether each answer is what it should be, where everything is asked of every node, and the judge
/// accepts the file of all nodes then.
fn asked(alloc: Global, book: &mut Book) -> Result<bool, AllocError> {
    let mut wrong = 0_u64;
    for asked in EVERYTHING {
        let tally = ask_every_node(alloc, book, asked)?;
        wrong = wrong.saturating_add(tally.wrong);
    }
    let roots = every_node(alloc, book)?;
    let verdict = judged(alloc, book, roots.as_slice())?;
    Ok(wrong == 0 && matches!(verdict, Verdict::Yes { .. }))
}

#[test]
fn what_stands_behind_every_node_is_found(rt: HostRuntime) -> Result<(), Fail> {
    let wholes = [
        Whole::Faces,
        Whole::Lines,
        Whole::Contraction,
        Whole::Preservation,
        Whole::Extension,
        Whole::Identity,
        Whole::Glue,
        Whole::Compositions,
        Whole::GluedComposition,
    ];
    for whole in wholes {
        let mut book = Book::new(rt.alloc())?;
        derive_whole(&mut book, whole)?;
        let right = asked(rt.alloc(), &mut book)?;
        assert!(rt; right, "{whole:?}");
    }
    Ok(())
}

#[test]
fn what_stands_behind_32_dependent_arguments_is_found(rt: HostRuntime) -> Result<(), Fail> {
    let mut book = Book::new(rt.alloc())?;
    let function = function_of(rt.alloc(), &mut book, 16)?;
    let applied = applied_to_all(rt.alloc(), &mut book, function, 16)?;
    assert!(rt; applied.is_some());
    let right = asked(rt.alloc(), &mut book)?;
    assert!(rt; right);
    Ok(())
}
