//! Derivations as files.

ghost use Rattle.std.specs.Prelude.{◌≤◌, [], List, length};
ghost use Rattle.trees.specs.Judgements.{Judgement};
ghost use Rattle.book.specs.Contents.{Contents};
ghost use Rattle.recipe_runner.specs.Running.{MayRun, most_made_by};
ghost use Rattle.book_tests.specs.Stated.{earlier};

use crate::{
    SUCCESSOR, SUCCESSOR_GIVES, TWO, TWO_GIVES, doubled, given, judged, nodes_of,
    successor_is_derived, two_is_derived,
};
use book::Book;
use book_writer::write;
use recipes::Row;
use replay::Verdict;
use std::alloc::{AllocError, Global};
use std::test::Fail;

/// The verdict on the file of what a recipe without parts gives.
fn verdict(alloc: Global, rows: &[Row], outs: &[u16]) -> Result<Verdict, AllocError>
    requires rows { most_made_by rows.now ≤ 512 }
    requires outs { length outs.now ≤ 16 }
    requires right { (gives : List Judgement) × ((b : Contents) →
        MayRun earlier b rows.now outs.now [] [] gives) }
{
    let mut book = Book::new(alloc)?;
    let numbers = given(&mut book, rows, outs)?;
    let roots = nodes_of(alloc, numbers.as_slice())?;
    Ok(judged(alloc, &book, roots.as_slice())?)
}

#[test]
fn two_is_a_number(rt: HostRuntime) -> Result<(), Fail> {
    two_is_derived();
    let found = verdict(rt.alloc(), TWO, TWO_GIVES)?;
    assert!(rt; matches!(found, Verdict::Yes { rows: 13, roots: 2 }));
    Ok(())
}

#[test]
fn the_successor_is_a_function_with_a_value(rt: HostRuntime) -> Result<(), Fail> {
    successor_is_derived();
    let found = verdict(rt.alloc(), SUCCESSOR, SUCCESSOR_GIVES)?;
    assert!(rt; matches!(found, Verdict::Yes { roots: 2, .. }));
    Ok(())
}

/// Three rows for each time: the tree, the substitution and the node. The judge opens each tree
/// anew, so it is given a shorter one.
#[test]
fn a_chain_of_substitutions_is_as_long_as_its_file(rt: HostRuntime) -> Result<(), Fail> {
    let mut book = Book::new(rt.alloc())?;
    let node = doubled(&mut book, 1000)?;
    let mut bytes = Vec::new(rt.alloc());
    assert_eq!(rt; write(&book, rt.alloc(), &[node], &mut bytes)?, 3015);
    let mut book = Book::new(rt.alloc())?;
    let node = doubled(&mut book, 100)?;
    let found = judged(rt.alloc(), &book, &[node])?;
    assert!(rt; matches!(found, Verdict::Yes { rows: 315, .. }));
    Ok(())
}

/// Told by making each allocation fail in turn: what comes after the room is made does not.
#[test]
fn calls_within_the_spare_are_not_out_of_memory(rt: HostRuntime) -> Result<(), Fail> {
    two_is_derived();
    successor_is_derived();
    let Ok(mut book) = Book::new(rt.alloc()) else {
        return Ok(());
    };
    if book.reserve(512).is_ok() {
        assert!(rt; given(&mut book, TWO, TWO_GIVES).is_ok());
        assert!(rt; given(&mut book, SUCCESSOR, SUCCESSOR_GIVES).is_ok());
    }
    Ok(())
}
