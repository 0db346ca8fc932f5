//! Uses of the derived rules as derivation files.

ghost use Rattle.std.specs.Prelude.{◌≤◌, [], List, length};
ghost use Rattle.trees.specs.Judgements.{Judgement};
ghost use Rattle.book.specs.Contents.{Contents};
ghost use Rattle.kan_tests.specs.Fillings.{earlier};
ghost use Rattle.recipe_runner.specs.Running.{MayRun, most_made_by};

use crate::calls::given;
use crate::{
    CONTR_VARIABLE, CONTR_VARIABLE_GIVES, EXT_NUMBERS, EXT_NUMBERS_GIVES, EXT_VARIABLE,
    EXT_VARIABLE_GIVES, FILL_FACES, FILL_FACES_GIVES, FILL_LINES, FILL_LINES_GIVES, PRES_NUMBERS,
    PRES_NUMBERS_GIVES, contraction_is_derived, extension_is_derived, fillings_are_derived,
    identity_is_equivalence, preservation_is_derived,
};
use book::Book;
use book_tests::{judged, nodes_of};
use recipes::Row;
use replay::Verdict;
use std::alloc::{AllocError, Global};
use std::test::Fail;

/// The verdict on the file of what a recipe without parts gives.
fn verdict(alloc: Global, rows: &[Row], outs: &[u16]) -> Result<Verdict, AllocError>
    requires rows { most_made_by rows.now ≤ 512 }
    requires outs { length outs.now ≤ 16 }
    requires right { (gives : List Judgement) × ((b : Contents) →
        MayRun earlier b rows.now outs.now [] [] gives) }
{
    let mut book = Book::new(alloc)?;
    let numbers = given(&mut book, rows, outs)?;
    let roots = nodes_of(alloc, numbers.as_slice())?;
    Ok(judged(alloc, &book, roots.as_slice())?)
}

#[test]
fn fillings_are_right_on_many_faces(rt: HostRuntime) -> Result<(), Fail> {
    fillings_are_derived();
    let found = verdict(rt.alloc(), FILL_FACES, FILL_FACES_GIVES)?;
    assert!(rt; matches!(found, Verdict::Yes { roots: 12, .. }));
    Ok(())
}

#[test]
fn fillings_are_right_over_many_lines(rt: HostRuntime) -> Result<(), Fail> {
    fillings_are_derived();
    let found = verdict(rt.alloc(), FILL_LINES, FILL_LINES_GIVES)?;
    assert!(rt; matches!(found, Verdict::Yes { roots: 6, .. }));
    Ok(())
}

#[test]
fn a_contraction_is_right(rt: HostRuntime) -> Result<(), Fail> {
    contraction_is_derived();
    let found = verdict(rt.alloc(), CONTR_VARIABLE, CONTR_VARIABLE_GIVES)?;
    assert!(rt; matches!(found, Verdict::Yes { roots: 2, .. }));
    Ok(())
}

#[test]
fn a_preservation_is_right(rt: HostRuntime) -> Result<(), Fail> {
    preservation_is_derived();
    let found = verdict(rt.alloc(), PRES_NUMBERS, PRES_NUMBERS_GIVES)?;
    assert!(rt; matches!(found, Verdict::Yes { roots: 4, .. }));
    Ok(())
}

#[test]
fn an_extension_is_right(rt: HostRuntime) -> Result<(), Fail> {
    extension_is_derived();
    let found = verdict(rt.alloc(), EXT_VARIABLE, EXT_VARIABLE_GIVES)?;
    assert!(rt; matches!(found, Verdict::Yes { roots: 2, .. }));
    Ok(())
}

#[test]
fn an_extension_along_the_identity_is_right(rt: HostRuntime) -> Result<(), Fail> {
    identity_is_equivalence();
    let found = verdict(rt.alloc(), EXT_NUMBERS, EXT_NUMBERS_GIVES)?;
    assert!(rt; matches!(found, Verdict::Yes { roots: 3, .. }));
    Ok(())
}
