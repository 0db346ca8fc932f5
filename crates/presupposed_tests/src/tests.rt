//! Types of terms that are derived in many steps, and parts of terms. What an answer concludes its
//! contract says; that there is one, a test.

use crate::{
    converted, instances, left_side, made, opened_form, pushed, shared_equation, successors,
    type_of_term, used,
};
use book::Book;
use presupposed::TermKids;
use std::test::Fail;

#[test]
fn the_type_of_a_great_number_is_found(rt: HostRuntime) -> Result<(), Fail> {
    let mut book = Book::new(rt.alloc())?;
    let number = successors(&mut book, 100_000)?;
    type_of_term(rt.alloc(), &mut book, number)?;
    Ok(())
}

#[test]
fn the_type_is_found_under_many_substitutions(rt: HostRuntime) -> Result<(), Fail> {
    let mut book = Book::new(rt.alloc())?;
    let term = instances(&mut book, 100_000)?;
    type_of_term(rt.alloc(), &mut book, term)?;
    Ok(())
}

#[test]
fn types_of_uses_are_found(rt: HostRuntime) -> Result<(), Fail> {
    let mut book = Book::new(rt.alloc())?;
    for place in 0..4 {
        let term = used(&mut book, place)?;
        type_of_term(rt.alloc(), &mut book, term)?;
    }
    Ok(())
}

#[test]
fn a_side_of_an_equation_with_2_to_the_40_paths_is_found(rt: HostRuntime) -> Result<(), Fail> {
    let mut book = Book::new(rt.alloc())?;
    let equation = shared_equation(&mut book, 40)?;
    let before = book.mark();
    left_side(rt.alloc(), &mut book, equation)?;
    let after = book.mark();
    assert!(rt; before == after);
    Ok(())
}

#[test]
fn terms_are_opened(rt: HostRuntime) -> Result<(), Fail> {
    let mut book = Book::new(rt.alloc())?;
    let term = converted(&mut book)?;
    let opened = opened_form(rt.alloc(), &mut book, term)?;
    assert!(rt; matches!(opened.kids, TermKids::Function(..)) && opened.fits.is_some());
    let term = pushed(&mut book)?;
    let opened = opened_form(rt.alloc(), &mut book, term)?;
    assert!(rt; matches!(opened.kids, TermKids::Function(..)) && opened.fits.is_none());
    let pair = made(&mut book, 0)?;
    let opened = opened_form(rt.alloc(), &mut book, pair)?;
    assert!(rt; matches!(opened.kids, TermKids::Pair(_)) && opened.fits.is_none());
    let path = made(&mut book, 1)?;
    let opened = opened_form(rt.alloc(), &mut book, path)?;
    assert!(rt; matches!(opened.kids, TermKids::Path(..)) && opened.fits.is_none());
    let ty = made(&mut book, 2)?;
    let opened = opened_form(rt.alloc(), &mut book, ty)?;
    assert!(rt; matches!(opened.kids, TermKids::Type(_)) && opened.fits.is_none());
    Ok(())
}
