//! Derivations of terms that are literally forms, and of what uses them.

ghost use Rattle.std.specs.Prelude.{◌≡◌, ◌<◌, [], IfOk, Some};
ghost use Rattle.trees.specs.Judgements.{trees};
ghost use Rattle.trees.specs.Things.{meanings};
ghost use Rattle.recipes.specs.Derivations.{Derives, StatesAt};
ghost use Rattle.book.specs.Shown.{book_concludes};
ghost use Rattle.presupposed_tests.specs.Derived as stated;
ghost use Rattle.presupposed_tests.specs.Grown.{IsEquation, IsForm, IsTerm};

use crate::conversions::{CONVERSIONS, CONVERSIONS_GIVES};
use crate::equal_numbers::{EQUAL_NUMBERS, EQUAL_NUMBERS_GIVES};
use crate::made_and_used::{MADE_AND_USED, MADE_AND_USED_GIVES};
use crate::pushed_entry::{PUSHED_ENTRY, PUSHED_ENTRY_GIVES};
use book::{Book, Few, NodeId};
use literal_terms::joined_equations;
use std::alloc::AllocError;
use typed_nodes::{derive, derived};

/// The tables derive what they are for.
fn terms_are_derived()
    ensures conversions { Derives [] stated.conversions_statement
        CONVERSIONS.now CONVERSIONS_GIVES.now }
    ensures pushed_entry { Derives [] stated.pushed_entry_statement
        PUSHED_ENTRY.now PUSHED_ENTRY_GIVES.now }
    ensures made_and_used { Derives [] stated.made_and_used_statement
        MADE_AND_USED.now MADE_AND_USED_GIVES.now }
    ensures equal_numbers { Derives [] stated.equal_numbers_statement
        EQUAL_NUMBERS.now EQUAL_NUMBERS_GIVES.now }
{}

/// At trees these state what their definitions say there.
fn terms_at_trees()
    ensures conversions { StatesAt stated.conversions_statement [] (stated.conversions trees) }
    ensures pushed_entry { StatesAt stated.pushed_entry_statement [] (stated.pushed_entry trees) }
    ensures made_and_used { StatesAt stated.made_and_used_statement []
        (stated.made_and_used trees) }
    ensures equal_numbers { StatesAt stated.equal_numbers_statement []
        (stated.equal_numbers trees) }
{}

/// A function behind eleven conversions, so that its type only equals its own.
///
/// # Errors
/// Only where memory runs out.
pub fn converted(book: &mut Book) -> Result<NodeId, AllocError>
    ensures { IfOk result (IsForm book.new) }
{
    terms_are_derived();
    terms_at_trees();
    Ok(derive(book, CONVERSIONS, CONVERSIONS_GIVES, &[], &[])?)
}

/// A function that stands only as a pushed entry, under three substitutions.
///
/// # Errors
/// Only where memory runs out.
pub fn pushed(book: &mut Book) -> Result<NodeId, AllocError>
    ensures { IfOk result (IsForm book.new) }
{
    terms_are_derived();
    terms_at_trees();
    Ok(derive(book, PUSHED_ENTRY, PUSHED_ENTRY_GIVES, &[], &[])?)
}

/// A pair, a path and a type, and four uses of functions, pairs and paths.
fn made_and_used(book: &mut Book) -> Result<Few, AllocError>
    ensures { IfOk result (λ nodes.
        meanings (book_concludes book.new) nodes ≡ Some ((stated.made_and_used trees).gives)) }
{
    terms_are_derived();
    terms_at_trees();
    Ok(derived(book, MADE_AND_USED, MADE_AND_USED_GIVES, &[], &[])?)
}

/// A pair, a path and a type, by place.
///
/// # Errors
/// Only where memory runs out.
pub fn made(book: &mut Book, place: usize) -> Result<NodeId, AllocError>
    requires { place < 3 }
    ensures { IfOk result (IsForm book.new) }
{
    let nodes = made_and_used(book)?;
    Ok(NodeId(nodes.as_slice()[place]))
}

/// A function at a number, the parts of a pair and a path at an end, by place.
///
/// # Errors
/// Only where memory runs out.
pub fn used(book: &mut Book, place: usize) -> Result<NodeId, AllocError>
    requires { place < 4 }
    ensures { IfOk result (IsTerm book.new) }
{
    let nodes = made_and_used(book)?;
    Ok(NodeId(nodes.as_slice()[3 + place]))
}

/// An equation of the type of numbers with itself, which stands on the one before it twice, and so
/// on, so many times.
///
/// # Errors
/// Only where memory runs out.
pub fn shared_equation(book: &mut Book, times: u64) -> Result<NodeId, AllocError>
    ensures { IfOk result (IsEquation book.new) }
{
    terms_are_derived();
    terms_at_trees();
    let mut equation = derive(book, EQUAL_NUMBERS, EQUAL_NUMBERS_GIVES, &[], &[])?;
    for _ in 0..times {
        equation = joined_equations(book, equation, equation)?;
    }
    Ok(equation)
}
