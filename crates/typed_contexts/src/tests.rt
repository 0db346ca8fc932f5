//! Variables and names of a place, and how many nodes variables take.

ghost use Rattle.std.specs.Prelude.{IfOk};
ghost use Rattle.trees.specs.Judgements.{Context};
ghost use Rattle.typed_contexts.specs.Places.{IsPlace};

use crate::Places;
use book::Book;
use std::alloc::{AllocError, Global};
use std::test::Fail;
use typed_nodes::numbers_type;

/// A place under so many numbers, each of the outermost type.
fn under_numbers(alloc: Global, book: &mut Book, count: usize) -> Result<Places, AllocError>
    ensures { IfOk result (λ places. (H : Context) × IsPlace book.new places H) }
{
    let mut places = Places::new(alloc, book)?;
    let (_, numbers) = numbers_type(book, places.ctx())?;
    for _variable in 0..count {
        let here = places.type_from(book, numbers, 0)?;
        places.enter(book, here)?;
    }
    Ok(places)
}

#[test]
fn variables_have_types_and_names_have_none(rt: HostRuntime) -> Result<(), Fail> {
    let mut book = Book::new(rt.alloc())?;
    let mut places = under_numbers(rt.alloc(), &mut book, 3)?;
    places.enter_name(&mut book)?;
    assert_eq!(rt; places.depth(), 4);
    for (index, has_type) in [(0, false), (1, true), (3, true), (4, false)] {
        let found = places.variable(&mut book, index)?;
        assert_eq!(rt; found.is_some(), has_type);
    }
    for is_variable in [false, true, true, true, false] {
        assert_eq!(rt; places.leave().is_some(), is_variable);
    }
    assert_eq!(rt; places.depth(), 0);
    Ok(())
}

#[test]
fn variables_take_few_nodes(rt: HostRuntime) -> Result<(), Fail> {
    // for each variable four, and two for each doubling of the depth
    for (depth, most) in [(16, 192), (128, 2304), (256, 5120)] {
        let mut book = Book::new(rt.alloc())?;
        let places = under_numbers(rt.alloc(), &mut book, depth)?;
        let before = book.mark().nodes;
        for index in 0..depth as u32 {
            places.variable(&mut book, index)?;
        }
        let after = book.mark().nodes;
        assert!(rt; after.saturating_sub(before) <= most);
    }
    Ok(())
}
