//! A small book as a derivation file.

ghost use Rattle.std.specs.Prelude.{IfOk, IsSome};
ghost use Rattle.book.specs.Shown.{book_concludes};

use crate::concluded::{empty_context, follow};
use book::{Book, NodeId};
use book_writer::write;
use rows::Maker;
use std::alloc::AllocError;
use std::process::Abort;
use std::test::Fail;
use theory::{Claim, NatRule, RuleName};

/// `[] >> nat : U`, after two rows of substitutions.
fn numbers(rt: &impl Abort, book: &mut Book) -> Result<NodeId, AllocError>
    ensures { IfOk result (λ node. IsSome (book_concludes book.new node.0)) }
{
    let ctx = empty_context(book)?;
    let rule = RuleName::Naturals(NatRule::NatU);
    Ok(follow(rt, book, rule, 1, ctx, Claim::Tm(2, 3, 4))?)
}

#[test]
fn roots_come_last_and_what_serves_none_is_left_out(rt: HostRuntime) -> Result<(), Fail> {
    let mut book = Book::new(rt.alloc())?;
    let shift = book.shift(2)?;
    book.then(shift, shift)?;
    let node = numbers(&rt, &mut book)?;
    let mut bytes = Vec::new(rt.alloc());
    assert_eq!(rt; write(&book, rt.alloc(), &[node, node], &mut bytes)?, 6);
    let file = b"rules 1\nc nil\nn ctx.nil\nn nat.u 1 2\nr 3\nr 3\n";
    assert!(rt; bytes.as_slice() == file.as_slice());
    Ok(())
}
