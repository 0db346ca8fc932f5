//! Runs of the recipes over a book.

ghost use Rattle.std.specs.Prelude.{◌≡◌, ◌≤◌, [], List, IfOk, IsOk, Some, length};
ghost use Rattle.trees.specs.Judgements.{Judgement};
ghost use Rattle.trees.specs.Things.{meanings};
ghost use Rattle.book.specs.Contents.{Contents};
ghost use Rattle.book.specs.Shown.{book_concludes, Extends};
ghost use Rattle.recipe_runner.specs.Running.{MayRun, most_added_by, most_made_by};
ghost use Rattle.book_tests.specs.Stated.{earlier, zeroing};

use crate::{CONSTANT, CONSTANT_GIVES, TWICE, TWICE_GIVES, constant_is_derived, twice_is_derived};
use book::{Book, Few, NodeId};
use recipe_runner::{NoRecipes, run};
use recipes::Row;
use std::alloc::AllocError;

/// The nodes that a recipe without parts gives.
///
/// # Errors
/// Only where memory runs out that the spare does not cover.
pub fn given(book: &mut Book, rows: &[Row], outs: &[u16]) -> Result<Few, AllocError>
    requires rows { most_made_by rows.now ≤ 512 }
    requires outs { length outs.now ≤ 16 }
    requires right { (gives : List Judgement) × ((b : Contents) →
        MayRun earlier b rows.now outs.now [] [] gives) }
    ensures covered { most_added_by (λ k. 0) rows.now ≤ book.old.spare → IsOk result }
    ensures extends { Extends book.old book.new }
    ensures gives { IfOk result (λ nodes. (gives : List Judgement) →
        ((b : Contents) → MayRun earlier b rows.now outs.now [] [] gives) →
        meanings (book_concludes book.new) nodes ≡ Some gives) }
{
    Ok(run(book, &NoRecipes, rows, outs, &[], &[])?)
}

/// The substitution of a node that takes a number to zero, after itself.
fn again(book: &mut Book, node: NodeId) -> Result<NodeId, AllocError>
    requires { book_concludes book.old node.0 ≡ Some zeroing }
    ensures { IfOk result (λ node. book_concludes book.new node.0 ≡ Some zeroing) }
{
    twice_is_derived();
    let rows = book.conclusion(node).rows();
    let parts = rows.as_slice().split_at(2).0;
    let nodes = run(book, &NoRecipes, TWICE, TWICE_GIVES, parts, &[node.0])?;
    Ok(NodeId(nodes.as_slice()[0]))
}

/// A substitution that takes a number to zero, after itself, and so on: so many rows, each of which
/// names the one before it twice.
///
/// # Errors
/// Only to be out of memory.
pub fn doubled(book: &mut Book, times: u64) -> Result<NodeId, AllocError>
    ensures { IfOk result (λ node. book_concludes book.new node.0 ≡ Some zeroing) }
{
    constant_is_derived();
    let nodes = given(book, CONSTANT, CONSTANT_GIVES)?;
    let mut node = NodeId(nodes.as_slice()[0]);
    for _ in 0..times {
        node = again(book, node)?;
    }
    Ok(node)
}
