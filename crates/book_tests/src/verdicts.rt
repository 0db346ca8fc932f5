//! What the judge says of the file of some nodes.

ghost use Rattle.std.specs.Prelude.{◌≡◌, IfOk, IsSome, map};
ghost use Rattle.book_writer.specs.Written.{concluded_by};

use book::{Book, NodeId};
use book_writer::write;
use replay::{Verdict, judge};
use std::alloc::{AllocError, Global};

/// These numbers as nodes.
pub fn nodes_of(alloc: Global, numbers: &[u64]) -> Result<Vec<NodeId>, AllocError>
    ensures { IfOk result (λ nodes. map (λ node. node.0) nodes.items ≡ numbers.now) }
{
    let mut nodes = Vec::new(alloc);
    for number in numbers {
        nodes.push(NodeId(*number))?;
    }
    Ok(nodes)
}

/// The verdict on the file of what these nodes conclude.
///
/// # Errors
/// Only to be out of memory.
pub fn judged(alloc: Global, book: &Book, roots: &[NodeId]) -> Result<Verdict, AllocError>
    requires { IsSome (concluded_by book.now roots.now) }
{
    let mut bytes = Vec::new(alloc);
    write(book, alloc, roots, &mut bytes)?;
    Ok(judge(alloc, bytes.as_slice())?.verdict)
}
