//! What is found of definitions over a book.

ghost use Rattle.std.specs.Prelude.{◌≡◌, ℕ, [], List, IfOk, IsSome, Some};
ghost use Rattle.trees.specs.Judgements.{Judgement};
ghost use Rattle.direct.specs.Direct.{other_place};
ghost use Rattle.book_writer.specs.Written.{IsWritten, concluded_by};
ghost use Rattle.session.specs.Found.{IsFound, nodes_of};

use bidirect::{Checked, Root, check_definitions};
use book::{Book, NodeId};
use book_writer::write;
use examining::{CheckFault, Examined, Place, examine_definitions};
use resolver::CodeDef;
use stated_roots::are_stated;
use std::alloc::{AllocError, Global};

/// Why definitions are not typed.
#[derive(Drop)]
pub(crate) enum Reason {
    /// One is refused at this place, for this reason.
    Refused(Place, CheckFault),
    /// A question that was asked for what stands at this place has no answer within its budget.
    Spent(Place),
    /// A step was not taken.
    NotTaken,
}

/// What is found of definitions.
#[derive(Drop)]
pub(crate) enum Found {
    /// All are typed. The nodes of what they state, in order.
    Stated(Vec<NodeId>),
    /// Not all are, and this is the place of the first that is not direct.
    Other(usize, Reason),
}

/// The nodes of what definitions state, in order.
fn nodes_of(alloc: Global, roots: &[Root]) -> Result<Vec<NodeId>, AllocError>
    ensures { IfOk result (λ nodes. nodes.items ≡ nodes_of roots.now) }
{
    let mut nodes = Vec::new(alloc);
    for root in roots {
        nodes.push(root.ty)?;
        nodes.push(root.body)?;
    }
    Ok(nodes)
}

/// Checks definitions in order by evaluation, of which this is the first that is not direct. What
/// their nodes conclude is compared with what they state.
fn examined(
    alloc: Global,
    book: &mut Book,
    defs: &[CodeDef],
    first: usize,
    turns: u64,
) -> Result<Found, AllocError>
    requires { other_place defs.now [] ≡ Some first }
    ensures { IfOk result (IsFound book.new defs.now) }
{
    let reason = match examine_definitions(alloc, book, defs, turns)? {
        Examined::Typed(roots) => {
            let nodes = nodes_of(alloc, &roots)?;
            if are_stated(alloc, book, &nodes, defs)? {
                return Ok(Found::Stated(nodes));
            }
            Reason::NotTaken
        }
        Examined::Refused(place, fault) => Reason::Refused(place, fault),
        Examined::Spent(place) => Reason::Spent(place),
        Examined::NotTaken(..) => Reason::NotTaken,
    };
    Ok(Found::Other(first, reason))
}

/// Checks definitions in order: without evaluation, if all are direct, and else by evaluation, each
/// question within so many moves.
pub(crate) fn found_of(
    alloc: Global,
    book: &mut Book,
    defs: &[CodeDef],
    turns: u64,
) -> Result<Found, AllocError>
    ensures { IfOk result (IsFound book.new defs.now) }
{
    match check_definitions(alloc, book, defs)? {
        Checked::Direct(roots) => Ok(Found::Stated(nodes_of(alloc, &roots)?)),
        Checked::NotDirect(first) => Ok(examined(alloc, book, defs, first, turns)?),
    }
}

/// The bytes of the derivation of what these nodes conclude.
pub(crate) fn derivation_of(
    alloc: Global,
    book: &Book,
    nodes: &[NodeId],
) -> Result<Vec<u8>, AllocError>
    requires { IsSome (concluded_by book.now nodes.now) }
    ensures { (Js : List Judgement) → concluded_by book.now nodes.now ≡ Some Js →
        IfOk result (λ bytes. (rows : ℕ) × IsWritten bytes.items rows Js) }
{
    let mut bytes = Vec::new(alloc);
    let _rows = write(book, alloc, nodes, &mut bytes)?;
    Ok(bytes)
}
