//! Entries of contexts.

ghost use Rattle.std.specs.Prelude.{◌≡◌, IfOk};
ghost use Rattle.trees.specs.Trees.{Tree, Subst, apply};
ghost use Rattle.trees.specs.Judgements.{Context};
ghost use Rattle.trees.specs.Language.{Ctx, Sb};
ghost use Rattle.book.specs.Shown.{Extends};
ghost use Rattle.typed_nodes.specs.Typed.{Says};
ghost use Rattle.literal_types.specs.Substitutions.{IsEntry, past_entry};

use crate::face_calls::{past_face, with_face};
use book::{Book, NodeId};
use std::alloc::AllocError;
use typed_nodes::{past_name, past_variable, with_name, with_variable};

/// An entry of a context.
#[derive(Clone, Copy, Debug)]
pub enum Entry {
    /// A variable, by the node of its type.
    Variable(NodeId),
    Name,
    /// A face, by its row.
    Face(u64),
}

/// `ctx M`, of `ctx K`, where M is K with the entry
pub fn with_entry(book: &mut Book, ctx: NodeId, entry: Entry) -> Result<NodeId, AllocError>
    requires { (K M : Context) × Says book.old ctx (Ctx K) × IsEntry book.old entry K M }
    ensures extends { Extends book.old book.new }
    ensures typed { IfOk result (λ node. (K M : Context) → Says book.old ctx (Ctx K)
        → IsEntry book.old «entry» K M → Says book.new node (Ctx M)) }
{
    match entry {
        Entry::Variable(ty) => Ok(with_variable(book, ty)?),
        Entry::Name => Ok(with_name(book, ctx)?),
        Entry::Face(face) => Ok(with_face(book, ctx, face)?),
    }
}

/// `d past the entry : M to G`, of `d : K to G`, where M is K with the entry
pub fn past(book: &mut Book, sub: NodeId, entry: Entry) -> Result<NodeId, AllocError>
    requires { (K M G : Context) × (d : Subst) × Says book.old sub (Sb K d G)
        × IsEntry book.old entry K M }
    ensures extends { Extends book.old book.new }
    ensures typed { IfOk result (λ node. (K M G : Context) (d : Subst) →
        Says book.old sub (Sb K d G) → IsEntry book.old «entry» K M
        → (e : Subst) × Says book.new node (Sb M e G)
        × ((A : Tree) → apply A e ≡ past_entry «entry» (apply A d))) }
{
    match entry {
        Entry::Variable(ty) => Ok(past_variable(book, sub, ty)?),
        Entry::Name => Ok(past_name(book, sub)?),
        Entry::Face(face) => Ok(past_face(book, sub, face)?),
    }
}
