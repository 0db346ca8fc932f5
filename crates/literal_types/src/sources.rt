//! The contexts that substitutions are from.

ghost use Rattle.std.specs.Prelude.{◌≡◌, [], IfOk, reverse};
ghost use Rattle.trees.specs.Trees.{id};
ghost use Rattle.trees.specs.Judgements.{Context};
ghost use Rattle.trees.specs.Language.{Ctx, Sb};
ghost use Rattle.book.specs.Shown.{Extends};
ghost use Rattle.typed_nodes.specs.Typed.{Says};
ghost use Rattle.literal_types.specs.Substitutions.{AreEntries, IsBase, IsFrom};

use crate::entries::{Entry, with_entry};
use crate::substitutions::{Substitution, unfolded};
use book::{Book, NodeId};
use std::alloc::{AllocError, Global};
use typed_nodes::{identity, with_variable};

/// A context that need not be made of shorter ones.
#[derive(Clone, Copy, Debug)]
pub enum Base {
    /// `ctx K`, by its node
    Context(NodeId),
    /// `ctx K.A`, by the node of `K >> A`
    Variable(NodeId),
}

/// The context that a substitution is from, as a base and the entries past it, which are added to
/// a list, the outermost last.
fn base_of_source(book: &Book, sub: NodeId, entries: &mut Vec<Entry>) -> Result<Base, AllocError>
    requires from { (H : Context) × IsFrom book.now sub H }
    requires none { entries.old.items ≡ [] }
    ensures { IfOk result (λ base. (H : Context) → IsFrom book.now «sub» H
        → (K : Context) × IsBase book.now base K
        × AreEntries book.now (reverse entries.new.items) K H) }
{
    let mut at = sub;
    loop {
        match unfolded(book, at) {
            Substitution::Identity(ctx) => return Ok(Base::Context(ctx)),
            Substitution::Past(below, entry) => {
                if let Entry::Variable(ty) = entry {
                    return Ok(Base::Variable(ty));
                }
                entries.push(entry)?;
                at = below;
            }
            Substitution::Composite(below, _) => at = below,
            Substitution::Pushed(below, _) => at = below,
            Substitution::Formula(below) => at = below,
            Substitution::OnFace(below) => at = below,
        }
    }
}

/// The node of a base.
fn base_context(book: &mut Book, base: Base) -> Result<NodeId, AllocError>
    requires { (K : Context) × IsBase book.old base K }
    ensures extends { Extends book.old book.new }
    ensures typed { IfOk result (λ node. (K : Context) → IsBase book.old «base» K
        → Says book.new node (Ctx K)) }
{
    match base {
        Base::Context(ctx) => Ok(ctx),
        Base::Variable(ty) => Ok(with_variable(book, ty)?),
    }
}

/// `ctx H`, of `d : H to G`
fn source(alloc: Global, book: &mut Book, sub: NodeId) -> Result<NodeId, AllocError>
    requires { (H : Context) × IsFrom book.old sub H }
    ensures extends { Extends book.old book.new }
    ensures typed { IfOk result (λ node. (H : Context) → IsFrom book.old «sub» H
        → Says book.new node (Ctx H)) }
{
    let mut entries = Vec::new(alloc);
    let base = base_of_source(book, sub, &mut entries)?;
    let mut ctx = base_context(book, base)?;
    while let Some(entry) = entries.pop() {
        ctx = with_entry(book, ctx, entry)?;
    }
    Ok(ctx)
}

/// `id : H to H`, of `d : H to G`
pub fn identity_from(alloc: Global, book: &mut Book, sub: NodeId) -> Result<NodeId, AllocError>
    requires { (H : Context) × IsFrom book.old sub H }
    ensures extends { Extends book.old book.new }
    ensures typed { IfOk result (λ node. (H : Context) → IsFrom book.old «sub» H
        → Says book.new node (Sb H id H)) }
{
    let ctx = source(alloc, book, sub)?;
    Ok(identity(book, ctx)?)
}
