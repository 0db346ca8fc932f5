//! Types that stand under substitutions.

use crate::instances::type_instance;
use crate::node_rows::{subject_row, substitution_row};
use book::{Book, NodeId};
use rows::{Maker, TermId};
use std::alloc::AllocError;

/// A type of H: `A[d]`, where `G >> A` and `d : H to G`.
#[derive(Clone, Copy, Debug, PartialEq, Eq)]
pub struct TypeAt {
    pub ty: NodeId,
    pub sub: NodeId,
}

/// A term with its type: `H >> a : A[d]`.
#[derive(Clone, Copy, Debug, PartialEq, Eq)]
pub struct Typed {
    pub term: NodeId,
    pub ty: TypeAt,
}

/// The parts of a type of functions or pairs of H: `(pi A B)[d]` or `(sig A B)[d]`, where `G >> A`,
/// `G.A >> B` and `d : H to G`.
#[derive(Clone, Copy, Debug)]
pub struct Family {
    pub domain: NodeId,
    pub codomain: NodeId,
    pub sub: NodeId,
}

/// The parts of a type of paths of H: `(pathp A u v)[d]`, where `G.I >> A`, `G >> u : A{0}`,
/// `G >> v : A{1}` and `d : H to G`.
#[derive(Clone, Copy, Debug)]
pub struct Line {
    pub ty: NodeId,
    pub left: NodeId,
    pub right: NodeId,
    pub sub: NodeId,
}

impl TypeAt {
    ghost use Rattle.std.specs.Prelude.{◌≡◌, ◌↔◌, IfOk, IsTrue, Some};
    ghost use Rattle.trees.specs.Judgements.{Context};
    ghost use Rattle.trees.specs.Language.{Ty};
    ghost use Rattle.trees.specs.Things.{ATree};
    ghost use Rattle.trees.specs.Trees.{Tree};
    ghost use Rattle.book.specs.Shown.{Extends, book_means};
    ghost use Rattle.typed_nodes.specs.Typed.{IsTypeAt, Says};

    /// Its node in H.
    pub fn node(self, book: &mut Book) -> Result<NodeId, AllocError>
        requires { (H : Context) × (A : Tree) × IsTypeAt book.old self H A }
        ensures extends { Extends book.old book.new }
        ensures typed { IfOk result (λ node. (H : Context) (A : Tree) →
            IsTypeAt book.old self H A → Says book.new node (Ty H A)) }
    {
        Ok(type_instance(book, self.sub, self.ty)?)
    }

    /// The row of its tree.
    pub fn row(self, book: &mut Book) -> Result<u64, AllocError>
        requires { (H : Context) × (A : Tree) × IsTypeAt book.old self H A }
        ensures extends { Extends book.old book.new }
        ensures meaning { IfOk result (λ row. (H : Context) (A : Tree) →
            IsTypeAt book.old self H A → book_means book.new row ≡ Some (ATree A)) }
    {
        let ty = subject_row(book, self.ty);
        let sub = substitution_row(book, self.sub);
        Ok(book.instance(ty, sub)?)
    }

    /// Whether two types of one context are the same tree.
    pub fn is_same(self, book: &mut Book, other: TypeAt) -> Result<bool, AllocError>
        requires { (H : Context) × (A B : Tree) × IsTypeAt book.old self H A
            × IsTypeAt book.old other H B }
        ensures extends { Extends book.old book.new }
        ensures same { IfOk result (λ same. (H : Context) (A B : Tree) →
            IsTypeAt book.old self H A → IsTypeAt book.old other H B → IsTrue same ↔ (A ≡ B)) }
    {
        if self == other {
            return Ok(true);
        }
        let left = self.row(book)?;
        let right = other.row(book)?;
        Ok(book.same_tree(TermId(left), TermId(right))?)
    }

    /// Whether its tree is that of the row.
    pub fn is_row(self, book: &mut Book, row: u64) -> Result<bool, AllocError>
        requires { (H : Context) × (A B : Tree) × IsTypeAt book.old self H A
            × (book_means book.old row ≡ Some (ATree B)) }
        ensures extends { Extends book.old book.new }
        ensures same { IfOk result (λ same. (H : Context) (A B : Tree) →
            IsTypeAt book.old self H A → book_means book.old row ≡ Some (ATree B)
            → IsTrue same ↔ (A ≡ B)) }
    {
        let own = self.row(book)?;
        Ok(book.same_tree(TermId(own), TermId(row))?)
    }
}
