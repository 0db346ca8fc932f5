//! Scopes as nodes that share what is fixed further out.

ghost use Rattle.fixed_names.specs.Scopes.{AllEarlier};

use indexmap::IndexSet;
use std::alloc::{AllocError, Global};

/// Which names are fixed at a place of a tree, by index.
#[derive(Clone, Copy, Debug, PartialEq, Eq, Hash)]
pub enum Scope {
    /// None is.
    Open,
    /// Those of a node, below so many binders.
    Node(usize, u64),
}

/// One more name that is fixed.
#[derive(Clone, Copy, Debug, PartialEq, Eq, Hash)]
struct Fixing {
    index: u128,
    outer: Scope,
}

/// The nodes of scopes, each after the one that it names. Equal scopes have one node. Contracts see
/// what each node fixes. After out of memory the nodes are as before.
#[derive(Drop)]
pub struct Scopes {
    nodes: IndexSet<Fixing>,
    ghost earlier: { AllEarlier nodes.keys },
}

impl Scopes {
    ghost use Rattle.std.specs.Prelude.{◌≡◌, ◌↔◌, ◌<◌, ◌≤◌, ◌+◌, ◌^◌, [], IfOk, OnErr, IsTrue};
    ghost use Rattle.rows.specs.Tables.{Grows};
    ghost use Rattle.fixed_names.specs.Fixed.{IsFree, fix, bound};
    ghost use Rattle.fixed_names.specs.Scopes.{IsWithin, fixed_in, depth_of};
    ghost use Rattle.fixed_names.specs.Shown.{fixed_by};

    /// No nodes.
    pub fn new(alloc: Global) -> Scopes
        ensures { fixed_by result ≡ [] }
    {
        Scopes {
            nodes: IndexSet::new(alloc),
        }
    }

    /// The scope in which one more name is fixed.
    pub fn fix(&mut self, scope: Scope, index: u128) -> Result<Scope, AllocError>
        requires { IsWithin (fixed_by self.old) scope }
        ensures grows { Grows (fixed_by self.old) (fixed_by self.new) }
        ensures fixes { IfOk result (λ s.
            fixed_in (fixed_by self.new) s ≡ fix index (fixed_in (fixed_by self.old) scope)) }
        ensures within { IfOk result (IsWithin (fixed_by self.new)) }
        ensures depth { IfOk result (λ s. depth_of s ≡ 0) }
        ensures err { OnErr result (fixed_by self.new ≡ fixed_by self.old) }
    {
        match self.nodes.insert_full(Fixing {
            index,
            outer: scope,
        }) {
            Ok((at, _)) => Ok(Scope::Node(at, 0)),
            Err(_) => Err(AllocError),
        }
    }

    /// The scope below so many more binders.
    pub fn below(&self, scope: Scope, by: u64) -> Scope
        requires { depth_of scope + by < 2 ^ 64 }
        ensures fixes { fixed_in (fixed_by self.now) result
            ≡ bound by (fixed_in (fixed_by self.now) scope) }
        ensures within { IsWithin (fixed_by self.now) scope → IsWithin (fixed_by self.now) result }
        ensures depth { depth_of result ≤ depth_of scope + by }
    {
        match scope {
            Scope::Open => Scope::Open,
            Scope::Node(at, depth) => Scope::Node(at, depth + by),
        }
    }

    /// Whether the index is that of no name that is fixed.
    pub fn is_free(&self, scope: Scope, index: u128) -> bool
        requires { IsWithin (fixed_by self.now) scope }
        ensures { IsTrue result ↔ IsFree (fixed_in (fixed_by self.now) scope) index }
    {
        let mut scope = scope;
        let mut index = index;
        while let Scope::Node(at, depth) = scope {
            if index < u128::from(depth) {
                return true;
            }
            let node = self.nodes[at];
            index -= u128::from(depth);
            if index == node.index {
                return false;
            }
            scope = node.outer;
        }
        true
    }
}
