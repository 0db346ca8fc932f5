//! What was found so far.

use book::NodeId;
use indexmap::IndexMap;
use presuppositions::Label;
use std::alloc::{AllocError, Global};

/// What stands behind the conclusion of a node.
#[derive(Clone, Copy, Debug, PartialEq, Eq, Hash)]
pub struct Question {
    pub node: NodeId,
    pub label: Label,
}

/// The nodes that answer questions, so that none is answered twice.
#[derive(Drop)]
pub struct Memory {
    nodes: IndexMap<Question, NodeId>,
}

impl Memory {
    ghost use Rattle.std.specs.Prelude.{◌≡◌, OnOk, None};
    ghost use Rattle.presupposed.specs.Memory.{IsRemembered, remembered};

    /// Nothing was found yet.
    pub fn new(alloc: Global) -> Memory
        ensures { (q : Question) → remembered result q ≡ None }
    {
        Memory {
            nodes: IndexMap::new(alloc),
        }
    }

    /// The node that was found, if there is one.
    pub fn get(&self, question: Question) -> Option<NodeId>
        ensures { result ≡ remembered self.now question }
    {
        self.nodes.get(&question).copied()
    }

    /// Remembers what was found.
    pub fn insert(&mut self, question: Question, node: NodeId) -> Result<(), AllocError>
        ensures { OnOk result (IsRemembered question node self.old self.new) }
    {
        self.nodes.insert(question, node)?;
        Ok(())
    }
}
