//! Lists of substitutions that wait, as nodes that share their ends.

ghost use Rattle.std.specs.Prelude.{◌≤◌, ◌^◌, length};
ghost use Rattle.closures.specs.Environments.{AllEarlier};

use indexmap::IndexSet;
use rows::SubId;
use std::alloc::{AllocError, Global};

/// A substitution that waits.
#[derive(Clone, Copy, Debug, PartialEq, Eq, Hash)]
pub enum Delayed {
    /// The substitution of a row.
    Under(SubId),
    /// The shift by so many.
    Raised(u64),
}

/// A list of substitutions that wait, the first of them first.
#[derive(Clone, Copy, Debug, PartialEq, Eq, Hash)]
pub enum Environment {
    /// None waits.
    Empty,
    /// Those of a node, each under so many more binders.
    Node(usize, u64),
}

/// The substitution that waits first, under no binder, and what waits after it.
#[derive(Clone, Copy, Debug, PartialEq, Eq, Hash)]
pub struct Node {
    pub delayed: Delayed,
    pub rest: Environment,
}

/// The nodes of environments, each after those that it names. Equal environments have one node.
/// Contracts see the list that each node stands for. After out of memory the nodes are as before.
#[derive(Drop)]
pub struct Environments {
    nodes: IndexSet<Node>,
    ghost earlier: { AllEarlier nodes.keys },
    ghost few: { length nodes.keys ≤ 2 ^ 64 },
}

impl Environments {
    ghost use Rattle.std.specs.Prelude.{◌≡◌, ◌<◌, ◌≤◌, ◌+◌, ◌∷◌, [], length, slice_get, Some};
    ghost use Rattle.std.specs.Prelude.{IfOk, OnErr};
    ghost use Rattle.std.specs.List.{All};
    ghost use Rattle.rows.specs.Tables.{Grows};
    ghost use Rattle.closures.specs.Environments.{IsWithin, listed, deepened, waiting, deepest};
    ghost use Rattle.closures.specs.Shown.{lists};

    /// No nodes.
    pub fn new(alloc: Global) -> Environments
        ensures { lists result ≡ [] }
    {
        Environments {
            nodes: IndexSet::new(alloc),
        }
    }

    /// The allocator that the nodes keep.
    pub(crate) fn alloc(&self) -> Global {
        *self.nodes.allocator()
    }

    /// The number of nodes.
    pub fn len(&self) -> usize
        ensures { result ≡ length (lists self.now) }
    {
        self.nodes.len()
    }

    /// Forgets all nodes, and keeps their memory. The cost is that of the nodes, where `clear` of
    /// the set would go over all the room that the most nodes so far have taken.
    pub fn clear(&mut self)
        ensures { lists self.new ≡ [] }
    {
        self.nodes.truncate(0);
    }

    /// The node of this number.
    pub fn node(&self, at: usize) -> Node
        requires { at < length (lists self.now) }
        ensures list { let known = lists self.now in
            slice_get known at ≡ Some (waiting 0 result.delayed ∷ listed known result.rest) }
        ensures within { IsWithin (lists self.now) result.rest }
    {
        self.nodes[at]
    }

    /// The environment where one more substitution waits before the others, under no binder.
    pub fn push(&mut self, delayed: Delayed, rest: Environment) -> Result<Environment, AllocError>
        requires { IsWithin (lists self.old) rest }
        ensures grows { Grows (lists self.old) (lists self.new) }
        ensures list { IfOk result (λ env. listed (lists self.new) env ≡
            waiting 0 delayed ∷ listed (lists self.old) rest) }
        ensures within { IfOk result (λ env. IsWithin (lists self.new) env) }
        ensures err { OnErr result (lists self.new ≡ lists self.old) }
    {
        match self.nodes.insert_full(Node { delayed, rest }) {
            Ok((at, _)) => Ok(Environment::Node(at, 0)),
            Err(_) => Err(AllocError),
        }
    }

    /// The environment under so many more binders.
    pub fn deeper(&self, environment: Environment, by: u64) -> Environment
        requires within { IsWithin (lists self.now) environment }
        requires shallow { All (λ w. w.depth + by ≤ deepest) (listed (lists self.now) environment) }
        ensures list { listed (lists self.now) result ≡
            deepened by (listed (lists self.now) environment) }
        ensures within { IsWithin (lists self.now) result }
    {
        match environment {
            Environment::Empty => Environment::Empty,
            Environment::Node(at, lift) => Environment::Node(at, lift + by),
        }
    }
}
