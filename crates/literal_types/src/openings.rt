//! Nodes of types and terms, opened by their rules.

ghost use Rattle.std.specs.Prelude.{◌≡◌, ◌<◌, ◌≤◌, Some, length, slice_get};
ghost use Rattle.trees.specs.Trees.{Tree};
ghost use Rattle.trees.specs.Judgements.{Context};
ghost use Rattle.literal_types.specs.Openings.{Opens, Types, opening_weight, weight};

use crate::forms::Form;
use crate::ways::{Way, way_of_rule};
use book::{Book, NodeId};

/// What the rule of a node says of the tree that it types.
#[derive(Clone, Copy, Debug)]
pub enum Opening {
    /// It is the tree of that node.
    Same(NodeId),
    /// It is the tree of the second node, under the substitution of the first.
    Instance(NodeId, NodeId),
    /// It is the innermost variable.
    Variable,
    /// It is a form.
    Formed(Form),
    /// It is no form, under any substitution.
    Other,
}

/// The number at a place of a list.
pub fn number_at(numbers: &[u64], place: usize) -> u64
    requires { place < length numbers.now }
    ensures { slice_get numbers.now place ≡ Some result }
{
    numbers[place]
}

/// The first two of these premises.
pub fn first_two(premises: &[u64]) -> (NodeId, NodeId)
    requires { 2 ≤ length premises.now }
    ensures first { slice_get premises.now 0 ≡ Some result.0.0 }
    ensures second { slice_get premises.now 1 ≡ Some result.1.0 }
{
    let first = number_at(premises, 0);
    let second = number_at(premises, 1);
    (NodeId(first), NodeId(second))
}

/// Opens a node that types a tree.
pub fn opened(book: &Book, node: NodeId) -> Opening
    requires { (K : Context) × (A : Tree) × Types book.now node K A }
    ensures opens { (K : Context) (A : Tree) → Types book.now node K A
        → Opens book.now result K A }
    ensures less { opening_weight result < weight node }
{
    let row = book.step(node);
    match way_of_rule(row.rule) {
        Way::Same => Opening::Same(NodeId(number_at(row.premises, 0))),
        Way::Instance => {
            let (sub, term) = first_two(row.premises);
            Opening::Instance(sub, term)
        }
        Way::Variable => Opening::Variable,
        Way::Family(former, size) => {
            let (domain, codomain) = first_two(row.premises);
            Opening::Formed(Form::Family(former, size, domain, codomain))
        }
        Way::Line(size) => {
            let (line, left) = first_two(row.premises);
            let right = NodeId(number_at(row.premises, 2));
            Opening::Formed(Form::Line(size, line, left, right))
        }
        Way::Other => Opening::Other,
    }
}
