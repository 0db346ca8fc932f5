//! Nodes of substitutions, opened by their rules.

ghost use Rattle.std.specs.Prelude.{◌<◌};
ghost use Rattle.trees.specs.Trees.{Subst};
ghost use Rattle.trees.specs.Judgements.{Context};
ghost use Rattle.trees.specs.Language.{Sb};
ghost use Rattle.typed_nodes.specs.Typed.{Says};
ghost use Rattle.literal_types.specs.Openings.{weight};
ghost use Rattle.literal_types.specs.Substitutions.{IsFrom, Unfolds, substitution_weight};

use crate::entries::Entry;
use crate::openings::number_at;
use book::{Book, NodeId};
use theory::{ContextRule, RuleName};

/// What the rule of a node says of its substitution.
#[derive(Clone, Copy, Debug)]
pub enum Substitution {
    /// `id : M to M`, of `ctx M`
    Identity(NodeId),
    /// `d then e : M to K`, of `e : M to L` and `d : L to K`
    Composite(NodeId, NodeId),
    /// `d : L to K` past an entry of M, which is L with it
    Past(NodeId, Entry),
    /// `push d a : M to G.A`, of `d : M to G` and a typing of a
    Pushed(NodeId, NodeId),
    /// `push d r : M to G.I`, of `d : M to G`
    Formula(NodeId),
    /// `d : M to G.p`, of `d : M to G`
    OnFace(NodeId),
}

/// Opens a node of a substitution.
pub fn unfolded(book: &Book, node: NodeId) -> Substitution
    requires { (M : Context) × IsFrom book.now node M }
    ensures unfolds { (M K : Context) (d : Subst) → Says book.now node (Sb M d K)
        → Unfolds book.now result M d K }
    ensures less { substitution_weight result < weight node }
{
    let row = book.step(node);
    let RuleName::Contexts(rule) = row.rule else {
        unreachable!();
    };
    let first = NodeId(number_at(row.premises, 0));
    match rule {
        ContextRule::SubId => Substitution::Identity(first),
        ContextRule::SubWk => {
            let ty = NodeId(number_at(row.premises, 1));
            Substitution::Past(first, Entry::Variable(ty))
        }
        ContextRule::SubWkName => Substitution::Past(first, Entry::Name),
        ContextRule::SubWkFace => {
            let face = number_at(row.parts, 3);
            Substitution::Past(first, Entry::Face(face))
        }
        ContextRule::SubVar => {
            let term = NodeId(number_at(row.premises, 2));
            Substitution::Pushed(first, term)
        }
        ContextRule::SubForm => Substitution::Formula(first),
        ContextRule::SubFace => Substitution::OnFace(first),
        ContextRule::SubComp => {
            let second = NodeId(number_at(row.premises, 1));
            Substitution::Composite(first, second)
        }
        _ => unreachable!(),
    }
}
