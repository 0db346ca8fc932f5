//! Nodes of terms, opened by their rules.

ghost use Rattle.std.specs.Prelude.{◌≡◌, ◌<◌, ◌≤◌, Some, length, slice_get};
ghost use Rattle.trees.specs.Trees.{Tree};
ghost use Rattle.trees.specs.Judgements.{Context};
ghost use Rattle.trees.specs.Language.{Tm, TyEq};
ghost use Rattle.typed_nodes.specs.Typed.{Says};
ghost use Rattle.literal_types.specs.Openings.{weight};
ghost use Rattle.literal_terms.specs.Origins.{ArePremises, Comes, origin_weight};

use crate::forms::{Glued, TermForm};
use crate::ways::{Way, way_of_rule};
use book::{Book, NodeId};
use literal_types::{first_two, number_at};
use typed_nodes::type_row;

/// What the rule of a node says of the term that it types.
#[derive(Clone, Copy, Debug)]
pub enum Origin {
    /// It is the term of that node, at the same type.
    Same(NodeId),
    /// It is the term of the first node, whose type the second says is that of the term.
    Converted(NodeId, NodeId),
    /// It is the term of the second node, under the substitution of the first.
    Instance(NodeId, NodeId),
    /// It is the innermost variable.
    Variable,
    /// It is a form.
    Formed(TermForm),
    /// It is no form, under any substitution.
    Other,
}

/// The first three of these premises.
fn first_three(premises: &[u64]) -> (NodeId, NodeId, NodeId)
    requires { 3 ≤ length premises.now }
    ensures first { slice_get premises.now 0 ≡ Some result.0.0 }
    ensures second { slice_get premises.now 1 ≡ Some result.1.0 }
    ensures third { slice_get premises.now 2 ≡ Some result.2.0 }
{
    let (first, second) = first_two(premises);
    let third = number_at(premises, 2);
    (first, second, NodeId(third))
}

/// These premises of the rule of glued terms.
fn glued_by(premises: &[u64]) -> Glued
    requires { 6 ≤ length premises.now }
    ensures { ArePremises premises.now result }
{
    let (base, side) = first_two(premises);
    let equivalence = number_at(premises, 2);
    let inner = number_at(premises, 3);
    let outer = number_at(premises, 4);
    let agrees = number_at(premises, 5);
    Glued {
        base,
        side,
        equivalence: NodeId(equivalence),
        inner: NodeId(inner),
        outer: NodeId(outer),
        agrees: NodeId(agrees),
    }
}

/// A conversion, where it changes the type.
fn converted(book: &Book, node: NodeId, term: NodeId, equation: NodeId) -> Origin
    requires { (K : Context) × (t R S : Tree) × Says book.now node (Tm K t S)
        × Says book.now term (Tm K t R) × Says book.now equation (TyEq K R S)
        × (term.0 < node.0) }
    ensures comes { (K : Context) (t R S : Tree) → Says book.now node (Tm K t S)
        → Says book.now term (Tm K t R) → Says book.now equation (TyEq K R S)
        → Comes book.now result K t S }
    ensures less { origin_weight result < weight node }
{
    if type_row(book, term) == type_row(book, node) {
        return Origin::Same(term);
    }
    Origin::Converted(term, equation)
}

/// Opens a node that types a term.
pub fn opened(book: &Book, node: NodeId) -> Origin
    requires { (K : Context) × (t S : Tree) × Says book.now node (Tm K t S) }
    ensures comes { (K : Context) (t S : Tree) → Says book.now node (Tm K t S)
        → Comes book.now result K t S }
    ensures less { origin_weight result < weight node }
{
    let row = book.step(node);
    match way_of_rule(row.rule) {
        Way::Converted => {
            let (term, equation) = first_two(row.premises);
            converted(book, node, term, equation)
        }
        Way::Instance => {
            let (sub, term) = first_two(row.premises);
            Origin::Instance(sub, term)
        }
        Way::Variable => Origin::Variable,
        Way::Function => {
            let (domain, body) = first_two(row.premises);
            Origin::Formed(TermForm::Function(domain, body))
        }
        Way::Pair => {
            let (codomain, left, right) = first_three(row.premises);
            Origin::Formed(TermForm::Pair(codomain, left, right))
        }
        Way::Path => {
            let (body, start, end) = first_three(row.premises);
            Origin::Formed(TermForm::Path(body, start, end))
        }
        Way::Glued => Origin::Formed(TermForm::Glued(glued_by(row.premises))),
        Way::Type => Origin::Formed(TermForm::Type(node)),
        Way::Other => Origin::Other,
    }
}
