//! Forms of terms under substitutions.

ghost use Rattle.std.specs.Prelude.{◌≡◌, ◌<◌, IfOk, Some, length, slice_get};
ghost use Rattle.trees.specs.Trees.{Subst, Tree, apply};
ghost use Rattle.trees.specs.Judgements.{Context};
ghost use Rattle.trees.specs.Language.{Sb};
ghost use Rattle.book.specs.Shown.{Extends};
ghost use Rattle.typed_nodes.specs.Typed.{Says};
ghost use Rattle.literal_terms.specs.declared.forms.TermForm.TheVariants as form;
ghost use Rattle.literal_terms.specs.Forms.{IsFormed, IsPaired};

use crate::forms::Paired;
use book::{Book, Few, NodeId};
use book_shifts::laws_of_shifts;
use inversion_rules::{
    OPEN_LAM, OPEN_LAM_GIVES, OPEN_PAIR, OPEN_PAIR_GIVES, OPEN_PLAM, OPEN_PLAM_GIVES,
    forms_are_opened, statements_at_trees,
};
use literal_types::number_at;
use std::alloc::AllocError;
use typed_nodes::{derive_two, derived};

/// The node at a place.
fn node_at(nodes: &Few, place: usize) -> NodeId
    requires { place < length nodes.now }
    ensures { slice_get nodes.now place ≡ Some result.0 }
{
    NodeId(number_at(nodes.as_slice(), place))
}

/// The parts of a function, under a substitution.
pub fn function_under(
    book: &mut Book,
    sub: NodeId,
    domain: NodeId,
    body: NodeId,
) -> Result<(NodeId, NodeId), AllocError>
    requires { (H G : Context) × (d : Subst) × (t S : Tree) × Says book.old sub (Sb H d G)
        × IsFormed book.old (form.Function domain body) G t S }
    ensures extends { Extends book.old book.new }
    ensures formed { IfOk result (λ parts. (H G : Context) (d : Subst) (t S : Tree) →
        Says book.old sub (Sb H d G) → IsFormed book.old (form.Function domain body) G t S
        → IsFormed book.new (form.Function parts.0 parts.1) H (apply t d) (apply S d)) }
{
    forms_are_opened();
    statements_at_trees();
    laws_of_shifts(book);
    let premises = [sub.0, domain.0, body.0];
    Ok(derive_two(book, OPEN_LAM, OPEN_LAM_GIVES, &[], &premises)?)
}

/// The parts of a path, under a substitution.
pub fn path_under(
    book: &mut Book,
    sub: NodeId,
    body: NodeId,
    left: NodeId,
    right: NodeId,
) -> Result<(NodeId, NodeId, NodeId), AllocError>
    requires { (H G : Context) × (d : Subst) × (t S : Tree) × Says book.old sub (Sb H d G)
        × IsFormed book.old (form.Path body left right) G t S }
    ensures extends { Extends book.old book.new }
    ensures formed { IfOk result (λ parts. (H G : Context) (d : Subst) (t S : Tree) →
        Says book.old sub (Sb H d G) → IsFormed book.old (form.Path body left right) G t S
        → IsFormed book.new (form.Path parts.0 parts.1 parts.2) H (apply t d) (apply S d)) }
{
    forms_are_opened();
    statements_at_trees();
    laws_of_shifts(book);
    let premises = [sub.0, body.0, left.0, right.0];
    let nodes = derived(book, OPEN_PLAM, OPEN_PLAM_GIVES, &[], &premises)?;
    let body = node_at(&nodes, 0);
    let left = node_at(&nodes, 1);
    let right = node_at(&nodes, 2);
    Ok((body, left, right))
}

/// The parts of a pair, under a substitution.
pub fn pair_under(book: &mut Book, sub: NodeId, pair: Paired) -> Result<Paired, AllocError>
    requires { (H G : Context) × (d : Subst) × (t S : Tree) × Says book.old sub (Sb H d G)
        × IsPaired book.old pair G t S }
    ensures extends { Extends book.old book.new }
    ensures formed { IfOk result (λ parts. (H G : Context) (d : Subst) (t S : Tree) →
        Says book.old sub (Sb H d G) → IsPaired book.old pair G t S
        → IsPaired book.new parts H (apply t d) (apply S d)) }
{
    forms_are_opened();
    statements_at_trees();
    laws_of_shifts(book);
    let premises = [
        sub.0,
        pair.domain.0,
        pair.codomain.0,
        pair.left.0,
        pair.right.0,
    ];
    let nodes = derived(book, OPEN_PAIR, OPEN_PAIR_GIVES, &[], &premises)?;
    let domain = node_at(&nodes, 0);
    let codomain = node_at(&nodes, 1);
    let left = node_at(&nodes, 2);
    let right = node_at(&nodes, 3);
    Ok(Paired {
        domain,
        codomain,
        left,
        right,
    })
}
