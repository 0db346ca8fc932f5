//! What is in sight in a context or a type.

ghost use Rattle.std.specs.Prelude.{◌≡◌, IfOk, Some, true};
ghost use Rattle.trees.specs.Trees.{Tree};
ghost use Rattle.trees.specs.Judgements.{Context, Judgement, trees};
ghost use Rattle.trees.specs.Language.{Ctx, Ty};
ghost use Rattle.rules.specs.Table.{pathp};
ghost use Rattle.book.specs.Shown.{Extends};
ghost use Rattle.typed_nodes.specs.Typed.{IsFamily, IsLine, Says};
ghost use Rattle.presuppositions.specs.Behind.{behind};
ghost use Rattle.presuppositions.specs.Sought.{is_of_parts};
ghost use Rattle.presupposed.specs.Parts.{FamilyHas, IsInSight, LineHas};

use book::{Book, NodeId};
use literal_types::{Literal, literal};
use presuppositions::Label;
use std::alloc::{AllocError, Global};
use typed_nodes::{Family, Line, TypeAt, identity, term_instance, under_name, under_variable};

/// The type of the last entry of a context, or the context before a name or a face: the first
/// premise of the rule that made it.
pub fn last_entry(book: &Book, ctx: NodeId, label: Label) -> NodeId
    requires { (G : Context) × (J : Judgement) × Says book.now ctx (Ctx G)
        × IsInSight label G × (behind label (Ctx G) ≡ Some J) }
    ensures { (G : Context) (J : Judgement) → Says book.now ctx (Ctx G)
        → IsInSight label G → behind label (Ctx G) ≡ Some J → Says book.now result J }
{
    let premises = book.step(ctx).premises;
    NodeId(premises[0])
}

/// A part of a type of functions or pairs.
fn family_part(book: &mut Book, family: Family, label: Label) -> Result<NodeId, AllocError>
    requires { (G : Context) × (A B : Tree) × (J : Judgement) × IsFamily book.old family G A B
        × FamilyHas label G A B J }
    ensures extends { Extends book.old book.new }
    ensures typed { IfOk result (λ node. (G : Context) (A B : Tree) (J : Judgement) →
        IsFamily book.old family G A B → FamilyHas label G A B J → Says book.new node J) }
{
    match label {
        Label::Domain => {
            let domain = TypeAt {
                ty: family.domain,
                sub: family.sub,
            };
            Ok(domain.node(book)?)
        }
        Label::Codomain => {
            let sub = under_variable(book, family.sub, family.domain)?;
            let codomain = TypeAt {
                ty: family.codomain,
                sub,
            };
            Ok(codomain.node(book)?)
        }
        _ => unreachable!(),
    }
}

/// A part of a type of paths.
fn line_part(book: &mut Book, line: Line, label: Label) -> Result<NodeId, AllocError>
    requires { (G : Context) × (A u v : Tree) × (J : Judgement) × IsLine book.old line G A u v
        × LineHas label G A u v J }
    ensures extends { Extends book.old book.new }
    ensures typed { IfOk result (λ node. (G : Context) (A u v : Tree) (J : Judgement) →
        IsLine book.old line G A u v → LineHas label G A u v J → Says book.new node J) }
{
    match label {
        Label::Line => {
            let sub = under_name(book, line.sub)?;
            let ty = TypeAt { ty: line.ty, sub };
            Ok(ty.node(book)?)
        }
        Label::LeftEnd => Ok(term_instance(book, line.sub, line.left)?),
        Label::RightEnd => Ok(term_instance(book, line.sub, line.right)?),
        _ => unreachable!(),
    }
}

/// A part of a type that is of functions, of pairs or of paths.
pub fn part_of(
    alloc: Global,
    book: &mut Book,
    ctx: NodeId,
    ty: NodeId,
    label: Label,
) -> Result<NodeId, AllocError>
    requires { (G : Context) × (T : Tree) × (J : Judgement) × Says book.old ctx (Ctx G)
        × Says book.old ty (Ty G T) × (is_of_parts label ≡ true)
        × (behind label (Ty G T) ≡ Some J) }
    ensures extends { Extends book.old book.new }
    ensures typed { IfOk result (λ node. (G : Context) (T : Tree) (J : Judgement) →
        Says book.old ctx (Ctx G) → Says book.old ty (Ty G T) → is_of_parts label ≡ true
        → behind label (Ty G T) ≡ Some J → Says book.new node J) }
{
    let sub = identity(book, ctx)?;
    match literal(alloc, book, TypeAt { ty, sub })? {
        Literal::Pi(family) => Ok(family_part(book, family, label)?),
        Literal::Sigma(family) => Ok(family_part(book, family, label)?),
        Literal::Path(line) => Ok(line_part(book, line, label)?),
        Literal::Other => unreachable!(),
    }
}
