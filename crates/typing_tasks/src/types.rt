//! Types of the parts of a form, and judgements of either sort.

ghost use Rattle.std.specs.Prelude.{◌≡◌, IfOk, Some};
ghost use Rattle.trees.specs.Trees.{Tree};
ghost use Rattle.trees.specs.Things.{ATree};
ghost use Rattle.trees.specs.Judgements.{Context, WithVar};
ghost use Rattle.trees.specs.Language.{Tm, Ty};
ghost use Rattle.direct.specs.Literal.{at};
ghost use Rattle.book.specs.Contents.{Contents};
ghost use Rattle.book.specs.Shown.{Extends, book_means};
ghost use Rattle.typed_nodes.specs.Typed.{IsFamily, IsLine, IsTypeAt, Says};
ghost use Rattle.typing_tasks.specs.Outcomes.{formed, former_of};
ghost use Rattle.typing_tasks.specs.declared.tasks.Sort.TheVariants.{Small};

use crate::tasks::{Former, Sort};
use book::{Book, NodeId};
use rows::Maker;
use std::alloc::AllocError;
use typed_nodes::{
    Family, Line, TypeAt, pi_small, pi_type, pushed, sigma_small, sigma_type, small_type,
    subject_row, substitution_row, under_variable,
};

/// The domain of a family.
pub fn domain_of(family: Family) -> TypeAt
    ensures { (b : Contents) (H : Context) (A B : Tree) → IsFamily b family H A B →
        IsTypeAt b result H A }
{
    TypeAt {
        ty: family.domain,
        sub: family.sub,
    }
}

/// The codomain of a family at a term.
pub fn codomain_at(book: &mut Book, family: Family, term: NodeId) -> Result<TypeAt, AllocError>
    requires { (H : Context) × (A B a : Tree) × IsFamily book.old family H A B
        × Says book.old term (Tm H a A) }
    ensures extends { Extends book.old book.new }
    ensures typed { IfOk result (λ ty. (H : Context) (A B a : Tree) →
        IsFamily book.old family H A B → Says book.old term (Tm H a A)
        → IsTypeAt book.new ty H (at B a)) }
{
    let sub = pushed(book, family.sub, family.domain, term)?;
    Ok(TypeAt {
        ty: family.codomain,
        sub,
    })
}

/// The codomain of a family under one more variable.
pub fn codomain_under(book: &mut Book, family: Family) -> Result<TypeAt, AllocError>
    requires { (H : Context) × (A B : Tree) × IsFamily book.old family H A B }
    ensures extends { Extends book.old book.new }
    ensures typed { IfOk result (λ ty. (H : Context) (A B : Tree) →
        IsFamily book.old family H A B → IsTypeAt book.new ty (WithVar H A) B) }
{
    let sub = under_variable(book, family.sub, family.domain)?;
    Ok(TypeAt {
        ty: family.codomain,
        sub,
    })
}

/// The rows of the ends of a type of paths.
pub fn end_rows(book: &mut Book, line: Line) -> Result<(u64, u64), AllocError>
    requires { (H : Context) × (A u v : Tree) × IsLine book.old line H A u v }
    ensures extends { Extends book.old book.new }
    ensures rows { IfOk result (λ ends. (H : Context) (A u v : Tree) → IsLine book.old line H A u v
        → (book_means book.new ends.0 ≡ Some (ATree u))
        × (book_means book.new ends.1 ≡ Some (ATree v))) }
{
    let sub = substitution_row(book, line.sub);
    let left = book.instance(subject_row(book, line.left), sub)?;
    let right = book.instance(subject_row(book, line.right), sub)?;
    Ok((left, right))
}

/// A type of either sort, as a type.
pub fn as_type(book: &mut Book, node: NodeId, sort: Sort) -> Result<NodeId, AllocError>
    requires { (H : Context) × (A : Tree) × Says book.old node (formed sort H A) }
    ensures extends { Extends book.old book.new }
    ensures typed { IfOk result (λ ty. (H : Context) (A : Tree) →
        Says book.old node (formed sort H A) → Says book.new ty (Ty H A)) }
{
    match sort {
        Sort::Large => Ok(node),
        Sort::Small => Ok(small_type(book, node)?),
    }
}

/// A term of the universe, as a type of either sort.
pub fn of_sort(book: &mut Book, term: NodeId, sort: Sort) -> Result<NodeId, AllocError>
    requires { (H : Context) × (A : Tree) × Says book.old term (formed Small H A) }
    ensures extends { Extends book.old book.new }
    ensures typed { IfOk result (λ node. (H : Context) (A : Tree) →
        Says book.old term (formed Small H A) → Says book.new node (formed sort H A)) }
{
    match sort {
        Sort::Large => Ok(small_type(book, term)?),
        Sort::Small => Ok(term),
    }
}

/// A type of functions or pairs, of either sort.
pub fn family_of(
    book: &mut Book,
    former: Former,
    sort: Sort,
    domain: NodeId,
    codomain: NodeId,
) -> Result<NodeId, AllocError>
    requires { (H : Context) × (A B : Tree) × Says book.old domain (formed sort H A)
        × Says book.old codomain (formed sort (WithVar H A) B) }
    ensures extends { Extends book.old book.new }
    ensures typed { IfOk result (λ node. (H : Context) (A B : Tree) →
        Says book.old domain (formed sort H A)
        → Says book.old codomain (formed sort (WithVar H A) B)
        → Says book.new node (formed sort H (former_of former A B))) }
{
    match (former, sort) {
        (Former::Pi, Sort::Large) => Ok(pi_type(book, domain, codomain)?),
        (Former::Pi, Sort::Small) => Ok(pi_small(book, domain, codomain)?),
        (Former::Sigma, Sort::Large) => Ok(sigma_type(book, domain, codomain)?),
        (Former::Sigma, Sort::Small) => Ok(sigma_small(book, domain, codomain)?),
    }
}
