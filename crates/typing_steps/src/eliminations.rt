//! What heads are applied to, projections, and successors.

ghost use Rattle.std.specs.Prelude.{◌≡◌, IfOk, List, [], ◌∷◌, Some};
ghost use Rattle.book.specs.Shown.{Extends};
ghost use Rattle.typing_steps.specs.Steps.{Finishes, MayStep, Steps};
ghost use Rattle.typing_tasks.specs.declared.tasks.Task.TheVariants.{Eliminating as EliminatingOf};
ghost use Rattle.typing_tasks.specs.declared.tasks.Eliminating.TheVariants.{Apply, Elements};
ghost use Rattle.typing_tasks.specs.declared.tasks.Eliminating.TheVariants.{Number};
ghost use Rattle.typing_tasks.specs.declared.tasks.Eliminating.TheVariants.{Project, Successor};
ghost use Rattle.trees.specs.Trees.{Tree};
ghost use Rattle.trees.specs.Judgements.{Context};
ghost use Rattle.trees.specs.Language.{Tm};
ghost use Rattle.translation.specs.Terms.{sig};
ghost use Rattle.translation.specs.Forms.{project};
ghost use Rattle.direct.specs.Typings.{projected};
ghost use Rattle.typed_nodes.specs.Typed.{IsFamily, IsTyped, Says};
ghost use Rattle.typing_tasks.specs.States.{Inferred, State};
ghost use Rattle.typing_tasks.specs.Tasks.{LastInferred};
ghost use Rattle.typing_steps.specs.Steps.{GoesAt, IsState};

use crate::formulas::formula_row;
use crate::state::CheckState;
use book::{Book, NodeId};
use codes::{Code, Element, Formula};
use literal_types::{Literal, literal};
use std::alloc::AllocError;
use syntax::Projection;
use typed_nodes::{Family, Typed, applied, first, path_at, second, successor};
use typing_tasks::{Eliminating, Next, Task, Tasks, domain_of};

/// The component of a pair that a projection takes.
fn component(
    book: &mut Book,
    family: Family,
    pair: NodeId,
    projection: &Projection,
) -> Result<Typed, AllocError>
    requires { (H : Context) × (A B c : Tree) × IsFamily book.old family H A B
        × Says book.old pair (Tm H c (sig A B)) }
    ensures extends { Extends book.old book.new }
    ensures typed { IfOk result (λ typed. (H : Context) (A B c : Tree) →
        IsFamily book.old family H A B → Says book.old pair (Tm H c (sig A B))
        → (C : Tree) × (projected (projection.now ∷ []) c (sig A B) ≡ Some C)
        × IsTyped book.new typed H (project c (projection.now ∷ [])) C) }
{
    match projection {
        Projection::First(_) => Ok(first(book, family, pair)?),
        Projection::Second(_) => Ok(second(book, family, pair)?),
    }
}

impl CheckState {
    /// What a head is applied to. The head was inferred last.
    pub fn elements<'a>(
        &mut self,
        book: &mut Book,
        tasks: &mut Tasks<'a>,
        elements: &'a [Element],
    ) -> Result<Next, AllocError>
        requires { MayStep book.old self.old (EliminatingOf (Elements elements)) }
        ensures extends { Extends book.old book.new }
        ensures steps { IfOk result (Steps book.old book.new self.old self.new
            tasks.old tasks.new (EliminatingOf (Elements elements.entry))) }
    {
        let [element, rest @ ..] = elements else {
            return Ok(Next::Moved);
        };
        match element {
            Element::Argument(code) => {
                let Literal::Pi(family) = literal(self.alloc, book, self.last_head().ty)? else {
                    return Ok(Next::NotDirect);
                };
                Ok(tasks.plan(&[
                    Task::Check(code, domain_of(family)),
                    Task::Eliminating(Eliminating::Apply(family)),
                    Task::Eliminating(Eliminating::Elements(rest)),
                ])?)
            }
            Element::At(_, formula) => {
                if self.at_formula(book, formula)? {
                    Ok(tasks.plan(&[Task::Eliminating(Eliminating::Elements(rest))])?)
                } else {
                    Ok(Next::NotDirect)
                }
            }
        }
    }

    /// A head, applied to the argument that was found last.
    pub fn apply(&mut self, book: &mut Book, family: Family) -> Result<Next, AllocError>
        requires { MayStep book.old self.old (EliminatingOf (Apply family)) }
        ensures extends { Extends book.old book.new }
        ensures done { IfOk result (Finishes book.old book.new self.old self.new
            (EliminatingOf (Apply family))) }
    {
        let argument = self.take_node();
        let head = self.take_head();
        let head = applied(book, family, head.term, argument)?;
        self.inferred(head)?;
        Ok(Next::Moved)
    }

    /// Projections of a pair, which was inferred last.
    pub fn project<'a>(
        &mut self,
        book: &mut Book,
        tasks: &mut Tasks<'a>,
        projections: &'a [Projection],
    ) -> Result<Next, AllocError>
        requires { MayStep book.old self.old (EliminatingOf (Project projections)) }
        ensures extends { Extends book.old book.new }
        ensures steps { IfOk result (Steps book.old book.new self.old self.new
            tasks.old tasks.new (EliminatingOf (Project projections.entry))) }
    {
        let [projection, rest @ ..] = projections else {
            return Ok(Next::Moved);
        };
        let pair = self.take_head();
        let Literal::Sigma(family) = literal(self.alloc, book, pair.ty)? else {
            return Ok(Next::NotDirect);
        };
        self.inferred(component(book, family, pair.term, projection)?)?;
        Ok(tasks.plan(&[Task::Eliminating(Eliminating::Project(rest))])?)
    }

    /// To check a number.
    pub fn number<'a>(
        &mut self,
        book: &mut Book,
        tasks: &mut Tasks<'a>,
        code: &'a Code,
    ) -> Result<Next, AllocError>
        requires { MayStep book.old self.old (EliminatingOf (Number code)) }
        ensures extends { Extends book.old book.new }
        ensures steps { IfOk result (Steps book.old book.new self.old self.new
            tasks.old tasks.new (EliminatingOf (Number code.entry))) }
    {
        let ty = self.numbers(book)?;
        Ok(tasks.plan(&[Task::Check(code, ty)])?)
    }

    /// The successor of the number that was found last.
    pub fn successor_of(&mut self, book: &mut Book) -> Result<Next, AllocError>
        requires { MayStep book.old self.old (EliminatingOf Successor) }
        ensures extends { Extends book.old book.new }
        ensures done { IfOk result (Finishes book.old book.new self.old self.new
            (EliminatingOf Successor)) }
    {
        let number = self.take_node();
        let term = successor(book, number)?;
        let ty = self.numbers(book)?;
        self.inferred(Typed { term, ty })?;
        Ok(Next::Moved)
    }

    /// The head that was inferred last, at a formula. The answer says whether it is a path, and the
    /// formula is one.
    fn at_formula(&mut self, book: &mut Book, formula: &Formula) -> Result<bool, AllocError>
        requires { (S : State) × (a A : Tree) × (rs : List Inferred) × IsState book.old self.old S
            × LastInferred S a A rs }
        ensures extends { Extends book.old book.new }
        ensures goes { IfOk result (λ direct. (S : State) (a A : Tree) (rs : List Inferred) →
            IsState book.old self.old S → LastInferred S a A rs
            → GoesAt book.new self.new direct formula.now a A rs S) }
    {
        let head = self.take_head();
        let Literal::Path(line) = literal(self.alloc, book, head.ty)? else {
            return Ok(false);
        };
        let Some(row) = formula_row(&self.places, book, formula)? else {
            return Ok(false);
        };
        let head = path_at(book, line, head.term, row)?;
        self.inferred(head)?;
        Ok(true)
    }
}
