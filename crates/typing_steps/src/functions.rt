//! Types of functions and pairs, and functions.

ghost use Rattle.std.specs.Prelude.{◌≡◌, IfOk, List, OnOk, Option, Some, None, ◌∷◌};
ghost use Rattle.book.specs.Shown.{Extends};
ghost use Rattle.typing_steps.specs.Steps.{Finishes, MayStep, Plans, Steps};
ghost use Rattle.typing_tasks.specs.declared.tasks.Task.TheVariants.{Binding as BindingOf};
ghost use Rattle.typing_tasks.specs.declared.tasks.Binding.TheVariants.{Close, CloseFunction};
ghost use Rattle.typing_tasks.specs.declared.tasks.Binding.TheVariants.{Lambda};
ghost use Rattle.typing_tasks.specs.declared.tasks.Binding.TheVariants.{Over, Take, Under};
ghost use Rattle.trees.specs.Trees.{Tree};
ghost use Rattle.trees.specs.Judgements.{Judgement};
ghost use Rattle.trees.specs.Language.{Ty};
ghost use Rattle.translation.specs.Terms.{lifted};
ghost use Rattle.direct.specs.Known.{Known, Variable};
ghost use Rattle.typed_nodes.specs.Typed.{IsTypeAt};
ghost use Rattle.typing_tasks.specs.States.{State, finding, place, place_of, under as entered};
ghost use Rattle.typing_tasks.specs.Outcomes.{formed};
ghost use Rattle.typing_tasks.specs.declared.tasks.Next.TheVariants.{Moved};
ghost use Rattle.typing_tasks.specs.Tasks.{ClosesFamily, ClosesInferred, ClosesStated};
ghost use Rattle.typing_steps.specs.Steps.{IsState, Settles, Takes};

use crate::state::CheckState;
use book::Book;
use codes::{Binder, Code};
use literal_types::{Literal, literal};
use std::alloc::AllocError;
use typed_nodes::{TypeAt, Typed, function, pi_type};
use typing_tasks::{
    Binding, Closing, Defining, Former, Inner, Next, Sort, Task, Tasks, as_type, codomain_under,
    domain_of, family_of,
};

/// What stands under binders.
pub fn under<'a>(
    tasks: &mut Tasks<'a>,
    binders: &'a [Binder],
    inner: Inner<'a>,
) -> Result<Next, AllocError>
    ensures { IfOk result (Plans tasks.old tasks.new
        (BindingOf (Under binders.entry inner.entry))) }
{
    match (binders, inner) {
        ([], Inner::Family(_, sort, code)) => Ok(tasks.plan(&[Task::Form(code, sort)])?),
        ([], Inner::Function(code)) => Ok(tasks.plan(&[Task::Infer(code)])?),
        ([], Inner::Definition(def)) => Ok(tasks.plan(&[
            Task::Form(&def.ty, Sort::Large),
            Task::Defining(Defining::Body(&def.body)),
        ])?),
        ([binder, rest @ ..], _) => Ok(tasks.plan(&[
            Task::Form(&binder.ty, inner.sort()),
            Task::Binding(Binding::Over(binder.names, rest, inner)),
        ])?),
    }
}

/// A function of these binders, against a type.
pub fn lambda<'a>(
    tasks: &mut Tasks<'a>,
    binders: &'a [Binder],
    code: &'a Code,
    ty: TypeAt,
) -> Result<Next, AllocError>
    ensures { IfOk result (Plans tasks.old tasks.new
        (BindingOf (Lambda binders.entry code.entry ty))) }
{
    match binders {
        [] => Ok(tasks.plan(&[Task::Check(code, ty)])?),
        [binder, rest @ ..] => Ok(tasks.plan(&[
            Task::Form(&binder.ty, Sort::Large),
            Task::Binding(Binding::Take(binder.names, rest, code, ty)),
        ])?),
    }
}

impl CheckState {
    /// What stands under so many variables of the type that was found last, and then binders.
    pub fn over<'a>(
        &mut self,
        book: &mut Book,
        tasks: &mut Tasks<'a>,
        count: usize,
        binders: &'a [Binder],
        inner: Inner<'a>,
    ) -> Result<Next, AllocError>
        requires { MayStep book.old self.old (BindingOf (Over count binders inner)) }
        ensures extends { Extends book.old book.new }
        ensures steps { IfOk result (Steps book.old book.new self.old self.new
            tasks.old tasks.new (BindingOf (Over count binders.entry inner.entry))) }
    {
        if count == 0 {
            let _ty = self.take_node();
            return Ok(tasks.plan(&[Task::Binding(Binding::Under(binders, inner))])?);
        }
        self.enter_found(book, inner.sort())?;
        let close = Task::Binding(Binding::Close(inner.closing()));
        if count == 1 {
            return Ok(tasks.plan(&[Task::Binding(Binding::Under(binders, inner)), close])?);
        }
        self.find_lifted(book, inner.sort())?;
        Ok(tasks.plan(&[
            Task::Binding(Binding::Over(count - 1, binders, inner)),
            close,
        ])?)
    }

    /// What is formed over the last variable.
    pub fn close(&mut self, book: &mut Book, closing: Closing) -> Result<Next, AllocError>
        requires { MayStep book.old self.old (BindingOf (Close closing)) }
        ensures extends { Extends book.old book.new }
        ensures done { IfOk result (Finishes book.old book.new self.old self.new
            (BindingOf (Close closing))) }
    {
        match closing {
            Closing::Family(former, sort) => self.close_family(book, former, sort)?,
            Closing::Function => self.close_inferred(book)?,
            Closing::Definition => self.close_stated(book)?,
        }
        Ok(Next::Moved)
    }

    /// A function of so many variables of the type that was found last, and then binders,
    /// against a type.
    pub fn take<'a>(
        &mut self,
        book: &mut Book,
        tasks: &mut Tasks<'a>,
        count: usize,
        binders: &'a [Binder],
        code: &'a Code,
        ty: TypeAt,
    ) -> Result<Next, AllocError>
        requires { MayStep book.old self.old (BindingOf (Take count binders code ty)) }
        ensures extends { Extends book.old book.new }
        ensures steps { IfOk result (Steps book.old book.new self.old self.new
            tasks.old tasks.new (BindingOf (Take count binders.entry code.entry ty))) }
    {
        if count == 0 {
            let _ty = self.take_node();
            return Ok(tasks.plan(&[Task::Binding(Binding::Lambda(binders, code, ty))])?);
        }
        let Some(rest) = self.take_variable(book, ty)? else {
            return Ok(Next::NotDirect);
        };
        let close = Task::Binding(Binding::CloseFunction);
        if count == 1 {
            return Ok(tasks.plan(&[Task::Binding(Binding::Lambda(binders, code, rest)), close])?);
        }
        self.find_lifted(book, Sort::Large)?;
        Ok(tasks.plan(&[
            Task::Binding(Binding::Take(count - 1, binders, code, rest)),
            close,
        ])?)
    }

    /// A function of the last variable.
    pub fn close_function(&mut self, book: &mut Book) -> Result<Next, AllocError>
        requires { MayStep book.old self.old (BindingOf CloseFunction) }
        ensures extends { Extends book.old book.new }
        ensures done { IfOk result (Finishes book.old book.new self.old self.new
            (BindingOf CloseFunction)) }
    {
        let body = self.take_node();
        let domain = self.take_node();
        self.leave();
        let node = function(book, domain, body)?;
        self.found(node)?;
        Ok(Next::Moved)
    }

    /// Goes under a variable of the type that was found last, which stays.
    fn enter_found(&mut self, book: &mut Book, sort: Sort) -> Result<(), AllocError>
        requires { (S : State) × (A : Tree) × (js : List Judgement) × IsState book.old self.old S
            × (S.found ≡ formed sort (place S) A ∷ js) }
        ensures extends { Extends book.old book.new }
        ensures enters { OnOk result ((S : State) (A : Tree) (js : List Judgement) →
            IsState book.old self.old S → S.found ≡ formed sort (place S) A ∷ js
            → IsState book.new self.new (entered (Variable A) S)) }
    {
        let ty = as_type(book, self.last_node(), sort)?;
        self.enter(book, ty)?;
        Ok(())
    }

    /// Finds the type that was found last before the last variable, once more under it.
    fn find_lifted(&mut self, book: &mut Book, sort: Sort) -> Result<(), AllocError>
        requires { (S : State) × (G : Known) × (A B : Tree) × (js : List Judgement)
            × IsState book.old self.old S × (S.known ≡ Variable B ∷ G)
            × (S.found ≡ formed sort (place_of G) A ∷ js) }
        ensures extends { Extends book.old book.new }
        ensures finds { OnOk result ((S : State) (G : Known) (A B : Tree) (js : List Judgement) →
            IsState book.old self.old S → S.known ≡ Variable B ∷ G
            → S.found ≡ formed sort (place_of G) A ∷ js
            → IsState book.new self.new (finding (formed sort (place S) (lifted A)) S)) }
    {
        let node = self.last_node();
        let level = self.places.depth() - 1;
        let lifted = match sort {
            Sort::Large => self.places.type_from(book, node, level)?,
            Sort::Small => self.places.term_from(book, node, level)?,
        };
        self.found(lifted)?;
        Ok(())
    }

    /// A type of functions or pairs, over the last variable.
    fn close_family(
        &mut self,
        book: &mut Book,
        former: Former,
        sort: Sort,
    ) -> Result<(), AllocError>
        requires { (S : State) × (M : Option State) × IsState book.old self.old S
            × ClosesFamily former sort S M }
        ensures extends { Extends book.old book.new }
        ensures closes { OnOk result ((S : State) (M : Option State) →
            IsState book.old self.old S → ClosesFamily former sort S M
            → Settles book.new self.new Moved M) }
    {
        let codomain = self.take_node();
        let domain = self.take_node();
        self.leave();
        let node = family_of(book, former, sort, domain, codomain)?;
        self.found(node)?;
        Ok(())
    }

    /// A function of the last variable, whose body was inferred last.
    fn close_inferred(&mut self, book: &mut Book) -> Result<(), AllocError>
        requires { (S : State) × (M : Option State) × IsState book.old self.old S
            × ClosesInferred S M }
        ensures extends { Extends book.old book.new }
        ensures closes { OnOk result ((S : State) (M : Option State) →
            IsState book.old self.old S → ClosesInferred S M → Settles book.new self.new Moved M) }
    {
        let body = self.take_head();
        let domain = self.take_node();
        self.leave();
        let codomain = body.ty.node(book)?;
        let term = function(book, domain, body.term)?;
        let ty = pi_type(book, domain, codomain)?;
        let ty = self.type_here(book, ty)?;
        self.inferred(Typed { term, ty })?;
        Ok(())
    }

    /// The type and the body of a definition, over the last variable.
    fn close_stated(&mut self, book: &mut Book) -> Result<(), AllocError>
        requires { (S : State) × (M : Option State) × IsState book.old self.old S
            × ClosesStated S M }
        ensures extends { Extends book.old book.new }
        ensures closes { OnOk result ((S : State) (M : Option State) →
            IsState book.old self.old S → ClosesStated S M → Settles book.new self.new Moved M) }
    {
        let body = self.take_node();
        let codomain = self.take_node();
        let domain = self.take_node();
        self.leave();
        let ty = pi_type(book, domain, codomain)?;
        let body = function(book, domain, body)?;
        self.found(ty)?;
        self.found(body)?;
        Ok(())
    }

    /// Goes under a variable of the type that was found last, which stays, where a type is
    /// literally one of functions from it. The answer is what is left of that type.
    fn take_variable(&mut self, book: &mut Book, ty: TypeAt) -> Result<Option<TypeAt>, AllocError>
        requires { (S : State) × (A W : Tree) × (js : List Judgement) × IsState book.old self.old S
            × (S.found ≡ Ty (place S) A ∷ js) × IsTypeAt book.old ty (place S) W }
        ensures extends { Extends book.old book.new }
        ensures takes { IfOk result (λ left. (S : State) (A W : Tree) (js : List Judgement) →
            IsState book.old self.old S → S.found ≡ Ty (place S) A ∷ js
            → IsTypeAt book.old ty (place S) W → Takes book.new self.new left A W S) }
    {
        let Literal::Pi(family) = literal(self.alloc, book, ty)? else {
            return Ok(None);
        };
        let node = self.last_node();
        let here = self.type_here(book, node)?;
        if !here.is_same(book, domain_of(family))? {
            return Ok(None);
        }
        self.enter(book, node)?;
        let rest = codomain_under(book, family)?;
        Ok(Some(rest))
    }
}
