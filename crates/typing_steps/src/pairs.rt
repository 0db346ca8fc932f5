//! Pairs and paths, against types.

ghost use Rattle.std.specs.Prelude.{IfOk};
ghost use Rattle.book.specs.Shown.{Extends};
ghost use Rattle.typing_steps.specs.Steps.{Finishes, MayStep, Steps};
ghost use Rattle.typing_tasks.specs.declared.tasks.Task.TheVariants.{Pairing as PairingOf};
ghost use Rattle.typing_tasks.specs.declared.tasks.Pairing.TheVariants.{CloseName, Components};
ghost use Rattle.typing_tasks.specs.declared.tasks.Pairing.TheVariants.{Names};
ghost use Rattle.typing_tasks.specs.declared.tasks.Pairing.TheVariants.{Pair, Second};

use crate::state::CheckState;
use book::Book;
use codes::Code;
use literal_types::{Literal, literal};
use std::alloc::AllocError;
use typed_nodes::{Family, TypeAt, paired, path, type_row, under_name};
use typing_tasks::{Next, Pairing, Task, Tasks, codomain_at, domain_of};

impl CheckState {
    /// Components, against a type: the last at what is left of it.
    pub fn components<'a>(
        &mut self,
        book: &mut Book,
        tasks: &mut Tasks<'a>,
        components: &'a [Code],
        ty: TypeAt,
    ) -> Result<Next, AllocError>
        requires { MayStep book.old self.old (PairingOf (Components components ty)) }
        ensures extends { Extends book.old book.new }
        ensures steps { IfOk result (Steps book.old book.new self.old self.new
            tasks.old tasks.new (PairingOf (Components components.entry ty))) }
    {
        let [first, rest @ ..] = components else {
            return Ok(Next::NotDirect);
        };
        if rest.is_empty() {
            return Ok(tasks.plan(&[Task::Check(first, ty)])?);
        }
        let Literal::Sigma(family) = literal(self.alloc, book, ty)? else {
            return Ok(Next::NotDirect);
        };
        Ok(tasks.plan(&[
            Task::Check(first, domain_of(family)),
            Task::Pairing(Pairing::Second(rest, family)),
        ])?)
    }

    /// The other components, where the first was found last.
    pub fn second<'a>(
        &mut self,
        book: &mut Book,
        tasks: &mut Tasks<'a>,
        rest: &'a [Code],
        family: Family,
    ) -> Result<Next, AllocError>
        requires { MayStep book.old self.old (PairingOf (Second rest family)) }
        ensures extends { Extends book.old book.new }
        ensures steps { IfOk result (Steps book.old book.new self.old self.new
            tasks.old tasks.new (PairingOf (Second rest.entry family))) }
    {
        let ty = codomain_at(book, family, self.last_node())?;
        Ok(tasks.plan(&[
            Task::Pairing(Pairing::Components(rest, ty)),
            Task::Pairing(Pairing::Pair(family)),
        ])?)
    }

    /// The pair of the two components that were found last.
    pub fn pair(&mut self, book: &mut Book, family: Family) -> Result<Next, AllocError>
        requires { MayStep book.old self.old (PairingOf (Pair family)) }
        ensures extends { Extends book.old book.new }
        ensures done { IfOk result (Finishes book.old book.new self.old self.new
            (PairingOf (Pair family))) }
    {
        let second = self.take_node();
        let first = self.take_node();
        let node = paired(book, family, first, second)?;
        self.found(node)?;
        Ok(Next::Moved)
    }

    /// A body under so many names, against a type.
    pub fn names<'a>(
        &mut self,
        book: &mut Book,
        tasks: &mut Tasks<'a>,
        count: usize,
        code: &'a Code,
        ty: TypeAt,
    ) -> Result<Next, AllocError>
        requires { MayStep book.old self.old (PairingOf (Names count code ty)) }
        ensures extends { Extends book.old book.new }
        ensures steps { IfOk result (Steps book.old book.new self.old self.new
            tasks.old tasks.new (PairingOf (Names count code.entry ty))) }
    {
        if count == 0 {
            return Ok(tasks.plan(&[Task::Check(code, ty)])?);
        }
        let Literal::Path(line) = literal(self.alloc, book, ty)? else {
            return Ok(Next::NotDirect);
        };
        let sub = under_name(book, line.sub)?;
        self.enter_name(book)?;
        let inner = TypeAt { ty: line.ty, sub };
        Ok(tasks.plan(&[
            Task::Pairing(Pairing::Names(count - 1, code, inner)),
            Task::Pairing(Pairing::CloseName(ty)),
        ])?)
    }

    /// A path, whose body was found last. Its ends are those of the type.
    pub fn close_name(&mut self, book: &mut Book, ty: TypeAt) -> Result<Next, AllocError>
        requires { MayStep book.old self.old (PairingOf (CloseName ty)) }
        ensures extends { Extends book.old book.new }
        ensures done { IfOk result (Finishes book.old book.new self.old self.new
            (PairingOf (CloseName ty))) }
    {
        let body = self.take_node();
        self.leave();
        let node = path(book, self.ctx(), body)?;
        if !ty.is_row(book, type_row(book, node))? {
            return Ok(Next::NotDirect);
        }
        self.found(node)?;
        Ok(Next::Moved)
    }
}
