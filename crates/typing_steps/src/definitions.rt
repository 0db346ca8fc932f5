//! Definitions.

ghost use Rattle.std.specs.Prelude.{IfOk};
ghost use Rattle.book.specs.Contents.{Contents};
ghost use Rattle.book.specs.Shown.{Extends};
ghost use Rattle.typing_steps.specs.Steps.{Finishes, MayStep, Plans, Steps};
ghost use Rattle.typing_tasks.specs.declared.tasks.Task.TheVariants.{Defining as DefiningOf};
ghost use Rattle.typing_tasks.specs.declared.tasks.Defining.TheVariants.{Block, Body, Close, End};

use crate::state::{CheckState, Root};
use book::Book;
use codes::{Code, CodeDef};
use std::alloc::AllocError;
use typing_tasks::{Binding, Defining, Inner, Next, Task, Tasks};

/// Definitions in order.
pub fn block<'a>(tasks: &mut Tasks<'a>, defs: &'a [CodeDef]) -> Result<Next, AllocError>
    ensures { IfOk result (Plans tasks.old tasks.new (DefiningOf (Block defs.entry))) }
{
    match defs {
        [] => Ok(Next::Moved),
        [def, rest @ ..] => Ok(tasks.plan(&[
            Task::Binding(Binding::Under(&def.binders, Inner::Definition(def))),
            Task::Defining(Defining::Close(def.number)),
            Task::Defining(Defining::Block(rest)),
        ])?),
    }
}

impl CheckState {
    /// To check a body at the type that was found last.
    pub fn body<'a>(
        &mut self,
        book: &mut Book,
        tasks: &mut Tasks<'a>,
        code: &'a Code,
    ) -> Result<Next, AllocError>
        requires { MayStep book.old self.old (DefiningOf (Body code)) }
        ensures extends { Extends book.old book.new }
        ensures steps { IfOk result (Steps book.old book.new self.old self.new
            tasks.old tasks.new (DefiningOf (Body code.entry))) }
    {
        let ty = self.type_here(book, self.last_node())?;
        Ok(tasks.plan(&[Task::Check(code, ty)])?)
    }

    /// To state a definition, whose type and body were found last.
    pub fn close_definition(&mut self, number: u32) -> Result<Next, AllocError>
        requires { (b : Contents) × MayStep b self.old (DefiningOf (Close number)) }
        ensures { IfOk result (λ next. (b : Contents) →
            Finishes b b self.old self.new (DefiningOf (Close number)) next) }
    {
        let body = self.take_node();
        let ty = self.take_node();
        self.define(number, Root { ty, body })?;
        Ok(Next::Moved)
    }

    /// To forget so many definitions.
    pub fn forget_definitions(&mut self, count: usize) -> Result<Next, AllocError>
        requires { (b : Contents) × MayStep b self.old (DefiningOf (End count)) }
        ensures { IfOk result (λ next. (b : Contents) →
            Finishes b b self.old self.new (DefiningOf (End count)) next) }
    {
        self.forget(count);
        Ok(Next::Moved)
    }
}
