//! Recursion over the numbers.

ghost use Rattle.std.specs.Prelude.{◌≡◌, IfOk, Some};
ghost use Rattle.trees.specs.Things.{ATree};
ghost use Rattle.translation.specs.Terms.{nat, pi, universe};
ghost use Rattle.book.specs.Shown.{Extends, book_means};
ghost use Rattle.typing_steps.specs.Steps.{Finishes, MayStep, Plans, Steps};
ghost use Rattle.typing_tasks.specs.declared.tasks.Task.TheVariants.{Recurring as RecurringOf};
ghost use Rattle.typing_tasks.specs.declared.tasks.Recurring.TheVariants.{Base, Close, EnterNumber};
ghost use Rattle.typing_tasks.specs.declared.tasks.Recurring.TheVariants.{FamilyOfNumbers, Motive};
ghost use Rattle.typing_tasks.specs.declared.tasks.Recurring.TheVariants.{Step};

use crate::state::CheckState;
use book::Book;
use codes::{Code, Opened};
use rows::Maker;
use std::alloc::AllocError;
use trees::Op;
use typed_nodes::{
    TypeAt, family_of_numbers, motive_start, motive_step, numbers_type, recursion, small_type,
};
use typing_tasks::{Lining, Next, Recurring, Sort, Task, Tasks};

/// A motive, as a type over a number.
pub fn motive<'a>(tasks: &mut Tasks<'a>, motive: &'a Opened) -> Result<Next, AllocError>
    ensures { IfOk result (Plans tasks.old tasks.new (RecurringOf (Motive motive.entry))) }
{
    match motive {
        Opened::Under(_, code) => Ok(tasks.plan(&[
            Task::Recurring(Recurring::EnterNumber),
            Task::Form(code, Sort::Large),
            Task::Lining(Lining::Leave),
        ])?),
        Opened::Applied(_, code) => {
            Ok(tasks.plan(&[
                Task::Infer(code),
                Task::Recurring(Recurring::FamilyOfNumbers),
            ])?)
        }
    }
}

/// The row of the type of families of types of the numbers.
fn families_row(book: &mut Book) -> Result<u64, AllocError>
    ensures extends { Extends book.old book.new }
    ensures meaning { IfOk result (λ row.
        book_means book.new row ≡ Some (ATree (pi nat universe))) }
{
    let numbers = book.make(Op::Nat, &[])?;
    let universe = book.make(Op::U, &[])?;
    Ok(book.make(Op::Pi, &[numbers, universe])?)
}

impl CheckState {
    /// Goes under a number.
    pub fn enter_number(&mut self, book: &mut Book) -> Result<Next, AllocError>
        requires { MayStep book.old self.old (RecurringOf EnterNumber) }
        ensures extends { Extends book.old book.new }
        ensures done { IfOk result (Finishes book.old book.new self.old self.new
            (RecurringOf EnterNumber)) }
    {
        let (_, ty) = numbers_type(book, self.ctx())?;
        self.enter(book, ty)?;
        Ok(Next::Moved)
    }

    /// A family of types of the numbers, which was inferred last, at a new number.
    pub fn family_at_number(&mut self, book: &mut Book) -> Result<Next, AllocError>
        requires { MayStep book.old self.old (RecurringOf FamilyOfNumbers) }
        ensures extends { Extends book.old book.new }
        ensures done { IfOk result (Finishes book.old book.new self.old self.new
            (RecurringOf FamilyOfNumbers)) }
    {
        let head = self.take_head();
        let families = families_row(book)?;
        if !head.ty.is_row(book, families)? {
            return Ok(Next::NotDirect);
        }
        let small = family_of_numbers(book, self.ctx(), head.term)?;
        let node = small_type(book, small)?;
        self.found(node)?;
        Ok(Next::Moved)
    }

    /// To check the base, where the motive was found last.
    pub fn base<'a>(
        &mut self,
        book: &mut Book,
        tasks: &mut Tasks<'a>,
        code: &'a Code,
    ) -> Result<Next, AllocError>
        requires { MayStep book.old self.old (RecurringOf (Base code)) }
        ensures extends { Extends book.old book.new }
        ensures steps { IfOk result (Steps book.old book.new self.old self.new
            tasks.old tasks.new (RecurringOf (Base code.entry))) }
    {
        let ty = self.last_node();
        let sub = motive_start(book, self.ctx())?;
        Ok(tasks.plan(&[Task::Check(code, TypeAt { ty, sub })])?)
    }

    /// To check the step, where the motive and the base were found last.
    pub fn step_of<'a>(
        &mut self,
        book: &mut Book,
        tasks: &mut Tasks<'a>,
        code: &'a Code,
    ) -> Result<Next, AllocError>
        requires { MayStep book.old self.old (RecurringOf (Step code)) }
        ensures extends { Extends book.old book.new }
        ensures steps { IfOk result (Steps book.old book.new self.old self.new
            tasks.old tasks.new (RecurringOf (Step code.entry))) }
    {
        let base = self.take_node();
        let ty = motive_step(book, self.ctx(), self.last_node())?;
        self.found(base)?;
        let ty = self.type_here(book, ty)?;
        Ok(tasks.plan(&[Task::Check(code, ty)])?)
    }

    /// A recursion, whose parts were found last.
    pub fn close_recursion(&mut self, book: &mut Book) -> Result<Next, AllocError>
        requires { MayStep book.old self.old (RecurringOf Close) }
        ensures extends { Extends book.old book.new }
        ensures done { IfOk result (Finishes book.old book.new self.old self.new
            (RecurringOf Close)) }
    {
        let number = self.take_node();
        let step = self.take_node();
        let base = self.take_node();
        let motive = self.take_node();
        let head = recursion(book, self.ctx(), motive, base, step, number)?;
        self.inferred(head)?;
        Ok(Next::Moved)
    }
}
