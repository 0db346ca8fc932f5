//! The checker of definitions in order.

ghost use Rattle.std.specs.Prelude.{IfOk, List, Option, ℕ};
ghost use Rattle.translation.specs.Translated.{Stated};
ghost use Rattle.book.specs.Shown.{Extends};
ghost use Rattle.direct.specs.Known.{Known};
ghost use Rattle.typing_tasks.specs.States.{State};
ghost use Rattle.bidirect.specs.Checked.{AreChecked, Checks, Knows, Runs, ToDo};

use crate::steps::step;
use book::Book;
use codes::CodeDef;
use std::alloc::{AllocError, Global};
use typing_steps::{CheckState, Root};
use typing_tasks::{Binding, Defining, Inner, Next, Task, Tasks};

/// What was found of definitions in order.
#[derive(Drop)]
pub enum Checked {
    /// All are direct. The nodes of these, and of those that they hold, in the order in which they
    /// are stated.
    Direct(Vec<Root>),
    /// The place of the first that is not direct.
    NotDirect(usize),
}

/// Does what is to be done. The answer says whether all of it is direct.
fn run(state: &mut CheckState, book: &mut Book, tasks: Tasks) -> Result<bool, AllocError>
    requires { (R : Option State) × ToDo book.old state.old tasks R }
    ensures extends { Extends book.old book.new }
    ensures runs { IfOk result (λ direct. (R : Option State) →
        ToDo book.old state.old tasks.entry R → Runs book.new state.new direct R) }
{
    let mut tasks = tasks;
    while let Some(task) = tasks.items.pop() {
        match step(state, book, &mut tasks, task)? {
            Next::Moved => (),
            Next::NotDirect => return Ok(false),
        }
    }
    Ok(true)
}

/// Checks one more definition. The answer says whether it is direct.
fn check_definition(
    state: &mut CheckState,
    book: &mut Book,
    def: &CodeDef,
) -> Result<bool, AllocError>
    requires { (G : Known) × (ds : List (Stated ℕ)) × Knows book.old state.old G ds }
    ensures extends { Extends book.old book.new }
    ensures checks { IfOk result (λ direct. (G : Known) (ds : List (Stated ℕ)) →
        Knows book.old state.old G ds → Checks book.new state.new direct def.now G ds) }
{
    let mut tasks = Tasks::new(state.alloc);
    tasks.plan(&[
        Task::Binding(Binding::Under(&def.binders, Inner::Definition(def))),
        Task::Defining(Defining::Close(def.number)),
    ])?;
    Ok(run(state, book, tasks)?)
}

/// Checks definitions in order, each after those before it. Nothing is evaluated.
///
/// # Errors
/// Only where memory runs out.
pub fn check_definitions(
    alloc: Global,
    book: &mut Book,
    defs: &[CodeDef],
) -> Result<Checked, AllocError>
    ensures extends { Extends book.old book.new }
    ensures checked { IfOk result (AreChecked book.new defs.now) }
{
    let mut state = CheckState::new(alloc, book)?;
    let mut place = 0;
    for def in defs {
        if !check_definition(&mut state, book, def)? {
            return Ok(Checked::NotDirect(place));
        }
        place += 1;
    }
    Ok(Checked::Direct(state.roots))
}
