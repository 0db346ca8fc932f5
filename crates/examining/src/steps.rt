//! One step of a task, by its family.

use crate::checking::{check, form};
use crate::inferring::infer;
use book::Book;
use examining_forms::{binding, compared, defining, eliminating, lining, pairing, recurring};
use examining_kan::{composing, gluing};
use examining_state::{Examiner, Stop, Task, Tasks};

/// One step of a task: it is done, or others are planned for it.
pub(crate) fn step<'a>(
    state: &mut Examiner,
    book: &mut Book,
    tasks: &mut Tasks<'a>,
    task: Task<'a>,
) -> Result<(), Stop> {
    match task {
        Task::Infer(code) => infer(state, book, tasks, code),
        Task::Check(code, ty) => check(state, book, tasks, code, ty),
        Task::Form(code, sort) => form(state, book, tasks, code, sort),
        Task::Defining(asked) => defining(state, tasks, asked),
        Task::Binding(asked) => binding(state, book, tasks, asked),
        Task::Pairing(asked) => pairing(state, book, tasks, asked),
        Task::Eliminating(asked) => eliminating(state, book, tasks, asked),
        Task::Recurring(code, asked) => recurring(state, book, tasks, code, asked),
        Task::Lining(asked) => lining(state, book, tasks, asked),
        Task::Comparing(asked) => compared(state, book, asked),
        Task::Composing(code, asked) => composing(state, book, tasks, code, asked),
        Task::Gluing(code, asked) => gluing(state, book, tasks, code, asked),
    }
}
