//! The checker of definitions in order.

use crate::steps::step;
use bidirect::{Checked, check_definitions};
use book::Book;
use codes::CodeDef;
use examining_state::{Binding, CheckFault, Defining, Examiner, Inner, Refusal, Stop, Task, Tasks};
use std::alloc::{AllocError, Global};
use tested_steps::Fault;
use typing_steps::Root;

/// A place of a text: of the definition at this place among all, and the byte of its text.
#[derive(Clone, Copy, Debug, PartialEq, Eq)]
pub struct Place {
    pub definition: usize,
    pub at: u32,
}

/// What was found of definitions in order.
#[derive(Drop, Debug)]
pub enum Examined {
    /// Each is typed. The nodes of these, and of those that they hold, in the order in which they
    /// are stated.
    Typed(Vec<Root>),
    /// The first that is refused, and why.
    Refused(Place, CheckFault),
    /// A question that was asked for what begins there has no answer within its budget.
    Spent(Place),
    /// The place among all definitions of the first for which a step was not taken.
    NotTaken(usize, Fault),
}

/// The place of the first definition that is not direct, and the nodes of those before it.
#[derive(Drop)]
struct Direct {
    place: usize,
    roots: Vec<Root>,
}

/// Checks definitions as far as they are direct.
fn check_direct(alloc: Global, book: &mut Book, defs: &[CodeDef]) -> Result<Direct, AllocError> {
    let place = match check_definitions(alloc, book, defs)? {
        Checked::Direct(roots) => {
            let place = defs.len();
            return Ok(Direct { place, roots });
        }
        Checked::NotDirect(place) => place.min(defs.len()),
    };
    let (before, _) = defs.split_at(place);
    match check_definitions(alloc, book, before)? {
        Checked::Direct(roots) => Ok(Direct { place, roots }),
        Checked::NotDirect(_) => Ok(Direct {
            place: 0,
            roots: Vec::new(alloc),
        }),
    }
}

/// Does what is to be done.
pub(crate) fn run(state: &mut Examiner, book: &mut Book, mut tasks: Tasks) -> Result<(), Stop> {
    for _ in 0..u64::MAX {
        let Some(task) = tasks.items.pop() else {
            return Ok(());
        };
        step(state, book, &mut tasks, task)?;
    }
    Err(Stop::NotTaken(Fault::Misfit))
}

/// Checks one more definition.
fn examine(state: &mut Examiner, book: &mut Book, def: &CodeDef) -> Result<(), Stop> {
    let mut tasks = Tasks::new(state.alloc);
    tasks.plan(&[
        Task::Binding(Binding::Under(&def.binders, Inner::Definition(def))),
        Task::Defining(Defining::Close(def.number)),
    ])?;
    run(state, book, tasks)
}

/// The definitions that are direct, known from the start.
fn begin(
    alloc: Global,
    book: &mut Book,
    defs: &[CodeDef],
    roots: Vec<Root>,
    turns: u64,
) -> Result<Examiner, Stop> {
    let mut state = Examiner::new(alloc, book, turns)?;
    for def in defs {
        let Some(root) = roots.as_slice().get(def.number as usize) else {
            return Err(Stop::NotTaken(Fault::Misfit));
        };
        state.know(def.number, *root)?;
    }
    state.roots = roots;
    Ok(state)
}

/// Checks definitions in order, each after those before it, the first so many as direct ones.
fn examine_all(
    alloc: Global,
    book: &mut Book,
    defs: &[CodeDef],
    direct: Direct,
    turns: u64,
) -> Result<Vec<Root>, (usize, Stop)> {
    let Direct { place, roots } = direct;
    let (known, _) = defs.split_at(place.min(defs.len()));
    let mut state = match begin(alloc, book, known, roots, turns) {
        Ok(state) => state,
        Err(stop) => return Err((place, stop)),
    };
    for (number, def) in defs.iter().enumerate().skip(place) {
        match examine(&mut state, book, def) {
            Ok(()) => (),
            Err(stop) => return Err((number, stop)),
        }
    }
    Ok(state.roots)
}

/// Checks definitions in order, each after those before it. A question of evaluation has so many
/// moves.
///
/// # Errors
/// Only where memory runs out.
pub fn examine_definitions(
    alloc: Global,
    book: &mut Book,
    defs: &[CodeDef],
    turns: u64,
) -> Result<Examined, AllocError> {
    let direct = check_direct(alloc, book, defs)?;
    if direct.place == defs.len() {
        return Ok(Examined::Typed(direct.roots));
    }
    match examine_all(alloc, book, defs, direct, turns) {
        Ok(roots) => Ok(Examined::Typed(roots)),
        Err((_, Stop::Memory)) => Err(AllocError),
        Err((definition, Stop::Refused(Refusal { at, fault }))) => {
            Ok(Examined::Refused(Place { definition, at }, fault))
        }
        Err((definition, Stop::Spent(at))) => Ok(Examined::Spent(Place { definition, at })),
        Err((definition, Stop::NotTaken(fault))) => Ok(Examined::NotTaken(definition, fault)),
    }
}
