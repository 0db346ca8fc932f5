//! Definitions.

use codes::CodeDef;
use examining_state::{Binding, Defining, Examiner, Inner, Stop, Task, Tasks};
use std::alloc::AllocError;
use typing_steps::Root;

/// What is asked of definitions.
pub fn defining<'a>(
    state: &mut Examiner,
    tasks: &mut Tasks<'a>,
    defining: Defining<'a>,
) -> Result<(), Stop> {
    match defining {
        Defining::Block(defs) => Ok(block(tasks, defs)?),
        Defining::Body(code) => {
            let ty = state.last_node()?;
            Ok(tasks.plan(&[Task::Check(code, ty)])?)
        }
        Defining::Close(number) => {
            let body = state.take_node()?;
            let ty = state.take_node()?;
            Ok(state.define(number, Root { ty, body })?)
        }
        Defining::End(count) => {
            state.forget(count);
            Ok(())
        }
    }
}

/// Definitions in order.
fn block<'a>(tasks: &mut Tasks<'a>, defs: &'a [CodeDef]) -> Result<(), AllocError> {
    match defs {
        [] => Ok(()),
        [def, rest @ ..] => tasks.plan(&[
            Task::Binding(Binding::Under(&def.binders, Inner::Definition(def))),
            Task::Defining(Defining::Close(def.number)),
            Task::Defining(Defining::Block(rest)),
        ]),
    }
}
