//! What is to be done.

ghost use Rattle.std.specs.Prelude.{◌≡◌, ◌++◌, ◌∷◌, [], ℕ, OnOk, reverse};
ghost use Rattle.presuppositions.specs.declared.source.Source.TheVariants as source;
ghost use Rattle.presupposed.specs.declared.tasks.Task.TheVariants as task;
ghost use Rattle.presupposed.specs.Tasks.{asked, place_of, tasks_for};

use crate::memory::Question;
use book::{Few, NodeId};
use presuppositions::{Entry, Label, Source};
use std::alloc::AllocError;

/// Something to be done. It finds a node, of what was found last before it.
#[derive(Drop)]
pub enum Task {
    /// To take this node.
    Take(NodeId),
    /// To find what stands behind a node.
    Ask(Question),
    /// To type the right side of a node that unfolds, where its context was found.
    Unfold(NodeId),
    /// To take the last entry of the context that was found.
    LastEntry(Label),
    /// To ask for the context that the type that was found is in, and then for a part of it.
    PartIn(Question, Label),
    /// To take a part of this type, where its context was found.
    PartOf(NodeId, Label),
    /// To go on with an entry, which has nodes of its first sources; that of the next was found.
    Fill(Question, Entry, Few),
}

/// The place of a source among the premises.
pub fn place(source: Source) -> u16
    ensures { result ≡ place_of source }
{
    match source {
        Source::Premise(place) => place,
        Source::Behind(place, _) => place,
        Source::Further(place, _, _) => place,
    }
}

/// What is to be done with what stands behind a node with a label, to have what stands further
/// behind it.
fn after(premise: NodeId, label: Label, further: Label) -> Task
    ensures { (place : ℕ) → tasks_for premise (source.Further place label further)
        ≡ task.Ask (asked premise label) ∷ result ∷ [] }
{
    match label {
        Label::Context => Task::LastEntry(further),
        _ => Task::PartIn(
            Question {
                node: premise,
                label: Label::Context,
            },
            further,
        ),
    }
}

/// To find a source, where its premise is this node, before all else.
pub fn plan(tasks: &mut Vec<Task>, premise: NodeId, source: Source) -> Result<(), AllocError>
    ensures { OnOk result
        (reverse tasks.new.items ≡ tasks_for premise «source» ++ reverse tasks.old.items) }
{
    match source {
        Source::Premise(_) => {
            tasks.push(Task::Take(premise))?;
        }
        Source::Behind(_, label) => {
            tasks.push(Task::Ask(Question {
                node: premise,
                label,
            }))?;
        }
        Source::Further(_, label, further) => {
            tasks.push(after(premise, label, further))?;
            tasks.push(Task::Ask(Question {
                node: premise,
                label,
            }))?;
        }
    }
    Ok(())
}
