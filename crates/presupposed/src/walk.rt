//! The walk through a derivation.

ghost use Rattle.std.specs.Prelude.{◌≡◌, ◌≤◌, ◌+◌, ◌*◌, ◌-◌, ◌<◌, IfOk, OnOk, Some, length};
ghost use Rattle.std.specs.Prelude.{slice_get};
ghost use Rattle.trees.specs.Judgements.{Judgement};
ghost use Rattle.book.specs.Nodes.{Node};
ghost use Rattle.book.specs.Shown.{Extends, book_nodes};
ghost use Rattle.typed_nodes.specs.Typed.{Says};
ghost use Rattle.presupposed.specs.declared.tasks.Task.TheVariants as task;
ghost use Rattle.presupposed.specs.Asked.{IsOnTheWay, Stands};
ghost use Rattle.presupposed.specs.Tasks.{Fills, place_of, task_weight, weight};
ghost use Rattle.presupposed.specs.Walks.{DoesNext, Goes, Leads, to_do};

use crate::earlier::Equivalences;
use crate::memory::{Memory, Question};
use crate::parts::{last_entry, part_of};
use crate::right_sides::right_side;
use crate::tasks::{Task, place, plan};
use book::{Book, Few, NodeId};
use book_shifts::laws_of_shifts;
use entries::entry;
use presuppositions::{Entry, Label, Source};
use recipe_runner::run;
use std::alloc::{AllocError, Global};

/// The node of what an entry gives, where it has nodes of all its sources.
fn concluded(
    book: &mut Book,
    question: Question,
    entry: Entry,
    premises: &Few,
) -> Result<NodeId, AllocError>
    requires all { length premises.now ≡ length entry.sources.now }
    requires fills { (J : Judgement) × Fills book.old question «entry» premises.now J }
    ensures extends { Extends book.old book.new }
    ensures typed { IfOk result (λ node. (J : Judgement) →
        Fills book.old question «entry» premises.now J → Says book.new node J) }
{
    laws_of_shifts(book);
    let parts = Few::of(book.step(question.node).parts);
    let nodes = run(
        book,
        &Equivalences,
        entry.rows,
        &[entry.last],
        parts.as_slice(),
        premises.as_slice(),
    )?;
    Ok(NodeId(nodes.as_slice()[0]))
}

/// The premise that a source of a node starts from.
fn premise_of(book: &Book, node: NodeId, source: Source) -> NodeId
    requires { (made : Node) × (book_nodes book.now node.0 ≡ Some made)
        × (place_of source < length made.premises) }
    ensures premise { (made : Node) → book_nodes book.now node.0 ≡ Some made
        → slice_get made.premises (place_of source) ≡ Some result.0 }
    ensures earlier { result.0 < node.0 }
{
    let premises = book.step(node).premises;
    NodeId(premises[place(source) as usize])
}

/// What is to be done, the first task last, and what was found.
#[derive(Drop)]
pub struct Search {
    alloc: Global,
    tasks: Vec<Task>,
    memory: Memory,
    /// The node that was found last.
    found: NodeId,
}

impl Search {
    /// Goes on with an entry that has nodes of its first sources.
    fn fill(
        &mut self,
        book: &mut Book,
        question: Question,
        entry: Entry,
        few: Few,
    ) -> Result<(), AllocError>
        requires { (top : Question) × (I J : Judgement) × Leads book.old self.old top I J
            × IsOnTheWay top question × Fills book.old question «entry» few I }
        ensures extends { Extends book.old book.new }
        ensures goes { OnOk result ((top : Question) (I J : Judgement) →
            Leads book.old self.old top I J → IsOnTheWay top question
            → Fills book.old question «entry» few I → Goes book.new self.new top J) }
        ensures less { OnOk result (to_do self.new
            < (17 - length few) * (3 * weight question.node) + 1 + to_do self.old) }
    {
        let count = few.as_slice().len();
        if count == entry.sources.len() {
            let node = concluded(book, question, entry, &few)?;
            self.memory.insert(question, node)?;
            self.found = node;
            return Ok(());
        }
        let source = entry.sources[count];
        let premise = premise_of(book, question.node, source);
        self.tasks.push(Task::Fill(question, entry, few))?;
        plan(&mut self.tasks, premise, source)?;
        Ok(())
    }

    /// Answers a question from what was found, or begins with the entry of the rule and the label.
    /// A right side that no entry has is unfolded in its context.
    fn ask(&mut self, book: &mut Book, question: Question) -> Result<(), AllocError>
        requires { (top : Question) × (I J : Judgement) × Leads book.old self.old top I J
            × IsOnTheWay top question × Stands book.old question I }
        ensures extends { Extends book.old book.new }
        ensures goes { OnOk result ((top : Question) (I J : Judgement) →
            Leads book.old self.old top I J → IsOnTheWay top question
            → Stands book.old question I → Goes book.new self.new top J) }
        ensures less { OnOk result (to_do self.new
            < task_weight (task.Ask question) + to_do self.old) }
    {
        if let Some(node) = self.memory.get(question) {
            self.found = node;
            return Ok(());
        }
        let node = question.node;
        let rule = book.step(node).rule;
        if let Some(entry) = entry(rule, question.label) {
            return Ok(self.fill(book, question, entry, Few::new())?);
        }
        self.tasks.push(Task::Unfold(node))?;
        self.tasks.push(Task::Ask(Question {
            node,
            label: Label::Context,
        }))?;
        Ok(())
    }

    /// Types the right side of a node, whose context was found.
    fn unfold(&mut self, book: &mut Book, node: NodeId) -> Result<(), AllocError>
        requires { (top : Question) × (I J : Judgement) × Leads book.old self.old top I J
            × DoesNext book.old self.old top (task.Unfold node) I }
        ensures extends { Extends book.old book.new }
        ensures goes { OnOk result ((top : Question) (I J : Judgement) →
            Leads book.old self.old top I J
            → DoesNext book.old self.old top (task.Unfold node) I → Goes book.new self.new top J) }
        ensures less { OnOk result (to_do self.new ≡ to_do self.old) }
    {
        let right = right_side(book, self.found, node)?;
        let question = Question {
            node,
            label: Label::Right,
        };
        self.memory.insert(question, right)?;
        self.found = right;
        Ok(())
    }

    /// Does a task.
    fn step(&mut self, book: &mut Book, task: Task) -> Result<(), AllocError>
        requires { (top : Question) × (I J : Judgement) × Leads book.old self.old top I J
            × DoesNext book.old self.old top «task» I }
        ensures extends { Extends book.old book.new }
        ensures goes { OnOk result ((top : Question) (I J : Judgement) →
            Leads book.old self.old top I J → DoesNext book.old self.old top «task» I
            → Goes book.new self.new top J) }
        ensures less { OnOk result (to_do self.new < task_weight «task» + to_do self.old) }
    {
        match task {
            Task::Ask(question) => self.ask(book, question)?,
            Task::Unfold(node) => self.unfold(book, node)?,
            Task::Take(node) => self.found = node,
            Task::LastEntry(label) => self.found = last_entry(book, self.found, label),
            Task::PartIn(question, label) => {
                self.tasks.push(Task::PartOf(self.found, label))?;
                self.tasks.push(Task::Ask(question))?;
            }
            Task::PartOf(ty, label) => {
                self.found = part_of(self.alloc, book, self.found, ty, label)?;
            }
            Task::Fill(question, entry, mut few) => {
                few.push(self.found.0);
                self.fill(book, question, entry, few)?;
            }
        }
        Ok(())
    }
}

/// The node that answers a question. Each question is answered once; a part of a type is looked up
/// each time it is asked for.
///
/// # Errors
/// Only where memory runs out.
pub fn answer(alloc: Global, book: &mut Book, question: Question) -> Result<NodeId, AllocError>
    requires stands { (J : Judgement) × Stands book.old question J }
    requires way { IsOnTheWay question question }
    ensures extends { Extends book.old book.new }
    ensures found { IfOk result (λ node. (J : Judgement) → Stands book.old question J
        → Says book.new node J) }
{
    let mut search = Search {
        alloc,
        tasks: Vec::new(alloc),
        memory: Memory::new(alloc),
        found: question.node,
    };
    search.tasks.push(Task::Ask(question))?;
    while let Some(task) = search.tasks.pop() {
        search.step(book, task)?;
    }
    Ok(search.found)
}
