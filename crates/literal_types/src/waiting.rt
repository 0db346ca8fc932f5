//! Substitutions that wait.

ghost use Rattle.std.specs.Prelude.{◌≡◌, ◌+◌, ◌<◌, ◌≤◌, ◌∷◌, IfOk, reverse};
ghost use Rattle.trees.specs.Trees.{Tree, Var};
ghost use Rattle.trees.specs.Judgements.{Context};
ghost use Rattle.literal_types.specs.Ways.{HasVariable};
ghost use Rattle.literal_types.specs.Openings.{weight};
ghost use Rattle.literal_types.specs.Substitutions.{IsFrom, past_entry};
ghost use Rattle.literal_types.specs.Waits.{IsEntered, StandsAt, StandsOrNot, found_weight};
ghost use Rattle.literal_types.specs.Waits.{place_weight, waiting_weight};
ghost use Rattle.literal_types.specs.declared.waiting.Waiting.TheVariants as waiting_form;

use crate::entries::Entry;
use crate::substitutions::{Substitution, unfolded};
use book::{Book, NodeId};
use book_shifts::laws_of_shifts;
use std::alloc::AllocError;

/// A substitution that waits.
#[derive(Clone, Copy, Debug)]
pub enum Waiting {
    /// `d : M to K`, by its node
    Sub(NodeId),
    /// From K with the entry to K, by a node of a substitution from K
    Past(NodeId, Entry),
}

/// What a variable becomes.
#[derive(Clone, Copy, Debug)]
pub enum Place {
    /// A variable, by its index.
    Variable(u64),
    /// A tree that is pushed, by a node that types it.
    Term(NodeId),
}

/// What a variable becomes by the rule of a substitution, where what this stands on waits.
fn entered(
    book: &Book,
    sub: NodeId,
    index: u64,
    waiting: &mut Vec<Waiting>,
) -> Result<Place, AllocError>
    requires { (H : Context) × (T S : Tree) × IsEntered book.now index
        (waiting_form.Sub sub ∷ reverse waiting.old.items) H T S }
    ensures stands { IfOk result (λ place. (H : Context) (T S : Tree) →
        IsEntered book.now index (waiting_form.Sub «sub» ∷ reverse waiting.old.items) H T S
        → StandsAt book.now place (reverse waiting.new.items) H T S) }
    ensures less { IfOk result (λ place.
        place_weight place + waiting_weight (reverse waiting.new.items)
        < weight «sub» + waiting_weight (reverse waiting.old.items)) }
{
    match unfolded(book, sub) {
        Substitution::Identity(_) => Ok(Place::Variable(index)),
        Substitution::Composite(first, second) => {
            waiting.push(Waiting::Sub(first))?;
            waiting.push(Waiting::Sub(second))?;
            Ok(Place::Variable(index))
        }
        Substitution::Past(below, entry) => {
            waiting.push(Waiting::Past(below, entry))?;
            waiting.push(Waiting::Sub(below))?;
            Ok(Place::Variable(index))
        }
        Substitution::Pushed(below, term) => {
            if index == 0 {
                return Ok(Place::Term(term));
            }
            waiting.push(Waiting::Sub(below))?;
            Ok(Place::Variable(index - 1))
        }
        Substitution::Formula(below) => {
            waiting.push(Waiting::Sub(below))?;
            Ok(Place::Variable(index - 1))
        }
        Substitution::OnFace(below) => {
            waiting.push(Waiting::Sub(below))?;
            Ok(Place::Variable(index))
        }
    }
}

/// The index of a variable past an entry.
fn past_index(book: &Book, below: NodeId, entry: Entry, index: u64) -> u64
    requires { (K : Context) × (A : Tree) × IsFrom book.now below K × HasVariable K index A }
    ensures { Var result ≡ past_entry «entry» (Var index) }
{
    laws_of_shifts(book);
    match entry {
        Entry::Variable(_) | Entry::Name => index + 1,
        Entry::Face(_) => index,
    }
}

/// What the innermost variable becomes under what waits: a node that types it, at the type of the
/// variable, or None where it is a variable.
///
/// A part of a composite is walked as often as it stands there: where `c` is composed with itself,
/// the outcome with itself, and so on k times, that takes 2^k steps. A weakening takes a few steps
/// for each entry that it passes.
pub fn looked_up(book: &Book, waiting: &mut Vec<Waiting>) -> Result<Option<NodeId>, AllocError>
    requires { (H : Context) × (T S : Tree)
        × IsEntered book.now 0 (reverse waiting.old.items) H T S }
    ensures stands { IfOk result (λ found. (H : Context) (T S : Tree) →
        IsEntered book.now 0 (reverse waiting.old.items) H T S
        → StandsOrNot book.now found (reverse waiting.new.items) H T S) }
    ensures less { IfOk result (λ found.
        found_weight found + waiting_weight (reverse waiting.new.items)
        ≤ waiting_weight (reverse waiting.old.items)) }
{
    let mut index = 0;
    while let Some(next) = waiting.pop() {
        match next {
            Waiting::Past(below, entry) => index = past_index(book, below, entry, index),
            Waiting::Sub(sub) => match entered(book, sub, index, waiting)? {
                Place::Variable(within) => index = within,
                Place::Term(term) => return Ok(Some(term)),
            },
        }
    }
    Ok(None)
}
