//! Notes of what is a variable.

use indexmap::IndexMap;
use rows::{SubId, TermId};
use std::alloc::{AllocError, Global};

/// A tree that may be a variable.
#[derive(Clone, Copy, Debug, PartialEq, Eq, Hash)]
pub enum Source {
    /// What the substitution of a row makes of the variable of an index.
    Entry(SubId, u128),
    /// The tree of a row.
    Tree(TermId),
}

/// The variables that trees were found to be, each by its index.
#[derive(Drop)]
pub struct Notes {
    entries: IndexMap<Source, u128>,
}

impl Notes {
    ghost use Rattle.std.specs.Prelude.{◌≡◌, ◌⊎◌, ℕ, OnOk, None, Some};
    ghost use Rattle.closures.specs.declared.notes.Source.{Source};
    ghost use Rattle.closures.specs.Notes.{noted, IsNoted};

    /// No notes.
    pub fn new(alloc: Global) -> Notes
        ensures { (s : Source) → noted result s ≡ None }
    {
        Notes {
            entries: IndexMap::new(alloc),
        }
    }

    /// The variable that a tree is, if it was found to be one.
    pub fn get(&self, at: Source) -> Option<u128>
        ensures { result ≡ noted self.now at }
    {
        self.entries.get(&at).copied()
    }

    /// Notes which variable a tree is.
    pub fn insert(&mut self, at: Source, index: u128) -> Result<(), AllocError>
        ensures { OnOk result (IsNoted at index self.old self.new) }
    {
        self.entries.insert(at, index)?;
        Ok(())
    }
}
