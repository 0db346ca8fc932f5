//! What subtrees were read as.

ghost use Rattle.side_conditions.specs.Whole.{AreBelow};

use crate::reading::Reading;
use crate::subtree::Subtree;
use faces::Face;
use indexmap::IndexMap;
use interval::Form;
use rows::TermId;
use std::alloc::{AllocError, Global};

/// How many whole rows are remembered at most from one question to the next.
const MOST_ROWS: usize = 1 << 8;

/// What subtrees were read as, each once. None stands for what is no formula and no face. What
/// whole rows before the mark were read as is remembered from one question to the next.
#[derive(Drop)]
pub struct Readings {
    mark: u64,
    rows: IndexMap<TermId, Option<Reading>>,
    others: IndexMap<Subtree, Option<Reading>>,
    ghost below: { AreBelow mark rows },
}

impl Readings {
    ghost use Rattle.std.specs.Prelude.{◌≡◌, ◌⊎◌, [], Option, Some, None, IsSome, is_some, OnOk};
    ghost use Rattle.std.specs.Prelude.{option_copied};
    ghost use Rattle.side_conditions.specs.declared.subtree.Subtree.{Subtree};
    ghost use Rattle.side_conditions.specs.declared.reading.Reading.{Reading};
    ghost use Rattle.side_conditions.specs.Tables.{IsAdded};
    ghost use Rattle.side_conditions.specs.Shown.{reading_at, IsForgotten, IsFormAt, IsFaceAt};

    /// Nothing was read, and nothing is to be remembered.
    pub fn new(alloc: Global) -> Readings
        ensures nothing { (s : Subtree) → reading_at result s ≡ None }
        ensures alone { result.others.entries ≡ [] }
        ensures mark { result.mark ≡ 0 }
    {
        Readings {
            mark: 0,
            rows: IndexMap::new(alloc),
            others: IndexMap::new(alloc),
        }
    }

    /// From now on rows before the mark are remembered. Where it goes back, none is.
    pub fn remember_below(&mut self, mark: u64)
        requires alone { self.old.others.entries ≡ [] }
        ensures mark { self.new.mark ≡ mark }
        ensures forgets { IsForgotten self.old self.new }
    {
        if mark < self.mark {
            self.rows.truncate(0);
        }
        self.mark = mark;
    }

    /// Forgets all but what is remembered of whole rows. Where that or this is much, both go, with
    /// their memory.
    pub fn forget(&mut self)
        ensures mark { self.new.mark ≡ self.old.mark }
        ensures forgets { IsForgotten self.old self.new }
    {
        if self.rows.len().max(self.others.len()) > MOST_ROWS {
            let alloc = *self.rows.allocator();
            self.rows = IndexMap::new(alloc);
            self.others = IndexMap::new(alloc);
        }
        self.others.truncate(0);
    }

    /// What a subtree was read as, if it was.
    fn find(&self, at: Subtree) -> Option<&Option<Reading>>
        ensures { option_copied result ≡ reading_at self.now at }
    {
        if let Some(row) = at.whole_row() {
            if let Some(reading) = self.rows.get(&row) {
                return Some(reading);
            }
        }
        self.others.get(&at)
    }

    /// Whether a subtree was read.
    pub fn contains(&self, at: Subtree) -> bool
        ensures { result ≡ is_some (reading_at self.now at) }
    {
        self.find(at).is_some()
    }

    /// What a subtree was read as.
    pub fn get(&self, at: Subtree) -> Option<&Reading>
        requires { IsSome (reading_at self.now at) }
        ensures { Some (option_copied result) ≡ reading_at self.now at }
    {
        self.find(at).unwrap().as_ref()
    }

    /// The form that a subtree was read as, where it is a formula.
    pub fn form(&self, at: Subtree) -> Option<&Form>
        requires { IsSome (reading_at self.now at) }
        ensures { IsFormAt self.now at (option_copied result) }
    {
        match self.get(at) {
            Some(reading) => reading.form(),
            None => None,
        }
    }

    /// The face that a subtree was read as, where it is one.
    pub fn face(&self, at: Subtree) -> Option<&Face>
        requires { IsSome (reading_at self.now at) }
        ensures { IsFaceAt self.now at (option_copied result) }
    {
        match self.get(at) {
            Some(reading) => reading.face(),
            None => None,
        }
    }

    /// Notes what a subtree is read as.
    pub fn insert(&mut self, at: Subtree, reading: Option<Reading>) -> Result<(), AllocError>
        ensures mark { self.new.mark ≡ self.old.mark }
        ensures added { let known = reading_at self.old in
            OnOk result (IsAdded at reading known (reading_at self.new)) }
    {
        match at.whole_row() {
            Some(row) if row.0 < self.mark => {
                self.rows.insert(row, reading)?;
            }
            _ => {
                self.others.insert(at, reading)?;
            }
        }
        Ok(())
    }

    /// Takes out what a subtree was read as.
    pub fn take(mut self, at: Subtree) -> Option<Reading>
        requires { IsSome (reading_at self at) }
        ensures { Some result ≡ reading_at self at }
    {
        if let Some(row) = at.whole_row() {
            if let Some(reading) = self.rows.swap_remove(&row) {
                return reading;
            }
        }
        self.others.swap_remove(&at).unwrap()
    }
}
