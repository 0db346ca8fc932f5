//! A table of slots that finds rows by their hashes.
//!
//! A search looks at runs of 16 slots that stand side by side, and leaps from run to run. Where it
//! begins and how far it leaps are other bits of the hash, so that searches that meet in one run
//! part again. After 128 runs it goes over all slots in order, so that it always comes to an end. A
//! new row takes the first free slot of its search, and the newest row's slot is the first that
//! becomes free again: so a free slot on a search says that the row is not there.

ghost use Rattle.std.specs.Prelude.{◌≡◌, ◌+◌, ◌<◌, ◌≤◌, ◌^◌, [], length, replicate};
ghost use Rattle.std.specs.Prelude.{IfOk, slice_index, slice_set};
ghost use Rattle.region.specs.Tables.{IsFirstFree, HasFree, IsNamed, IsTakenAway};
ghost use Rattle.region.specs.Tables.{reach, searched, mark_of, most_rows};
ghost use Rattle.region.specs.Slots.{IsSized, row_of, marks_in, rows_in};

use std::alloc::{AllocError, Global};

/// The mark of a free slot.
pub const FREE: u16 = 0;

/// How many slots of a run.
const RUN: usize = 16;

/// How many slots a search looks at in runs, before it goes over all slots in order.
const IN_RUNS: usize = 128 * RUN;

/// A slot: 16 bits of the hash of its row, so that most other rows are told apart without a look at
/// their words, and the number of the row, of 48 bits, in two parts, so that a slot takes 8 bytes.
#[derive(Clone, Copy)]
pub struct Slot {
    pub mark: u16,
    high: u16,
    low: u32,
}

impl Slot {
    const NONE: Slot = Slot {
        mark: FREE,
        high: 0,
        low: 0,
    };

    fn new(mark: u16, row: u64) -> Slot
        requires { row < 2 ^ 48 }
        ensures mark { result.mark ≡ mark }
        ensures row { row_of result ≡ row }
    {
        Slot {
            mark,
            high: (row >> 32) as u16,
            low: (row % (1 << 32)) as u32,
        }
    }

    /// The number of the row.
    pub fn row(self) -> u64
        ensures { result ≡ row_of self }
    {
        u64::from(self.high) * (1 << 32) + u64::from(self.low)
    }
}

/// Slots for rows, or free ones.
#[derive(Drop)]
pub struct Table {
    pub slots: Vec<Slot>,
    ghost sized: { IsSized slots.items },
}

/// What marks the slot of a row of this hash.
#[tactic(auto, unfolding(crate::specs::Tables::mark_of))]
pub fn mark_of(hash: u64) -> u16
    ensures { result ≡ mark_of hash }
{
    ((hash >> 48) as u16).max(1)
}

/// How many rows a table of so many slots may hold: three in four.
pub fn most_rows(size: usize) -> usize
    ensures { result ≡ most_rows size }
{
    size - size / 4
}

impl Table {
    /// A table of so many free slots, a power of two.
    pub fn new(alloc: Global, size: usize) -> Result<Table, AllocError>
        requires least { 4 ≤ size }
        requires most { size ≤ 2 ^ 48 }
        ensures { IfOk result (λ t. marks_in t.slots.items ≡ replicate size 0) }
    {
        let mut slots = Vec::new(alloc);
        slots.resize(size, Slot::NONE)?;
        Ok(Table { slots })
    }

    pub fn size(&self) -> usize
        ensures { result ≡ length self.now.slots.items }
    {
        self.slots.len()
    }

    /// How many slots a search looks at.
    #[tactic(auto, using(crate::proofs::SlotLaws::length_marks))]
    pub fn reach(&self) -> usize
        ensures { result ≡ reach (length (marks_in self.now.slots.items)) }
    {
        IN_RUNS + self.slots.len()
    }

    /// The slot that a search for a hash looks at when it has looked at so many others.
    #[tactic(auto, using(crate::proofs::SlotLaws::length_marks), unfolding(crate::specs::Tables::searched))]
    pub fn searched(&self, hash: u64, at: usize) -> usize
        requires { at < reach (length (marks_in self.now.slots.items)) }
        ensures within { result < length self.now.slots.items }
        ensures is { result ≡ searched (length (marks_in self.now.slots.items)) hash at }
    {
        if at < IN_RUNS {
            let leap = hash >> 32 | 1;
            let run = hash.wrapping_add(((at / RUN) as u64).wrapping_mul(leap));
            run.wrapping_add((at % RUN) as u64) as usize & (self.slots.len() - 1)
        } else {
            at - IN_RUNS
        }
    }

    /// The first free slot on the search for a hash.
    #[tactic(auto, using(crate::proofs::SlotLaws::length_marks))]
    pub fn first_free(&self, hash: u64) -> usize
        requires { HasFree (marks_in self.now.slots.items) }
        ensures within { result < length self.now.slots.items }
        ensures first { IsFirstFree (marks_in self.now.slots.items) hash result }
    {
        for at in 0..self.reach() {
            let slot = self.searched(hash, at);
            if self.slots[slot].mark == FREE {
                return slot;
            }
        }
        unreachable!()
    }

    /// A row of this hash takes the slot.
    #[tactic(auto, using(crate::proofs::SlotLaws::length_marks))]
    pub fn put(&mut self, slot: usize, hash: u64, row: u64)
        requires slot { slot < length self.old.slots.items }
        requires row { row < 2 ^ 48 }
        ensures marks { marks_in self.new.slots.items ≡
            slice_set (marks_in self.old.slots.items) slot (mark_of hash) }
        ensures rows { rows_in self.new.slots.items ≡
            slice_set (rows_in self.old.slots.items) slot row }
    {
        self.slots[slot] = Slot::new(mark_of(hash), row);
    }

    /// The slot of a row of this hash.
    #[tactic(auto, using(crate::proofs::SlotLaws::length_marks))]
    fn slot_of(&self, hash: u64, row: u64) -> usize
        requires { IsNamed (marks_in self.now.slots.items) (rows_in self.now.slots.items) hash row }
        ensures within { result < length self.now.slots.items }
        ensures taken { 0 < slice_index (marks_in self.now.slots.items) result }
        ensures names { slice_index (rows_in self.now.slots.items) result ≡ row }
    {
        for at in 0..self.reach() {
            let slot = self.searched(hash, at);
            let found = self.slots[slot];
            if found.mark != FREE && found.row() == row {
                return slot;
            }
        }
        unreachable!()
    }

    /// The slot of a row of this hash becomes free.
    #[tactic(auto, using(crate::proofs::SlotLaws::length_marks))]
    pub fn remove(&mut self, hash: u64, row: u64)
        requires { IsNamed (marks_in self.old.slots.items) (rows_in self.old.slots.items) hash row }
        ensures marks { IsTakenAway (marks_in self.old.slots.items)
            (rows_in self.old.slots.items) row
            (marks_in self.new.slots.items) }
        ensures rows { rows_in self.new.slots.items ≡ rows_in self.old.slots.items }
    {
        let slot = self.slot_of(hash, row);
        self.slots[slot].mark = FREE;
    }
}
