//! The region: rows with the table that finds them.

ghost use Rattle.std.specs.Prelude.{◌≡◌, ◌+◌, ◌<◌, ◌≤◌, ◌^◌, ◌++◌, ◌∷◌, [], length, take};
ghost use Rattle.std.specs.Prelude.{Some, IfOk, OnOk, OnErr, IsOk, slice_get};
ghost use Rattle.std.specs.List.{Contains};
ghost use Rattle.region.specs.Hashes.{hash_of};
ghost use Rattle.region.specs.Tables.{IsFirstFree, most_rows};
ghost use Rattle.region.specs.Slots.{marks_in, rows_in};
ghost use Rattle.region.specs.Interned.{IsFound, AreInterned};
ghost use Rattle.region.specs.Held.{AreDistinct, Covers, KeepsSpare, SpendsRow, IsInterned};

use crate::hash::hash;
use crate::ids::{Mark, RowId};
use crate::storage::{CHUNK_WORDS, Store};
use crate::table::{FREE, Table, mark_of, most_rows};
use std::alloc::{AllocError, Global};
use std::marker::Model;

/// The most words of a row.
pub const MOST_WORDS: usize = CHUNK_WORDS;

/// The slots of the first table.
const FIRST_SLOTS: usize = 16;

/// The most rows that a table tells apart. With a place and a slot each they take more than a
/// pebibyte.
const MOST_ROWS: usize = 1 << 46;

/// Interned rows of words. Contracts see the list of the rows, and for how many more rows and words
/// there is room.
#[derive(Drop)]
pub struct Region {
    store: Store,
    table: Table,
}

impl Model for Region {
    ghost use Rattle.std.specs.Prelude.{◌-◌, length, min};
    ghost use Rattle.region.specs.Held.{Held};
    ghost use Rattle.region.specs.Tables.{most_rows};
    ghost use Rattle.region.specs.Slots.{marks_in, rows_in};
    ghost use Rattle.region.specs.Interned.{AreInterned};

    ghost Value = { Held };

    ghost view = { λ r. record {
      rows = r.store.rows;
      spare_rows = min r.store.room (most_rows (length r.table.slots.items) - length r.store.rows);
      spare_words = r.store.spare_words;
    } };

    ghost invariant = { λ r.
        AreInterned r.store.rows (marks_in r.table.slots.items) (rows_in r.table.slots.items) };
}

impl Region {
    /// No rows.
    pub fn new(alloc: Global) -> Result<Region, AllocError>
        ensures { IfOk result (λ r. r.rows ≡ []) }
    {
        Ok(Region {
            store: Store::new(alloc)?,
            table: Table::new(alloc, FIRST_SLOTS)?,
        })
    }

    /// The number of rows.
    #[tactic(auto, using(crate::proofs::SlotLaws::length_marks))]
    pub fn len(&self) -> u64
        ensures count { result ≡ length self.now.rows }
        ensures few { result ≤ 2 ^ 48 }
        ensures distinct { AreDistinct self.now.rows }
    {
        self.store.len() as u64
    }

    /// The number of rows, to go back to.
    pub fn mark(&self) -> Mark
        ensures { result.0 ≡ length self.now.rows }
    {
        Mark(self.len())
    }

    /// The words of a row.
    pub fn row(&self, id: RowId) -> &[u64]
        requires { id.0 < length self.now.rows }
        ensures { slice_get self.now.rows id.0 ≡ Some result.now }
    {
        self.store.row(id.0)
    }

    /// Room for so many more rows and, in them, words. After an error the rows are as before, and
    /// the room is not less.
    #[tactic(auto, using(crate::proofs::SlotLaws::length_marks))]
    pub fn reserve(&mut self, rows: u64, words: u64) -> Result<(), AllocError>
        ensures rows { self.new.rows ≡ self.old.rows }
        ensures ok { OnOk result (Covers self.new rows words) }
        ensures kept { KeepsSpare self.old self.new }
        ensures succeeds { Covers self.old rows words → IsOk result }
    {
        self.store.reserve(rows as usize, words as usize)?;
        make_room(&self.store, &mut self.table, rows as usize)
    }

    /// The row with these words, of which there are at most 4,096: one that stands, or else a new
    /// one.
    ///
    /// Only a new row that the room doesn't cover can be out of memory, and then the rows are as
    /// before.
    #[tactic(auto, using(crate::proofs::SlotLaws::length_marks))]
    pub fn intern(&mut self, row: &[u64]) -> Result<RowId, AllocError>
        requires { length row.now ≤ 4096 }
        ensures ok { IfOk result (λ id. slice_get self.new.rows id.0 ≡ Some row.now) }
        ensures stands { Contains self.old.rows row.now → IsOk result × (self.new ≡ self.old) }
        ensures new { OnOk result (IsInterned self.old.rows row.now self.new.rows) }
        ensures err { OnErr result (self.new.rows ≡ self.old.rows) }
        ensures succeeds { Covers self.old 1 (length row.now) → IsOk result }
        ensures spent { SpendsRow self.old self.new (length row.now) }
        ensures distinct { AreDistinct self.new.rows }
    {
        let hash = hash(row);
        let slot = match search(&self.table, &self.store, hash, row) {
            Found::Row(id) => return Ok(RowId(id)),
            Found::Free(slot) => slot,
        };
        let slot = free_slot(&self.store, &mut self.table, hash, slot)?;
        let id = self.store.len() as u64;
        self.store.push(row)?;
        self.table.put(slot, hash, id);
        Ok(RowId(id))
    }

    /// Only the rows of the mark stay. No other row can be found any more, and the room of all
    /// stays reserved.
    #[tactic(auto, using(crate::proofs::SlotLaws::length_marks))]
    pub fn release(&mut self, mark: Mark)
        requires { mark.0 ≤ length self.old.rows }
        ensures rows { self.new.rows ≡ take mark.0 self.old.rows }
        ensures kept { KeepsSpare self.old self.new }
        ensures regained { self.old.spare_rows + length self.old.rows ≤
            self.new.spare_rows + mark.0 }
    {
        let mut len = self.store.len() as u64;
        'back: while mark.0 < len {
            len -= 1;
            let hash = hash(self.store.row(len));
            self.table.remove(hash, len);
        }
        self.store.truncate(mark.0);
    }
}

/// Where a search for a row ends.
enum Found {
    /// At the row of this number.
    Row(u64),
    /// At a free slot: the row is not there.
    Free(usize),
}

/// Searches for a row of this hash.
#[tactic(auto, using(crate::proofs::SlotLaws::length_marks))]
fn search(table: &Table, store: &Store, hash: u64, row: &[u64]) -> Found
    requires hash { hash ≡ hash_of row.now }
    requires rows { AreInterned store.now.rows
        (marks_in table.now.slots.items) (rows_in table.now.slots.items) }
    ensures { IsFound store.now.rows (marks_in table.now.slots.items) row.now result }
{
    let mark = mark_of(hash);
    for at in 0..table.reach() {
        let slot = table.searched(hash, at);
        let found = table.slots[slot];
        if found.mark == FREE {
            return Found::Free(slot);
        }
        if found.mark == mark {
            let id = found.row();
            if store.row(id) == row {
                return Found::Row(id);
            }
        }
    }
    unreachable!()
}

/// The slot for one more row: the one that was found or, where the table has no room, one of a
/// larger table.
#[tactic(auto, using(crate::proofs::SlotLaws::length_marks))]
fn free_slot(store: &Store, table: &mut Table, hash: u64, slot: usize) -> Result<usize, AllocError>
    requires rows { AreInterned store.now.rows
        (marks_in table.old.slots.items) (rows_in table.old.slots.items) }
    requires found { IsFirstFree (marks_in table.old.slots.items) hash slot }
    ensures rows { AreInterned store.now.rows
        (marks_in table.new.slots.items) (rows_in table.new.slots.items) }
    ensures first { IfOk result (IsFirstFree (marks_in table.new.slots.items) hash) }
    ensures room { OnOk result (length store.now.rows < most_rows (length table.new.slots.items)) }
    ensures kept { length table.old.slots.items ≤ length table.new.slots.items }
    ensures succeeds { length store.now.rows < most_rows (length table.old.slots.items) →
        IsOk result }
{
    if store.len() < most_rows(table.size()) {
        return Ok(slot);
    }
    make_room(store, table, 1)?;
    Ok(table.first_free(hash))
}

/// Makes the table larger where it has no room for so many more rows than are stored.
#[tactic(auto, using(crate::proofs::SlotLaws::length_marks))]
fn make_room(store: &Store, table: &mut Table, more: usize) -> Result<(), AllocError>
    requires { AreInterned store.now.rows
        (marks_in table.old.slots.items) (rows_in table.old.slots.items) }
    ensures rows { AreInterned store.now.rows
        (marks_in table.new.slots.items) (rows_in table.new.slots.items) }
    ensures ok { OnOk result
        (length store.now.rows + more ≤ most_rows (length table.new.slots.items)) }
    ensures kept { length table.old.slots.items ≤ length table.new.slots.items }
    ensures succeeds { length store.now.rows + more ≤ most_rows (length table.old.slots.items) →
        IsOk result }
{
    if most_rows(table.size()) - store.len() < more {
        let alloc = *table.slots.allocator();
        *table = larger_table(alloc, store, more)?;
    }
    Ok(())
}

/// A table of the stored rows, put in one after another, with room for so many more.
#[tactic(auto, using(crate::proofs::SlotLaws::length_marks))]
fn larger_table(alloc: Global, store: &Store, more: usize) -> Result<Table, AllocError>
    requires { AreDistinct store.now.rows }
    ensures rows { IfOk result (λ t.
        AreInterned store.now.rows (marks_in t.slots.items) (rows_in t.slots.items)) }
    ensures room { IfOk result
        (λ t. length store.now.rows + more ≤ most_rows (length t.slots.items)) }
{
    let wanted = store.len().saturating_add(more);
    if MOST_ROWS < wanted {
        return Err(AllocError);
    }
    let size = (wanted + wanted / 2).max(FIRST_SLOTS).next_power_of_two();
    let mut table = Table::new(alloc, size)?;
    for id in 0..store.len() {
        let hash = hash(store.row(id as u64));
        let slot = table.first_free(hash);
        table.put(slot, hash, id as u64);
    }
    Ok(table)
}
