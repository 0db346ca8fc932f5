//! The things that a row of the file names.

ghost use Rattle.std.specs.Prelude.{◌≡◌, ◌<◌, length, slice_get, option_map};
ghost use Rattle.std.specs.Prelude.{IfOk, IfSome, IfNone, Some};
ghost use Rattle.std.specs.List.{All};
ghost use Rattle.trees.specs.Things.{kind_of};
ghost use Rattle.rows.specs.Shown.{things};
ghost use Rattle.derivation.specs.Meanings.{thing_at};
ghost use Rattle.replay.specs.Filed.{file_meanings, AllFiled};
ghost use Rattle.replay.specs.Named.{Names, NamesNone, NamesOne, NamesTwo, NamesNoTwo};

use crate::filed::Filed;
use crate::filed_rows::FiledRows;
use rows::RowStore;
use std::alloc::{AllocError, Global};
use theory::PartKind;

/// The row of the store for a row of the file, where this is a thing of the kind.
pub fn named(store: &RowStore, filed: &FiledRows, number: u64, kind: PartKind) -> Option<u64>
    requires filed { AllFiled (things store.now) filed.now }
    requires earlier { number < length filed.now }
    ensures some { IfSome result (NamesOne (things store.now) filed.now number kind) }
    ensures none { IfNone result (let f = thing_at (file_meanings (things store.now) filed.now) in
        option_map kind_of (f number) ≡ Some kind → ⊥) }
{
    match filed.row(number) {
        Filed::Thing(row) => {
            if store.kind(row) == kind {
                Some(row)
            } else {
                None
            }
        }
        Filed::Node(_) => None,
        Filed::Nothing => None,
    }
}

/// The rows of the store for two rows of the file, where these are things of the kinds.
pub fn named_two(
    store: &RowStore,
    filed: &FiledRows,
    first: (u64, PartKind),
    second: (u64, PartKind),
) -> Option<(u64, u64)>
    requires filed { AllFiled (things store.now) filed.now }
    requires first { first.0 < length filed.now }
    requires second { second.0 < length filed.now }
    ensures some { IfSome result (NamesTwo (things store.now) filed.now first second) }
    ensures none { IfNone result (NamesNoTwo (things store.now) filed.now first second) }
{
    let (number, kind) = first;
    let (other, other_kind) = second;
    let first_row = named(store, filed, number, kind)?;
    let second_row = named(store, filed, other, other_kind)?;
    Some((first_row, second_row))
}

/// The rows of the store for rows of the file, where these are things of the kinds.
pub fn named_rows(
    alloc: Global,
    store: &RowStore,
    filed: &FiledRows,
    numbers: &[u64],
    kinds: &[PartKind],
) -> Result<Option<Vec<u64>>, AllocError>
    requires filed { AllFiled (things store.now) filed.now }
    requires count { length numbers.now ≡ length kinds.now }
    requires earlier { All (λ k. k < length filed.now) numbers.now }
    ensures some { IfOk result (λ found. IfSome found (λ rows.
        Names (things store.now) filed.now numbers.now kinds.now rows.items)) }
    ensures none { IfOk result (λ found. IfNone found
        (NamesNone (things store.now) filed.now numbers.now kinds.now)) }
{
    let mut rows = Vec::with_capacity(alloc, numbers.len())?;
    for at in 0..numbers.len() {
        let Some(row) = named(store, filed, numbers[at], kinds[at]) else {
            return Ok(None);
        };
        rows.push(row)?;
    }
    Ok(Some(rows))
}
