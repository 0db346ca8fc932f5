//! Worked rows, rows at the ends of chunks, and many rows released and interned again.

ghost use Rattle.std.specs.Prelude.{◌≤◌, length};

use crate::{MOST_WORDS, Mark, Region};
use std::alloc::Global;
use std::process::Abort;
use std::test::Fail;

/// Interns a row, whose number is known, and reads it back.
fn intern(rt: &impl Abort, region: &mut Region, row: &[u64], number: u64) -> Result<(), Fail>
    requires { length row.now ≤ 4096 }
{
    let id = region.intern(row)?;
    assert_eq!(rt; id.0, number);
    assert!(rt; id.0 < region.len());
    assert_eq!(rt; region.row(id), row);
    Ok(())
}

/// Releases the rows from a number on.
fn release(rt: &impl Abort, region: &mut Region, mark: u64) {
    assert!(rt; mark <= region.len());
    region.release(Mark(mark));
    assert_eq!(rt; region.len(), mark);
    assert_eq!(rt; region.mark(), Mark(mark));
}

#[test]
fn equal_rows_have_one_number_until_they_are_released(rt: HostRuntime) -> Result<(), Fail> {
    let mut region = Region::new(rt.alloc())?;
    let table: [(&[u64], u64); 6] = [
        (&[1, 2], 0),
        (&[1, 2], 0),
        (&[3], 1),
        (&[1], 2),
        (&[], 3),
        (&[2, 1], 4),
    ];
    for (row, number) in table {
        assert!(rt; row.len() <= MOST_WORDS);
        intern(&rt, &mut region, row, number)?;
    }
    release(&rt, &mut region, 1);
    let again: [(&[u64], u64); 4] = [(&[3], 1), (&[2, 1], 2), (&[1, 2], 0), (&[], 3)];
    for (row, number) in again {
        assert!(rt; row.len() <= MOST_WORDS);
        intern(&rt, &mut region, row, number)?;
    }
    Ok(())
}

/// So many words that no other row of a test has.
fn words(alloc: Global, row: u64, length: u64) -> Result<Vec<u64>, Fail> {
    let mut words = Vec::new(alloc);
    for at in 0..length {
        words.push(row << 32 | at)?;
    }
    Ok(words)
}

/// The first chunk is filled to its last word, the fourth row lacks one word to fit beside the
/// third, and a row may fill a chunk.
const LENGTHS: [u64; 8] = [0, 1, 4_095, 2, 4_095, 4_096, 1, 4_096];

#[test]
fn rows_stand_whole_in_chunks(rt: HostRuntime) -> Result<(), Fail> {
    let mut region = Region::new(rt.alloc())?;
    for _ in 0..2 {
        for (number, length) in LENGTHS.iter().enumerate() {
            let row = words(rt.alloc(), number as u64, *length)?;
            assert!(rt; row.len() <= MOST_WORDS);
            intern(&rt, &mut region, &row, number as u64)?;
        }
    }
    release(&rt, &mut region, 3);
    for (number, length) in LENGTHS.iter().enumerate() {
        let row = words(rt.alloc(), number as u64, *length)?;
        assert!(rt; row.len() <= MOST_WORDS);
        intern(&rt, &mut region, &row, number as u64)?;
    }
    Ok(())
}

#[test]
fn many_rows_are_released_and_interned_again(rt: HostRuntime) -> Result<(), Fail> {
    let mut region = Region::new(rt.alloc())?;
    for number in 0..100_000 {
        intern(&rt, &mut region, &[number, number / 7, 5], number)?;
    }
    for tenth in (0..10_000u64).rev() {
        release(&rt, &mut region, 10 * tenth);
        intern(&rt, &mut region, &[tenth], 10 * tenth)?;
        release(&rt, &mut region, 10 * tenth);
    }
    for number in 0..100_000 {
        intern(&rt, &mut region, &[number, number / 7, 5], number)?;
    }
    Ok(())
}

#[test]
fn room_is_made_or_refused_as_a_whole(rt: HostRuntime) -> Result<(), Fail> {
    let mut region = Region::new(rt.alloc())?;
    intern(&rt, &mut region, &[8], 0)?;
    for (rows, words) in [(u64::MAX, 0), (0, u64::MAX), (1 << 61, 1 << 61)] {
        assert!(rt; region.reserve(rows, words).is_err());
        intern(&rt, &mut region, &[8], 0)?;
    }
    for (rows, words) in [(0, 0), (1, 4_096), (10_000, 30_000)] {
        region.reserve(rows, words)?;
        intern(&rt, &mut region, &[8], 0)?;
    }
    Ok(())
}
