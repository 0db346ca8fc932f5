//! Rows of words in chunks.
//!
//! A row stands whole in one chunk. A chunk has room for its 4,096 words from the first, so it
//! never moves. A row goes into the current chunk or, where it doesn't fit there, into the next
//! one.

ghost use Rattle.std.specs.Prelude.{◌≡◌, ◌+◌, ◌*◌, ◌<◌, ◌≤◌, ◌^◌, ◌↔◌, [], ◌∷◌, ◌++◌, length};
ghost use Rattle.std.specs.Prelude.{take, IfOk, OnOk, OnErr, IsOk, slice_get};
ghost use Rattle.region.specs.Layouts.{AreChunks, KeepsChunks, IsChunkFor, spare_in};

use std::alloc::{AllocError, Global};
use std::marker::Model;

/// How many words a chunk has, and how many a row has at most.
pub const CHUNK_WORDS: usize = 4_096;

/// How many words surely find room in an empty chunk, whatever rows they come in.
const SURE_WORDS: usize = CHUNK_WORDS / 2;

/// The most chunks: a place counts them in 32 bits, which is 128 tebibytes of words.
const MOST_CHUNKS: usize = 1 << 32;

/// Where a row stands: its chunk, its first word there, and how many words it has.
#[derive(Clone, Copy)]
struct Place {
    chunk: u32,
    start: u16,
    length: u16,
}

/// Rows, named by their numbers from 0.
#[derive(Drop)]
pub struct Store {
    chunks: Vec<Vec<u64>>,
    current: usize,
    places: Vec<Place>,
}

impl Model for Store {
    ghost use Rattle.std.specs.Prelude.{◌-◌, length};
    ghost use Rattle.std.specs.Vec.{vec_capacity};
    ghost use Rattle.region.specs.Stored.{Stored};
    ghost use Rattle.region.specs.Layouts.{IsLaidOut, rows_at, spare_in};

    ghost Value = { Stored };

    ghost view = { λ s. record {
      rows = rows_at s.chunks.items s.places.items;
      room = vec_capacity s.places - length s.places.items;
      spare_words = spare_in s.chunks.items s.current;
    } };

    ghost invariant = { λ s. IsLaidOut s.chunks.items s.current s.places.items };
}

impl Store {
    /// No rows.
    pub fn new(alloc: Global) -> Result<Store, AllocError>
        ensures { IfOk result (λ s. s.rows ≡ []) }
    {
        let mut chunks = Vec::new(alloc);
        chunks.push(Vec::with_capacity(alloc, CHUNK_WORDS)?)?;
        Ok(Store {
            chunks,
            current: 0,
            places: Vec::new(alloc),
        })
    }

    pub fn len(&self) -> usize
        ensures { result ≡ length self.now.rows }
    {
        self.places.len()
    }

    pub fn row(&self, id: u64) -> &[u64]
        requires { id < length self.now.rows }
        ensures { slice_get self.now.rows id ≡ Some result.now }
    {
        let place = self.places[id as usize];
        let start = place.start as usize;
        &self.chunks[place.chunk as usize][start..start + place.length as usize]
    }

    /// Room for so many more rows and words. After an error the rows are as before, and the room is
    /// not less.
    pub fn reserve(&mut self, rows: usize, words: usize) -> Result<(), AllocError>
        ensures rows { self.new.rows ≡ self.old.rows }
        ensures room { OnOk result (rows ≤ self.new.room) }
        ensures words { OnOk result (words ≤ self.new.spare_words) }
        ensures room_kept { self.old.room ≤ self.new.room }
        ensures words_kept { self.old.spare_words ≤ self.new.spare_words }
        ensures succeeds { rows ≤ self.old.room → words ≤ self.old.spare_words → IsOk result }
    {
        self.places.reserve(rows)?;
        let left = (CHUNK_WORDS - self.chunks[self.current].len()).min(SURE_WORDS);
        let more = words.saturating_sub(left).div_ceil(SURE_WORDS);
        add_chunks(&mut self.chunks, self.current + 1 + more)
    }

    /// One more row, of at most 4,096 words. After an error the rows are as before.
    pub fn push(&mut self, row: &[u64]) -> Result<(), AllocError>
        requires { length row.now ≤ 4096 }
        ensures ok { OnOk result (self.new.rows ≡ self.old.rows ++ row.now ∷ []) }
        ensures err { OnErr result (self.new.rows ≡ self.old.rows) }
        ensures succeeds { 0 < self.old.room → length row.now ≤ self.old.spare_words → IsOk result }
        ensures room { self.old.room ≤ self.new.room + 1 }
        ensures words { self.old.spare_words ≤ self.new.spare_words + length row.now }
    {
        self.places.reserve(1)?;
        let chosen = chunk_for(&mut self.chunks, self.current, row.len())?;
        let chunk = &mut self.chunks[chosen];
        let start = chunk.len();
        chunk.extend_from_slice(row)?;
        self.current = chosen;
        self.places.push(Place {
            chunk: chosen as u32,
            start: start as u16,
            length: row.len() as u16,
        })?;
        Ok(())
    }

    /// Only the first so many rows stay; the room of the others is kept.
    pub fn truncate(&mut self, len: u64)
        requires { len ≤ length self.old.rows }
        ensures rows { self.new.rows ≡ take len self.old.rows }
        ensures room { self.new.room + len ≡ self.old.room + length self.old.rows }
        ensures words { self.old.spare_words ≤ self.new.spare_words }
    {
        let len = len as usize;
        if len == self.places.len() {
            return;
        }
        let first = self.places[len];
        let chunk = first.chunk as usize;
        self.chunks[chunk].truncate(first.start as usize);
        self.current = chunk;
        self.places.truncate(len);
    }
}

/// Empty chunks more, up to so many chunks in all.
fn add_chunks(chunks: &mut Vec<Vec<u64>>, wanted: usize) -> Result<(), AllocError>
    requires { AreChunks chunks.old.items }
    ensures kept { KeepsChunks (length chunks.old.items) chunks.old.items chunks.new.items }
    ensures ok { OnOk result (wanted ≤ length chunks.new.items) }
    ensures succeeds { wanted ≤ length chunks.old.items → IsOk result }
{
    if MOST_CHUNKS < wanted {
        return Err(AllocError);
    }
    let alloc = *chunks.allocator();
    'more: while chunks.len() < wanted {
        chunks.push(Vec::with_capacity(alloc, CHUNK_WORDS)?)?;
    }
    Ok(())
}

/// A chunk with room for so many words: the current one, or else the next, which is then empty.
fn chunk_for(chunks: &mut Vec<Vec<u64>>, current: usize, words: usize) -> Result<usize, AllocError>
    requires chosen { current < length chunks.old.items }
    requires are { AreChunks chunks.old.items }
    requires few { words ≤ 4096 }
    ensures kept { KeepsChunks (current + 1) chunks.old.items chunks.new.items }
    ensures ok { IfOk result (IsChunkFor chunks.old.items chunks.new.items current words) }
    ensures succeeds { words ≤ spare_in chunks.old.items current → IsOk result }
{
    let left = CHUNK_WORDS - chunks[current].len();
    if words <= left {
        return Ok(current);
    }
    let next = current + 1;
    add_chunks(chunks, next + 1)?;
    chunks[next].clear();
    Ok(next)
}
