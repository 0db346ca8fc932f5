//! Rows that were made of late.

use std::alloc::Global;

/// The bits of a digest that tell its place.
const BITS: u32 = 12;

/// How many rows are remembered at most, in 64 KB.
const PLACES: usize = 1 << BITS;

/// A row, with the digest of what it holds.
#[derive(Clone, Copy, Debug)]
struct Place {
    digest: u64,
    row: u64,
}

/// The newest row of each place, by a digest of what it holds. Nothing is promised of it, not even
/// that it still stands: who takes it looks at what it holds. Where there was no memory for the
/// places, none is remembered.
#[derive(Drop)]
pub struct Recent {
    places: Vec<Place>,
}

impl Recent {
    pub fn new(alloc: Global) -> Recent {
        let mut places = Vec::new(alloc);
        let _ = places.resize(PLACES, Place { digest: 0, row: 0 });
        Recent { places }
    }

    /// The newest row of a digest, where no other took its place.
    #[inline(always)]
    pub fn at(&self, digest: u64) -> Option<u64> {
        let place = self.places.get(place_of(digest))?;
        if place.digest == digest {
            Some(place.row)
        } else {
            None
        }
    }

    #[inline(always)]
    pub fn put(&mut self, digest: u64, row: u64) {
        if let Some(place) = self.places.get_mut(place_of(digest)) {
            *place = Place { digest, row };
        }
    }
}

/// Of a digest the first bits, which every number of a row moves.
#[inline(always)]
fn place_of(digest: u64) -> usize {
    (digest >> (u64::BITS - BITS)) as usize
}
