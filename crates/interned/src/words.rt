//! The words of one row, held in place.

ghost use Rattle.std.specs.Prelude.{◌≡◌, ◌≤◌, ◌+◌, ◌++◌, [], length};

use std::marker::Model;

/// The words of a row, at most `N`: a short row is moved at less cost. Contracts see the list of
/// them.
#[derive(Drop)]
pub struct Words<const N: usize> {
    cells: [u64; N],
    count: usize,
}

impl<const N: usize> Model for Words<N> {
    ghost use Rattle.std.specs.Prelude.{ℕ, List, ◌≤◌, take};

    ghost Value = { List ℕ };

    ghost view = { λ w. take w.count w.cells };

    ghost invariant = { λ w. w.count ≤ N };
}

impl<const N: usize> Words<N> {
    /// No words.
    pub fn new() -> Words<N>
        ensures { result ≡ [] }
    {
        Words {
            cells: [0; N],
            count: 0,
        }
    }

    /// Appends words.
    pub fn append(&mut self, more: &[u64])
        requires { length self.old + length more.now ≤ N }
        ensures { self.new ≡ self.old ++ more.now }
    {
        let end = self.count + more.len();
        let cells: &mut [u64] = &mut self.cells;
        cells[self.count..end].copy_from_slice(more);
        self.count = end;
    }

    /// The words, in order.
    pub fn as_slice(&self) -> &[u64]
        ensures value { result.now ≡ self.now }
        ensures few { length result.now ≤ N }
    {
        &self.cells[..self.count]
    }
}
