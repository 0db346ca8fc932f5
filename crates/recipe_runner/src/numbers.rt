//! What rows of a recipe made, as numbers of rows and nodes.

ghost use Rattle.std.specs.Prelude.{◌≡◌, ◌+◌, ◌<◌, ◌≤◌, ◌++◌, ◌∷◌, [], length};

use std::marker::Model;

/// The most numbers that the rows of a recipe make.
pub const MOST_NUMBERS: usize = 512;

/// A list of at most 512 numbers, held in place, so that it takes no memory. Contracts see the
/// list.
#[derive(Drop)]
pub struct Numbers {
    cells: [u64; MOST_NUMBERS],
    count: usize,
}

impl Model for Numbers {
    ghost use Rattle.std.specs.Prelude.{ℕ, List, ◌≤◌, take};

    ghost Value = { List ℕ };

    ghost view = { λ s. take s.count s.cells };

    ghost invariant = { λ s. s.count ≤ 512 };
}

impl Numbers {
    /// The empty list.
    pub fn new() -> Numbers
        ensures { result ≡ [] }
    {
        Numbers {
            cells: [0; MOST_NUMBERS],
            count: 0,
        }
    }

    /// Appends a number.
    pub fn push(&mut self, number: u64)
        requires { length self.old < 512 }
        ensures { self.new ≡ self.old ++ number ∷ [] }
    {
        self.cells[self.count] = number;
        self.count += 1;
    }

    /// Appends some.
    pub fn append(&mut self, numbers: &[u64])
        requires { length self.old + length numbers.now ≤ 512 }
        ensures { self.new ≡ self.old ++ numbers.now }
    {
        for number in numbers {
            self.push(*number);
        }
    }

    /// The numbers, in order.
    pub fn as_slice(&self) -> &[u64]
        ensures value { result.now ≡ self.now }
        ensures few { length result.now ≤ 512 }
    {
        &self.cells[..self.count]
    }
}
