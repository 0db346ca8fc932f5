//! A short stack of rows, held in place.

ghost use Rattle.std.specs.Prelude.{◌≡◌, ◌<◌, ◌≤◌, ℕ, List, [], ◌∷◌, length, take, drop};

use std::marker::Model;

/// How many rows a stack holds at most.
pub const MOST: usize = 16;

/// A stack of at most `MOST` rows. Contracts see the list of them, the last pushed first.
#[derive(Drop)]
pub struct Stack {
    cells: [u64; MOST],
    top: usize,
}

impl Model for Stack {
    ghost Value = { List ℕ };

    ghost view = { λ s. drop s.top s.cells };

    ghost invariant = { λ s. s.top ≤ 16 };
}

impl Stack {
    /// The stack with no row.
    pub fn new() -> Self
        ensures { result ≡ [] }
    {
        Stack {
            cells: [0; MOST],
            top: MOST,
        }
    }

    /// Puts a row on top.
    pub fn push(&mut self, row: u64)
        requires { length self.old < 16 }
        ensures { self.new ≡ row ∷ self.old }
    {
        self.top -= 1;
        self.cells[self.top] = row;
    }

    /// Takes the row from the top.
    pub fn pop(&mut self) -> u64
        requires { 0 < length self.old }
        ensures { self.old ≡ result ∷ self.new }
    {
        let row = self.cells[self.top];
        self.top += 1;
        row
    }

    /// Takes the first two rows off the stack.
    pub fn pop_two(&mut self) -> (u64, u64)
        requires { 2 ≤ length self.old }
        ensures { self.old ≡ result.0 ∷ result.1 ∷ self.new }
    {
        let first = self.pop();
        (first, self.pop())
    }

    /// The first rows of the stack.
    pub fn first(&self, count: usize) -> &[u64]
        requires { count ≤ length self.now }
        ensures { result.now ≡ take count self.now }
    {
        &self.cells[self.top..self.top + count]
    }

    /// Takes so many rows off the stack.
    pub fn remove(&mut self, count: usize)
        requires { count ≤ length self.old }
        ensures { self.new ≡ drop count self.old }
    {
        self.top += count;
    }
}
