//! Short lists of numbers, and uses of rules.

ghost use Rattle.std.specs.Prelude.{◌≡◌, ◌<◌, ◌≤◌, ◌++◌, ◌∷◌, [], length};

use std::marker::Model;
use theory::RuleName;

/// How many numbers a short list has at most.
pub const MOST: usize = 16;

/// A list of at most 16 numbers, held in place. Contracts see the list.
#[derive(Drop)]
pub struct Few {
    cells: [u64; MOST],
    count: usize,
}

impl Model for Few {
    ghost use Rattle.std.specs.Prelude.{ℕ, List, ◌≤◌, take};

    ghost Value = { List ℕ };

    ghost view = { λ s. take s.count s.cells };

    ghost invariant = { λ s. s.count ≤ 16 };
}

impl Few {
    /// The empty list.
    pub fn new() -> Few
        ensures { result ≡ [] }
    {
        Few {
            cells: [0; MOST],
            count: 0,
        }
    }

    /// The list of these numbers.
    pub fn of(numbers: &[u64]) -> Few
        requires { length numbers.now ≤ 16 }
        ensures { result ≡ numbers.now }
    {
        let mut few = Few::new();
        for number in numbers {
            few.push(*number);
        }
        few
    }

    /// Appends a number.
    pub fn push(&mut self, number: u64)
        requires { length self.old < 16 }
        ensures { self.new ≡ self.old ++ number ∷ [] }
    {
        self.cells[self.count] = number;
        self.count += 1;
    }

    /// The numbers, in order.
    pub fn as_slice(&self) -> &[u64]
        ensures value { result.now ≡ self.now }
        ensures few { length result.now ≤ 16 }
    {
        &self.cells[..self.count]
    }
}

/// A use of a rule: its parts are rows, and its premises are nodes, in the order of the rule.
#[derive(Drop)]
pub struct RuleUse {
    pub rule: RuleName,
    pub parts: Few,
    pub premises: Few,
}
