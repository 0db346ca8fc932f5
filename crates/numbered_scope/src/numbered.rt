//! A list that is searched by number.

ghost use Rattle.std.specs.Prelude.{◌≡◌, ◌==◌, ◌<◌, ◌≤◌, ◌-◌, [], ◌∷◌, ◌++◌, length, take, get_or};
ghost use Rattle.std.specs.Prelude.{Option, Some, None, if◌then◌else◌, IsTrue, OnOk};
ghost use Rattle.numbered_scope.specs.Newest.{Ascend, later, newest};

use std::alloc::{AllocError, Global};

/// A value that goes by a number.
#[derive(Clone, Copy, Debug)]
pub struct Numbered<T> {
    pub number: u32,
    pub value: T,
}

/// Values by number, the newest last.
#[derive(Drop)]
pub struct ByNumber<T> {
    pub items: Vec<Numbered<T>>,
    /// Whether no number is below the one before it, so that one search finds a value.
    ascending: bool,
    ghost ascend: { IsTrue ascending → Ascend items.items },
}

impl<T: Copy> ByNumber<T> {
    pub fn new(alloc: Global) -> ByNumber<T>
        ensures { result.items.items ≡ [] }
    {
        ByNumber {
            items: Vec::new(alloc),
            ascending: true,
        }
    }

    /// The newest value of the number.
    pub fn find(&self, number: u32) -> Option<T>
        ensures { result ≡ newest self.now.items.items number }
    {
        if self.ascending {
            searched(&self.items, number)
        } else {
            walked(&self.items, number)
        }
    }

    /// How many values there are.
    pub fn mark(&self) -> usize
        ensures { result ≡ length self.now.items.items }
    {
        self.items.len()
    }

    /// Adds a value.
    pub fn push(&mut self, item: Numbered<T>) -> Result<(), AllocError>
        ensures { OnOk result (self.new.items.items ≡ self.old.items.items ++ item ∷ []) }
    {
        if !is_next(&self.items, item.number) {
            self.ascending = false;
        }
        self.items.push(item)?;
        Ok(())
    }

    /// Takes away the values that came after a mark.
    pub fn cut(&mut self, mark: usize)
        ensures { self.new.items.items ≡ take mark self.old.items.items }
    {
        self.items.truncate(mark);
    }
}

/// The value of an item, if its number is this one; else what was found before.
fn newer<T: Copy>(found: Option<T>, item: Numbered<T>, number: u32) -> Option<T>
    ensures { result ≡ later found (if item.number == number then Some item.value else None) }
{
    if item.number == number {
        Some(item.value)
    } else {
        found
    }
}

/// Whether the last of the numbers is at most this one.
fn is_next<T: Copy>(items: &[Numbered<T>], number: u32) -> bool
    ensures { IsTrue result → (d : Numbered T) → 0 < length items.now →
        (get_or items.now (length items.now - 1) d).number ≤ number }
{
    match items.last() {
        Some(last) => last.number <= number,
        None => true,
    }
}

/// The newest value of the number, where numbers ascend.
fn searched<T: Copy>(items: &[Numbered<T>], number: u32) -> Option<T>
    requires { Ascend items.now }
    ensures { result ≡ newest items.now number }
{
    let up_to = items.partition_point(|item| item.number <= number);
    if up_to == 0 {
        return None;
    }
    newer(None, items[up_to - 1], number)
}

/// The newest value of the number, in any order.
fn walked<T: Copy>(items: &[Numbered<T>], number: u32) -> Option<T>
    ensures { result ≡ newest items.now number }
{
    let mut found = None;
    for item in items {
        found = newer(found, *item, number);
    }
    found
}
