//! The words of a line.

ghost use Rattle.std.specs.Prelude.{◌≡◌, ◌≢◌, ◌<◌, ◌↔◌, ℕ, List, [], ◌∷◌, ◌++◌, MatchOption};
ghost use Rattle.std.specs.Prelude.{IfOk, IfSome, IfNone, IsTrue, decimal, map};
ghost use Rattle.deriv_file.specs.Spelling.{Earlier};
ghost use Rattle.std.specs.List.{All};
ghost use Rattle.deriv_file.specs.Words.{line_words, BeginWith};

use crate::ids::Ids;
use crate::number::number;
use std::alloc::{AllocError, Global};
use std::marker::Model;

/// What stands before the first byte of a value, and what after it.
pub(crate) fn split_at_first(bytes: &[u8], mark: u8) -> Option<(&[u8], &[u8])>
    ensures some { IfSome result
        (λ parts. (bytes.now ≡ parts.0.now ++ mark ∷ parts.1.now) ×
        All (λ b. b ≢ mark) parts.0.now) }
    ensures none { IfNone result (All (λ b. b ≢ mark) bytes.now) }
{
    for (i, byte) in bytes.iter().enumerate() {
        if *byte == mark {
            let (before, rest) = bytes.split_at(i);
            return Some((before, rest.split_at(1).1));
        }
    }
    None
}

/// The words of a line that are not taken yet.
#[derive(Drop)]
pub(crate) struct Words<'a> {
    rest: Option<&'a [u8]>,
}

impl<'a> Model for Words<'a> {
    ghost use Rattle.std.specs.Prelude.{List, ℕ};
    ghost use Rattle.deriv_file.specs.Words.{words_left};

    ghost Value = { List (List ℕ) };

    ghost view = { λ a. words_left a.rest };
}

impl<'a> Words<'a> {
    /// The words between the spaces of a line without its newline.
    pub(crate) fn new(line: &'a [u8]) -> Words<'a>
        ensures { result ≡ line_words line.now }
    {
        Words { rest: Some(line) }
    }

    /// Takes the next word, if one is left.
    pub(crate) fn take(&mut self) -> Option<&'a [u8]>
        ensures { MatchOption result ((self.old ≡ []) × (self.new ≡ []))
            (λ word. self.old ≡ word.now ∷ self.new) }
    {
        let rest = self.rest?;
        match split_at_first(rest, b' ') {
            Some((word, after)) => {
                self.rest = Some(after);
                Some(word)
            }
            None => {
                self.rest = None;
                Some(rest)
            }
        }
    }

    /// Whether no word is left.
    pub(crate) fn is_empty(&self) -> bool
        ensures { IsTrue result ↔ (self.now ≡ []) }
    {
        self.rest.is_none()
    }

    /// Takes the next word, if it is a number below a bound.
    pub(crate) fn number_below(&mut self, bound: u64) -> Option<u64>
        ensures some { IfSome result (λ n. (self.old ≡ decimal n ∷ self.new) × (n < bound)) }
        ensures none { IfNone result
            ((n : ℕ) (more : List (List ℕ)) → self.old ≡ decimal n ∷ more → n < bound → ⊥) }
    {
        let n = number(self.take()?)?;
        if n < bound { Some(n) } else { None }
    }

    /// Takes the last word, if it is a number below a bound.
    pub(crate) fn last_below(&mut self, bound: u64) -> Option<u64>
        ensures some { IfSome result (λ n. (self.old ≡ decimal n ∷ []) × (n < bound)) }
        ensures none { IfNone result ((n : ℕ) → self.old ≡ decimal n ∷ [] → n < bound → ⊥) }
    {
        let n = self.number_below(bound)?;
        if self.is_empty() { Some(n) } else { None }
    }

    /// Takes the last two words, if they are the numbers of rows before row `at`.
    pub(crate) fn last_two(&mut self, at: u64) -> Option<(u64, u64)>
        ensures some { IfSome result (λ rows. let numbers = rows.0 ∷ rows.1 ∷ [] in
            (self.old ≡ map decimal numbers) × All (Earlier at) numbers) }
        ensures none { IfNone result ((first second : ℕ) → let numbers = first ∷ second ∷ [] in
            self.old ≡ map decimal numbers → All (Earlier at) numbers → ⊥) }
    {
        let first = self.number_below(at)?;
        let second = self.last_below(at)?;
        Some((first, second))
    }

    /// Takes the next words, if they are the numbers of so many rows before row `at`.
    pub(crate) fn numbers(
        &mut self,
        alloc: Global,
        count: u8,
        at: u64,
    ) -> Result<Option<Ids>, AllocError>
        ensures some { IfOk result
            (λ found. IfSome found (λ ids. BeginWith self.old count at ids self.new)) }
        ensures none { IfOk result (λ found. IfNone found
            ((ids : List ℕ) (more : List (List ℕ)) → BeginWith self.old count at ids more → ⊥)) }
    {
        let mut ids = Ids::with_capacity(alloc, count as usize)?;
        for _ in 0..count {
            let Some(id) = self.number_below(at) else {
                return Ok(None);
            };
            ids.push(id)?;
        }
        Ok(Some(ids))
    }
}
