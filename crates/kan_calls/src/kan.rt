//! The four derived rules, as the rows of other recipes name them.

ghost use Rattle.std.specs.Prelude.{slice_index};
ghost use Rattle.kan_fill.specs.Statements.{kan_statements};
ghost use Rattle.kan_calls.specs.Calls.{most_of_each};

use crate::earlier::{Contraction, Filling};
use book::{Book, Few};
use kan_fill::{EXT, EXT_GIVES, PRES, PRES_GIVES, extension_is_derived, preservation_is_derived};
use recipe_runner::{Earlier, run};
use std::alloc::AllocError;

/// Filling, contraction, preservation and extension, by the numbers 0 to 3.
pub struct Kan;

impl Earlier for Kan {
    ghost states = { λ s. kan_statements };

    ghost most = { λ s k. slice_index most_of_each k };

    fn count_parts(&self, recipe: u16) -> usize {
        match recipe {
            0 => Filling.count_parts(0),
            1 => Contraction.count_parts(0),
            2 => 7,
            _ => 7,
        }
    }

    fn count_premises(&self, recipe: u16) -> usize {
        match recipe {
            0 => Filling.count_premises(0),
            1 => Contraction.count_premises(0),
            2 => 7,
            _ => 6,
        }
    }

    fn derive(
        &self,
        book: &mut Book,
        recipe: u16,
        parts: &[u64],
        premises: &[u64],
    ) -> Result<Few, AllocError> {
        match recipe {
            0 => Ok(Filling.derive(book, 0, parts, premises)?),
            1 => Ok(Contraction.derive(book, 0, parts, premises)?),
            2 => {
                preservation_is_derived();
                Ok(run(book, &Filling, PRES, PRES_GIVES, parts, premises)?)
            }
            _ => {
                extension_is_derived();
                Ok(run(book, &Contraction, EXT, EXT_GIVES, parts, premises)?)
            }
        }
    }
}
