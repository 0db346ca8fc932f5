//! The earlier recipes that preservation and extension name.

ghost use Rattle.kan_fill.specs.Statements.{fill_statement, contr_statement};
ghost use Rattle.std.specs.Prelude.{[], ◌∷◌};
ghost use Rattle.kan_calls.specs.Calls.{most_of_filling, most_of_contraction};

use book::{Book, Few};
use kan_fill::{CONTR, CONTR_GIVES, FILL, FILL_GIVES, contraction_is_derived, filling_is_derived};
use recipe_runner::{Earlier, NoRecipes, run};
use std::alloc::AllocError;

/// Filling alone.
pub struct Filling;

impl Earlier for Filling {
    ghost states = { λ s. fill_statement ∷ [] };

    ghost most = { λ s k. most_of_filling };

    fn count_parts(&self, _recipe: u16) -> usize {
        6
    }

    fn count_premises(&self, _recipe: u16) -> usize {
        5
    }

    fn derive(
        &self,
        book: &mut Book,
        _recipe: u16,
        parts: &[u64],
        premises: &[u64],
    ) -> Result<Few, AllocError> {
        filling_is_derived();
        Ok(run(book, &NoRecipes, FILL, FILL_GIVES, parts, premises)?)
    }
}

/// Contraction alone.
pub struct Contraction;

impl Earlier for Contraction {
    ghost states = { λ s. contr_statement ∷ [] };

    ghost most = { λ s k. most_of_contraction };

    fn count_parts(&self, _recipe: u16) -> usize {
        5
    }

    fn count_premises(&self, _recipe: u16) -> usize {
        4
    }

    fn derive(
        &self,
        book: &mut Book,
        _recipe: u16,
        parts: &[u64],
        premises: &[u64],
    ) -> Result<Few, AllocError> {
        contraction_is_derived();
        Ok(run(book, &NoRecipes, CONTR, CONTR_GIVES, parts, premises)?)
    }
}
