//! The earlier recipe of the entries.

ghost use Rattle.std.specs.Prelude.{[], ◌∷◌};
ghost use Rattle.glue_entries.specs.Statements.{equiv_tycong_statement};
ghost use Rattle.recipe_runner.specs.Running.{most_added_by};
ghost use Rattle.glue_entries.specs.declared.equiv_tycong.TheConstants.{EQUIV_TYCONG};

use book::{Book, Few};
use glue_entries::{EQUIV_TYCONG, EQUIV_TYCONG_GIVES, equivalences_are_derived};
use recipe_runner::{Earlier, NoRecipes, run};
use std::alloc::AllocError;

/// That types of equivalences are equal where their ends are.
pub struct Equivalences;

impl Earlier for Equivalences {
    ghost states = { λ s. equiv_tycong_statement ∷ [] };

    ghost most = { λ s k. most_added_by (λ j. 0) EQUIV_TYCONG.now };

    fn count_parts(&self, _recipe: u16) -> usize {
        5
    }

    fn count_premises(&self, _recipe: u16) -> usize {
        7
    }

    fn derive(
        &self,
        book: &mut Book,
        _recipe: u16,
        parts: &[u64],
        premises: &[u64],
    ) -> Result<Few, AllocError> {
        equivalences_are_derived();
        Ok(run(
            book,
            &NoRecipes,
            EQUIV_TYCONG,
            EQUIV_TYCONG_GIVES,
            parts,
            premises,
        )?)
    }
}
