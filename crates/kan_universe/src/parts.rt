//! The parts of the equivalence along a line of types, and the earlier recipes of the unfolding.

ghost use Rattle.std.specs.Prelude.{◌≡◌, ◌<◌, Some, slice_get, slice_index};
ghost use Rattle.recipes.specs.Statements.{Statement};
ghost use Rattle.kan_calls.specs.Calls.{IsRecipe};
ghost use Rattle.kan_universe.specs.Parts.{lines, equivalence_parts, universe_parts};
ghost use Rattle.kan_universe.specs.Parts.{most_of_lines, most_of_equivalence_parts};
ghost use Rattle.kan_universe.specs.Parts.{most_of_universe_parts};

use crate::lines::Lines;
use crate::{
    ASSEMBLE, ASSEMBLE_GIVES, EQV, EQV_GIVES, EQV_M, EQV_M_GIVES, EQV_N, EQV_N_GIVES, EQV_UV,
    EQV_UV_GIVES, EQV_W, EQV_W_GIVES, assemble_is_derived, eqv_is_derived, eqv_m_is_derived,
    eqv_n_is_derived, eqv_uv_is_derived, eqv_w_is_derived,
};
use book::{Book, Few};
use glue_entries::{EQUIV_TYCONG, EQUIV_TYCONG_GIVES, equivalences_are_derived};
use kan_calls::Recipe;
use recipe_runner::{Earlier, run};
use std::alloc::AllocError;

/// The recipe of this number, of the parts of the equivalence.
fn equivalence_recipe(number: u16) -> Recipe
    requires { number < 5 }
    ensures { (s : Statement) → slice_get equivalence_parts number ≡ Some s →
        IsRecipe lines (slice_index most_of_lines) s result.rows.now result.gives.now
        (slice_index most_of_equivalence_parts number) }
{
    match number {
        0 => {
            eqv_uv_is_derived();
            Recipe {
                rows: EQV_UV,
                gives: EQV_UV_GIVES,
            }
        }
        1 => {
            eqv_m_is_derived();
            Recipe {
                rows: EQV_M,
                gives: EQV_M_GIVES,
            }
        }
        2 => {
            eqv_n_is_derived();
            Recipe {
                rows: EQV_N,
                gives: EQV_N_GIVES,
            }
        }
        3 => {
            eqv_w_is_derived();
            Recipe {
                rows: EQV_W,
                gives: EQV_W_GIVES,
            }
        }
        _ => {
            assemble_is_derived();
            Recipe {
                rows: ASSEMBLE,
                gives: ASSEMBLE_GIVES,
            }
        }
    }
}

/// The parts of the equivalence along a line, by the numbers 0 to 4.
pub struct EquivalenceParts;

impl Earlier for EquivalenceParts {
    ghost states = { λ s. equivalence_parts };

    ghost most = { λ s k. slice_index most_of_equivalence_parts k };

    fn count_parts(&self, recipe: u16) -> usize {
        match recipe {
            0 => 2,
            1 => 2,
            2 => 2,
            3 => 2,
            _ => 8,
        }
    }

    fn count_premises(&self, recipe: u16) -> usize {
        match recipe {
            0 => 2,
            1 => 8,
            2 => 8,
            _ => 16,
        }
    }

    fn derive(
        &self,
        book: &mut Book,
        recipe: u16,
        parts: &[u64],
        premises: &[u64],
    ) -> Result<Few, AllocError> {
        let table = equivalence_recipe(recipe);
        Ok(run(book, &Lines, table.rows, table.gives, parts, premises)?)
    }
}

/// The recipe of this number, of those that the unfolding names.
fn universe_recipe(number: u16) -> Recipe
    requires { number < 2 }
    ensures { (s : Statement) → slice_get universe_parts number ≡ Some s →
        IsRecipe equivalence_parts (slice_index most_of_equivalence_parts) s
        result.rows.now result.gives.now (slice_index most_of_universe_parts number) }
{
    match number {
        0 => {
            eqv_is_derived();
            Recipe {
                rows: EQV,
                gives: EQV_GIVES,
            }
        }
        _ => {
            equivalences_are_derived();
            Recipe {
                rows: EQUIV_TYCONG,
                gives: EQUIV_TYCONG_GIVES,
            }
        }
    }
}

/// The equivalence along a line, and equal types of equivalences, by the numbers 0 and 1.
pub struct UniverseParts;

impl Earlier for UniverseParts {
    ghost states = { λ s. universe_parts };

    ghost most = { λ s k. slice_index most_of_universe_parts k };

    fn count_parts(&self, recipe: u16) -> usize {
        match recipe {
            0 => 2,
            _ => 5,
        }
    }

    fn count_premises(&self, recipe: u16) -> usize {
        match recipe {
            0 => 2,
            _ => 7,
        }
    }

    fn derive(
        &self,
        book: &mut Book,
        recipe: u16,
        parts: &[u64],
        premises: &[u64],
    ) -> Result<Few, AllocError> {
        let table = universe_recipe(recipe);
        Ok(run(
            book,
            &EquivalenceParts,
            table.rows,
            table.gives,
            parts,
            premises,
        )?)
    }
}
