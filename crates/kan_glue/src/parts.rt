//! The earlier recipes of the unfolding.

ghost use Rattle.std.specs.Prelude.{◌≡◌, ◌<◌, Some, slice_get, slice_index};
ghost use Rattle.recipes.specs.Statements.{Statement};
ghost use Rattle.kan_fill.specs.Statements.{kan_statements};
ghost use Rattle.kan_calls.specs.Calls.{IsRecipe, most_of_each};
ghost use Rattle.kan_glue.specs.Parts.{glue_parts, most_of_glue_parts};

use crate::{
    EXTEND, EXTEND_GIVES, GLUE_ALL, GLUE_ALL_GIVES, GLUE_BASE, GLUE_BASE_GIVES, REGLUE,
    REGLUE_GIVES, extend_is_derived, glue_all_is_derived, glue_base_is_derived, reglue_is_derived,
};
use book::{Book, Few};
use kan_calls::{Kan, Recipe};
use recipe_runner::{Earlier, run};
use std::alloc::AllocError;

/// The recipe of this number.
fn recipe_of(number: u16) -> Recipe
    requires { number < 4 }
    ensures { (s : Statement) → slice_get glue_parts number ≡ Some s →
        IsRecipe kan_statements (slice_index most_of_each) s result.rows.now result.gives.now
        (slice_index most_of_glue_parts number) }
{
    match number {
        0 => {
            glue_base_is_derived();
            Recipe {
                rows: GLUE_BASE,
                gives: GLUE_BASE_GIVES,
            }
        }
        1 => {
            glue_all_is_derived();
            Recipe {
                rows: GLUE_ALL,
                gives: GLUE_ALL_GIVES,
            }
        }
        2 => {
            extend_is_derived();
            Recipe {
                rows: EXTEND,
                gives: EXTEND_GIVES,
            }
        }
        _ => {
            reglue_is_derived();
            Recipe {
                rows: REGLUE,
                gives: REGLUE_GIVES,
            }
        }
    }
}

/// These, by the numbers 0 to 3.
pub struct GlueParts;

impl Earlier for GlueParts {
    ghost states = { λ s. glue_parts };

    ghost most = { λ s k. slice_index most_of_glue_parts k };

    fn count_parts(&self, recipe: u16) -> usize {
        match recipe {
            0 => 8,
            1 => 8,
            _ => 9,
        }
    }

    fn count_premises(&self, recipe: u16) -> usize {
        match recipe {
            0 => 7,
            1 => 10,
            _ => 9,
        }
    }

    fn derive(
        &self,
        book: &mut Book,
        recipe: u16,
        parts: &[u64],
        premises: &[u64],
    ) -> Result<Few, AllocError> {
        let table = recipe_of(recipe);
        Ok(run(book, &Kan, table.rows, table.gives, parts, premises)?)
    }
}
