//! Fillings along a line: from its ends, on a square and on a cube.

ghost use Rattle.std.specs.Prelude.{◌≡◌, ◌<◌, Some, slice_get, slice_index};
ghost use Rattle.recipes.specs.Statements.{Statement};
ghost use Rattle.kan_fill.specs.Statements.{kan_statements};
ghost use Rattle.kan_calls.specs.Calls.{IsRecipe, most_of_each};
ghost use Rattle.kan_universe.specs.Parts.{lines, most_of_lines};

use crate::{
    BACK, BACK_GIVES, CUBE, CUBE_GIVES, LINE, LINE_GIVES, SQUARE, SQUARE_GIVES, back_is_derived,
    cube_is_derived, line_is_derived, square_is_derived,
};
use book::{Book, Few};
use kan_calls::{Kan, Recipe};
use recipe_runner::{Earlier, run};
use std::alloc::AllocError;

/// The recipe of this number.
fn line_recipe(number: u16) -> Recipe
    requires { number < 4 }
    ensures { (s : Statement) → slice_get lines number ≡ Some s →
        IsRecipe kan_statements (slice_index most_of_each) s result.rows.now result.gives.now
        (slice_index most_of_lines number) }
{
    match number {
        0 => {
            line_is_derived();
            Recipe {
                rows: LINE,
                gives: LINE_GIVES,
            }
        }
        1 => {
            back_is_derived();
            Recipe {
                rows: BACK,
                gives: BACK_GIVES,
            }
        }
        2 => {
            square_is_derived();
            Recipe {
                rows: SQUARE,
                gives: SQUARE_GIVES,
            }
        }
        _ => {
            cube_is_derived();
            Recipe {
                rows: CUBE,
                gives: CUBE_GIVES,
            }
        }
    }
}

/// From one end, from the other, on a square and on a cube, by the numbers 0 to 3.
pub struct Lines;

impl Earlier for Lines {
    ghost states = { λ s. lines };

    ghost most = { λ s k. slice_index most_of_lines k };

    fn count_parts(&self, recipe: u16) -> usize {
        match recipe {
            0 => 4,
            1 => 4,
            2 => 7,
            _ => 9,
        }
    }

    fn count_premises(&self, recipe: u16) -> usize {
        match recipe {
            0 => 3,
            1 => 3,
            2 => 7,
            _ => 15,
        }
    }

    fn derive(
        &self,
        book: &mut Book,
        recipe: u16,
        parts: &[u64],
        premises: &[u64],
    ) -> Result<Few, AllocError> {
        let table = line_recipe(recipe);
        Ok(run(book, &Kan, table.rows, table.gives, parts, premises)?)
    }
}
