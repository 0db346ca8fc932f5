//! Derivations by recipes without parts.

ghost use Rattle.std.specs.Prelude.{◌≤◌, [], List, length};
ghost use Rattle.trees.specs.Judgements.{Judgement};
ghost use Rattle.book.specs.Contents.{Contents};
ghost use Rattle.recipes.specs.Derivations.{Derives};
ghost use Rattle.recipe_runner.specs.Running.{MayRun, most_made_by};
ghost use Rattle.kan_tests.specs.Fillings.{earlier};
ghost use Rattle.behind_tests.specs.Compositions.{compositions_statement};
ghost use Rattle.behind_tests.specs.Compositions.{glued_composition_statement};
ghost use Rattle.behind_tests.specs.Glued.{glued_statement};

use crate::compositions::{COMPOSITIONS, COMPOSITIONS_GIVES};
use crate::glued::{GLUED, GLUED_GIVES};
use crate::glued_composition::{GLUED_COMPOSITION, GLUED_COMPOSITION_GIVES};
use book::{Book, Few};
use kan_calls::Kan;
use kan_tests::{
    CONTR_VARIABLE, CONTR_VARIABLE_GIVES, EXT_NUMBERS, EXT_NUMBERS_GIVES, EXT_VARIABLE,
    EXT_VARIABLE_GIVES, FILL_FACES, FILL_FACES_GIVES, FILL_LINES, FILL_LINES_GIVES, PRES_NUMBERS,
    PRES_NUMBERS_GIVES, contraction_is_derived, extension_is_derived, fillings_are_derived,
    identity_is_equivalence, preservation_is_derived,
};
use recipe_runner::run;
use recipes::Row;
use std::alloc::AllocError;

/// A derivation: the first six use the Kan operations, `Glue` the rules of Glue, systems and
/// numbers, and the last two the rules of composition that unfold.
#[derive(Clone, Copy, Debug)]
pub enum Whole {
    Faces,
    Lines,
    Contraction,
    Preservation,
    Extension,
    Identity,
    Glue,
    Compositions,
    GluedComposition,
}

/// The tables derive what they are for.
fn tables_are_derived()
    ensures glued { Derives earlier glued_statement GLUED.now GLUED_GIVES.now }
    ensures compositions { Derives earlier compositions_statement
        COMPOSITIONS.now COMPOSITIONS_GIVES.now }
    ensures glued_composition { Derives earlier glued_composition_statement
        GLUED_COMPOSITION.now GLUED_COMPOSITION_GIVES.now }
{}

/// The nodes that a recipe gives, by those of the Kan operations.
fn given(book: &mut Book, rows: &[Row], outs: &[u16]) -> Result<Few, AllocError>
    requires rows { most_made_by rows.now ≤ 512 }
    requires outs { length outs.now ≤ 16 }
    requires right { (gives : List Judgement) × ((b : Contents) →
        MayRun earlier b rows.now outs.now [] [] gives) }
{
    Ok(run(book, &Kan, rows, outs, &[], &[])?)
}

/// Such a derivation, in the book, by the nodes that it gives.
///
/// # Errors
/// Only where memory runs out.
pub fn derive_whole(book: &mut Book, whole: Whole) -> Result<Few, AllocError> {
    fillings_are_derived();
    contraction_is_derived();
    preservation_is_derived();
    extension_is_derived();
    identity_is_equivalence();
    tables_are_derived();
    match whole {
        Whole::Faces => Ok(given(book, FILL_FACES, FILL_FACES_GIVES)?),
        Whole::Lines => Ok(given(book, FILL_LINES, FILL_LINES_GIVES)?),
        Whole::Contraction => Ok(given(book, CONTR_VARIABLE, CONTR_VARIABLE_GIVES)?),
        Whole::Preservation => Ok(given(book, PRES_NUMBERS, PRES_NUMBERS_GIVES)?),
        Whole::Extension => Ok(given(book, EXT_VARIABLE, EXT_VARIABLE_GIVES)?),
        Whole::Identity => Ok(given(book, EXT_NUMBERS, EXT_NUMBERS_GIVES)?),
        Whole::Glue => Ok(given(book, GLUED, GLUED_GIVES)?),
        Whole::Compositions => Ok(given(book, COMPOSITIONS, COMPOSITIONS_GIVES)?),
        Whole::GluedComposition => { Ok(given(book, GLUED_COMPOSITION, GLUED_COMPOSITION_GIVES)?) }
    }
}
