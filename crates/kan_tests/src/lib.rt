//! Derivations that use the recipes of the Kan operations, run over a book, and what the judge says
//! of them.
//!
//! ```text
//! let call = filling(&mut book)?;                      // of zero by itself, in [].I
//! let filled = fill(&mut book, call.ctx, &call.step)?;
//! judged(alloc, &book, &[filled.typing])?              // Verdict::Yes { .. }
//! ```
#![tactic(auto)]

ghost use Rattle.recipes.specs.Derivations.{Derives};
ghost use Rattle.kan_tests.specs.Fillings.{faces_statement, lines_statement, extended_statement};
ghost use Rattle.kan_tests.specs.Fillings.{carried_statement, lifted_statement, earlier};
ghost use Rattle.kan_tests.specs.Fillings.{identity_statement, premises_statement, moved_statement};
ghost use Rattle.kan_tests.specs.Fillings.{contracted_statement, raised_statement, before_last};

mod calls;
mod contr_variable;
mod ext_numbers;
mod ext_variable;
mod fill_faces;
mod fill_lines;
mod fill_premises;
mod pres_numbers;

pub use calls::{Call, contraction, extension, filling, preservation};
pub use contr_variable::{CONTR_VARIABLE, CONTR_VARIABLE_GIVES, CONTR_VARIABLE_PREMISES};
pub use ext_numbers::{EXT_NUMBERS, EXT_NUMBERS_GIVES};
pub use ext_variable::{EXT_VARIABLE, EXT_VARIABLE_GIVES, EXT_VARIABLE_PREMISES};
pub use fill_faces::{FILL_FACES, FILL_FACES_GIVES};
pub use fill_lines::{FILL_LINES, FILL_LINES_GIVES};
pub use fill_premises::{FILL_PREMISES, FILL_PREMISES_GIVES};
pub use pres_numbers::{PRES_NUMBERS, PRES_NUMBERS_GIVES, PRES_NUMBERS_PREMISES};

#[cfg(test)]
mod call_tests;
#[cfg(test)]
mod tests;

/// Fillings on many faces, and over lines of some types.
pub fn fillings_are_derived()
    ensures faces { Derives earlier faces_statement FILL_FACES.now FILL_FACES_GIVES.now }
    ensures lines { Derives earlier lines_statement FILL_LINES.now FILL_LINES_GIVES.now }
{}

/// An element of a contractible type, extended from a face.
pub fn contraction_is_derived()
    ensures { Derives earlier extended_statement CONTR_VARIABLE.now CONTR_VARIABLE_GIVES.now }
{}

/// Numbers, carried along the identity.
pub fn preservation_is_derived()
    ensures { Derives earlier carried_statement PRES_NUMBERS.now PRES_NUMBERS_GIVES.now }
{}

/// An element of the fiber of an equivalence, extended from a face.
pub fn extension_is_derived()
    ensures { Derives earlier lifted_statement EXT_VARIABLE.now EXT_VARIABLE_GIVES.now }
{}

/// The identity of numbers is an equivalence, and an element of its fiber is extended from a face.
pub fn identity_is_equivalence()
    ensures { Derives earlier identity_statement EXT_NUMBERS.now EXT_NUMBERS_GIVES.now }
{}

/// The premises of a filling that is called.
pub fn premises_are_derived()
    ensures { Derives earlier premises_statement FILL_PREMISES.now FILL_PREMISES_GIVES.now }
{}

/// The premises of a contraction, a preservation and an extension that are called.
pub fn called_premises_are_derived()
    ensures contraction { Derives earlier contracted_statement (before_last CONTR_VARIABLE.now)
        CONTR_VARIABLE_PREMISES.now }
    ensures preservation { Derives earlier moved_statement (before_last PRES_NUMBERS.now)
        PRES_NUMBERS_PREMISES.now }
    ensures extension { Derives earlier raised_statement (before_last EXT_VARIABLE.now)
        EXT_VARIABLE_PREMISES.now }
{}
