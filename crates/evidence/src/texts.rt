//! The texts that show evidence, and the lines that have them.

ghost use Rattle.std.specs.Prelude.{◌≡◌, IfOk, string_bytes};
ghost use Rattle.evidence.specs.Lines.{lines_of};

use std::alloc::{AllocError, Global};

/// What is shown of evidence: texts, each without a label and a newline.
#[derive(Drop, Debug)]
pub enum Shown {
    /// Nothing.
    Nothing,
    /// A type.
    Type(String),
    /// What was found, and what is wanted.
    Two {
        found: String,
        wanted: String,
    },
    /// The same, on a face.
    OnFace {
        face: String,
        found: String,
        wanted: String,
    },
}

impl Shown {
    /// The lines that show it, each with its label and its newline.
    ///
    /// # Errors
    /// Only where memory runs out.
    pub fn text(&self, alloc: Global) -> Result<String, AllocError>
        ensures { IfOk result (λ text. string_bytes text ≡ lines_of self.now) }
    {
        match self {
            Shown::Nothing => Ok(String::new(alloc)),
            Shown::Type(shown) => Ok(format!(in alloc; "type: {shown}\n")?),
            Shown::Two { found, wanted } => {
                Ok(format!(in alloc; "found: {found}\nwanted: {wanted}\n")?)
            }
            Shown::OnFace {
                face,
                found,
                wanted,
            } => Ok(format!(in alloc; "face: {face}\nfound: {found}\nwanted: {wanted}\n")?),
        }
    }
}
