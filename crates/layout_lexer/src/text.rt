//! Texts that are held.

ghost use Rattle.std.specs.Prelude.{◌≡◌, IfOk};

use std::alloc::{AllocError, Global};
use std::fmt;
use std::marker::Model;

/// A text. Contracts see its bytes.
#[derive(Drop)]
pub struct Text {
    held: String,
}

impl Model for Text {
    ghost use Rattle.std.specs.Prelude.{List, ℕ, string_bytes};

    ghost Value = { List ℕ };

    ghost view = { λ a. string_bytes a.held };
}

impl Text {
    /// A copy of the text.
    pub fn new(alloc: Global, text: &str) -> Result<Text, AllocError>
        ensures { IfOk result (λ copy. copy ≡ text.now) }
    {
        let held = String::from_str(alloc, text)?;
        Ok(Text { held })
    }

    /// The text, lent.
    pub fn as_str(&self) -> &str
        ensures { result.now ≡ self.now }
    {
        self.held.as_str()
    }
}

impl fmt::Debug for Text {
    fn fmt<W: fmt::Write>(&self, f: &mut fmt::Formatter<W>) -> fmt::Result {
        self.held.as_str().fmt(f)
    }
}
