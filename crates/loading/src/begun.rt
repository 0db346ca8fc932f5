//! A module whose imports are being loaded.

ghost use Rattle.std.specs.Prelude.{◌≡◌, ◌<◌, ◌^◌, length};

use module_texts::ModuleText;

/// A module whose imports are being loaded, up to the one at `next`.
#[derive(Drop)]
pub struct Begun {
    pub text: ModuleText,
    pub next: usize,
    ghost few: { length text.module.imports < 2 ^ 64 },
}

impl Begun {
    /// A module of which no import is loaded yet.
    pub fn new(text: ModuleText) -> Begun
        ensures text { result.text ≡ text }
        ensures next { result.next ≡ 0 }
    {
        let _count = text.module.imports.as_slice().len();
        Begun { text, next: 0 }
    }
}
