//! Modules by their names.

ghost use Rattle.std.specs.Prelude.{◌≡◌, ◌↔◌, ℕ, List, IsTrue, string_bytes};
ghost use Rattle.std.specs.List.{Any};

use crate::begun::Begun;
use module_texts::ModuleText;

/// What is the module of a name.
pub trait Named {
    ghost named: { Self → List ℕ };

    /// Whether it is the module of that name.
    fn has_name(&self, name: &str) -> bool
        ensures { IsTrue result ↔ (Self.named self.now ≡ name.now) };
}

impl Named for ModuleText {
    ghost named = { λ x. string_bytes x.name };

    fn has_name(&self, name: &str) -> bool {
        self.name.as_str() == name
    }
}

impl Named for Begun {
    ghost named = { λ b. string_bytes b.text.name };

    fn has_name(&self, name: &str) -> bool {
        self.text.name.as_str() == name
    }
}

/// Whether the module of a name is among these.
pub fn is_among<T: Named>(modules: &[T], name: &str) -> bool
    ensures { IsTrue result ↔ Any (λ x. T.named x ≡ name.now) modules.now }
{
    modules.iter().any(|module| module.has_name(name))
}
