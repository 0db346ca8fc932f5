//! Laws of loading.

ghost use Rattle.std.specs.Prelude.{◌≡◌, ℕ, List, [], ◌∷◌, Some};
ghost use Rattle.host_io.specs.Files.{Held};
ghost use Rattle.module_texts.specs.Texts.{Text};
ghost use Rattle.loading.specs.declared.text.LoadFault.{LoadFault};
ghost use Rattle.loading.specs.Loading.{Loads, Refuses};
ghost use Rattle.loading.specs.Same.{IsDecided, SameFault};

/// A law, and no code: where it is told what is held, for a name one list of modules is loaded, or
/// one refusal is the first, and not both, but for faults of reads and out of memory.
pub fn laws_of_loading()
    ensures texts { (held : Held) (name : List ℕ) (xs ys : List Text) →
        Loads (Some held) [] [] (name ∷ []) xs → Loads (Some held) [] [] (name ∷ []) ys →
        xs ≡ ys }
    ensures fault { (held : Held) (name : List ℕ) (f g : LoadFault) →
        Refuses (Some held) [] [] (name ∷ []) f → Refuses (Some held) [] [] (name ∷ []) g →
        IsDecided f → IsDecided g → SameFault f g }
    ensures either { (held : Held) (name : List ℕ) (xs : List Text) (f : LoadFault) →
        Loads (Some held) [] [] (name ∷ []) xs → Refuses (Some held) [] [] (name ∷ []) f →
        IsDecided f → ⊥ }
{}
