//! What derivation files mean, and which of their rows are right. The definitions stand in
//! `specs/`.
//!
//! Nothing here runs: the functions have the laws of the definitions as their contracts, so that a
//! check proves each.
//!
//! ```text
//! rules 1; c nil; n ctx.nil; r 2       AllRight, and Derives 4 (`ctx []` alone)
//! rules 1; c nil; n ctx.nil; r 1       FirstBad 3, since row 1 concludes nothing
//! ```
#![tactic(auto)]

ghost use Rattle.std.specs.Prelude.{◌≡◌, ℕ, ◌<◌, ◌≤◌, List, [], ◌∷◌, ◌++◌, length, All, Some};
ghost use Rattle.trees.specs.Judgements.{Judgement};
ghost use Rattle.deriv_file.specs.declared.row.Row.{Row};
ghost use Rattle.deriv_file.specs.declared.row.Row.TheVariants.{Header};
ghost use Rattle.deriv_file.specs.Lines.{lines};
ghost use Rattle.derivation.specs.Meanings.{Meaning, conclusion_at};
ghost use Rattle.derivation.specs.Derivations.{Provable, Derivable};
ghost use Rattle.derivation.specs.Right.{RightRow, RightRows, Right, AllRight, FirstBad, Derives};

/// A right row means one thing, and what it concludes is provable by the rules. Row 0 is a header,
/// and no other row is.
pub fn laws_of_meanings()
    ensures row { (before : List Meaning) (row : Row) (m n : Meaning) →
        RightRow before row m → RightRow before row n → m ≡ n }
    ensures rows { (before : List Meaning) (rows : List Row) (all other : List Meaning) →
        RightRows before rows all → RightRows before rows other → all ≡ other }

    // Rows are right where the first of them are, and the others after these.
    ensures parts { (before : List Meaning) (rows more : List Row) (all : List Meaning) →
        RightRows before (rows ++ more) all →
        (some : List Meaning) × RightRows before rows some × RightRows some more all }
    ensures whole { (before : List Meaning) (rows more : List Row) (some all : List Meaning) →
        RightRows before rows some → RightRows some more all → RightRows before (rows ++ more) all }
    ensures first { (row : Row) (m : Meaning) → RightRow [] row m →
        (version : ℕ) × (row ≡ Header version) }
    ensures header { (before : List Meaning) (version : ℕ) (m : Meaning) →
        RightRow before (Header version) m → before ≡ [] }
    ensures sound { (rows : List Row) (all : List Meaning) (k : ℕ) (J : Judgement) →
        RightRows [] rows all → conclusion_at all k ≡ Some J → Provable J }
{}

/// A file is right or has a first bad row, and never both. It derives one list of judgements at
/// most; these are derivable, and what is derivable is provable by the rules.
pub fn laws_of_files()
    ensures right { (bytes : List ℕ) (k : ℕ) → AllRight bytes → FirstBad bytes k → ⊥ }
    ensures bad { (bytes : List ℕ) (j k : ℕ) → FirstBad bytes j → FirstBad bytes k → j ≡ k }

    // No file is neither: the law is said so, since no definition decides side conditions.
    ensures either { (bytes : List ℕ) →
        (AllRight bytes → ⊥) → ((k : ℕ) → FirstBad bytes k → ⊥) → ⊥ }
    ensures derives { (bytes : List ℕ) (n m : ℕ) (Js Ks : List Judgement) →
        Derives bytes n Js → Derives bytes m Ks → (n ≡ m) × (Js ≡ Ks) }
    ensures derivable { (bytes : List ℕ) (n : ℕ) (Js : List Judgement) →
        Derives bytes n Js → All Derivable Js }
    ensures provable { (J : Judgement) → Derivable J → Provable J }
    ensures counted { (bytes : List ℕ) (n : ℕ) (Js : List Judgement) →
        Derives bytes n Js → n ≡ length (lines bytes) }

    // The right files are those that derive a list of judgements by a row at least.
    ensures right_derives { (bytes : List ℕ) → AllRight bytes →
        (n : ℕ) × (Js : List Judgement) × Derives bytes n Js × (0 < n) }
    ensures derives_right { (bytes : List ℕ) (n : ℕ) (Js : List Judgement) →
        Derives bytes n Js → 0 < n → AllRight bytes }
    ensures earlier { (bytes : List ℕ) (j k : ℕ) → Right bytes k → j ≤ k → Right bytes j }
{}
