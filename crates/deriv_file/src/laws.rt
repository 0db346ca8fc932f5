//! The laws of spelling: a row has one line, and a line one row.

ghost use Rattle.std.specs.Prelude.{◌≡◌, ℕ, ◌++◌, List, map};
ghost use Rattle.std.specs.List.{flat_map};
ghost use Rattle.deriv_file.specs.declared.reader.Next.{Next};
ghost use Rattle.deriv_file.specs.declared.reader.Next.TheVariants as next;
ghost use Rattle.deriv_file.specs.declared.row.Row.{Row};
ghost use Rattle.deriv_file.specs.Lines.{lines, SpellRows};
ghost use Rattle.deriv_file.specs.Reader.{NextIs};
ghost use Rattle.deriv_file.specs.Reading.{Reading};
ghost use Rattle.deriv_file.specs.Spelling.{spelled, MayStand, Spells};

/// A line spells one row at a place. A row that is written reads back wherever it may stand, and so
/// do rows that are written one after the other.
pub fn laws_of_rows()
    ensures one { (version at : ℕ) (line : List ℕ) (row other : Row) →
        Spells version at line row → Spells version at line other → row ≡ other }
    ensures reads_back { (old new : Reading) (answer : Next) (row : Row) (more : List ℕ) →
        NextIs old new answer → old.rest ≡ spelled row ++ more → MayStand old.version old.at row →
        (answer ≡ next.Row row) × (new.rest ≡ more) }
    ensures rows_read_back { (version at : ℕ) (rows : List Row) →
        SpellRows version at (map spelled rows) rows →
        SpellRows version at (lines (flat_map spelled rows)) rows }
{}
