//! Recipes: derivations as tables, over parts of which nothing is known, and a test that one
//! derives what it states at all values of its parts.
//!
//! A recipe is a list of rows. A row names a premise or a part of the recipe, builds a tree, a
//! substitution or a context of earlier rows, or concludes: by a rule of the table, or by an
//! earlier recipe.
//!
//! ```text
//! Row::Premise(0)                                      // 0: d : H to G
//! Row::Premise(1)                                      // 1: G >> A
//! Row::Part(0)                                         // 2: H, and so on
//! Row::Conclude(ty.sub, [2, 3, 4, 5, ..], [0, 1, ..])  // 6: H >> A[d]
//! ```
//!
//! The test runs the rows at normal forms with unknown parts, and compares what each rule wants
//! with what the named rows conclude. Whether side conditions follow from those of the statement is
//! the answer of a test of its own, which is handed in with its proof.
#![tactic(auto)]

ghost use Rattle.std.specs.Prelude.{◌≡◌, ℕ, true, List, Some, map};
ghost use Rattle.theory.specs.declared.rule.RuleName.{RuleName};
ghost use Rattle.theory.specs.RuleNames.{kinds_of};
ghost use Rattle.trees.specs.Things.{Thing, kind_of};
ghost use Rattle.patterns.specs.Values.{parts_of, rule_of};
ghost use Rattle.rules.specs.Rules.{rule_at};
ghost use Rattle.recipes.specs.declared.row.Row.{Row};
ghost use Rattle.recipes.specs.Statements.{Statement, pattern_of};
ghost use Rattle.recipes.specs.Derivations.{Derives};
ghost use Rattle.recipes.specs.Checks.{SideTest, IsSound, is_derived};

/// The rows of a table, each on a line of its own however long.
#[macro_export]
macro_rules! table {
    ($($row:expr,)*) => { &[$($row),*] };
}

mod row;

pub use row::{MOST_PARTS, MOST_PREMISES, MOST_WANTED, Row};

/// A recipe that the test accepts derives what it states, wherever that may stand, where the test
/// of side conditions is sound.
pub fn test_is_sound()
    ensures { (follows : SideTest) → IsSound follows →
        (earlier : List Statement) (s : Statement) (rows : List Row) (outs : List ℕ) →
        is_derived follows earlier s rows outs ≡ true → Derives earlier s rows outs }
{}

/// At parts of its kinds each rule of the table is the value of its pattern.
pub fn rules_are_their_patterns()
    ensures { (name : RuleName) (xs : List Thing) → map kind_of xs ≡ kinds_of name →
        rule_at name xs ≡ Some (rule_of (parts_of xs) (pattern_of name)) }
{}
