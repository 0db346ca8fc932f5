//! Runs recipes over a book: the rows of a table, one after the other, over parts and premises.
//!
//! ```text
//! let parts = [ctx, line, face, side, base, formula];
//! let nodes = run(book, &NoRecipes, FILL, FILL_GIVES, &parts, &premises)?;
//! book.conclusion(NodeId(nodes.as_slice()[0]))        // G >> Fill(i.A, p, i.b, a, r) : A{r}
//! ```
#![tactic(auto)]

ghost use Rattle.std.specs.Prelude.{◌≡◌, ℕ, List, [], Some};
ghost use Rattle.trees.specs.Things.{Thing, meanings};
ghost use Rattle.book.specs.Contents.{Contents};
ghost use Rattle.book.specs.Shown.{book_means, book_concludes};
ghost use Rattle.recipes.specs.declared.row.Row.{Row};
ghost use Rattle.recipes.specs.Statements.{Statement};
ghost use Rattle.recipes.specs.Derivations.{Derives, MayStandAt, premises_at, conclusions_at};
ghost use Rattle.recipe_runner.specs.Running.{MayRun};

mod earlier;
mod interpreter;
mod numbers;

pub use earlier::{Earlier, NoRecipes};
pub use interpreter::run;
pub use numbers::{MOST_NUMBERS, Numbers};

/// A table that derives a statement may be run over a book: where the parts mean things at which
/// the statement may stand, and the premises conclude what it wants there.
pub fn derived_recipes_may_run()
    ensures { (earlier : List Statement) (b : Contents) (s : Statement) (rows : List Row)
        (outs parts premises : List ℕ) (things : List Thing) → Derives earlier s rows outs →
        meanings (book_means b) parts ≡ Some things → MayStandAt s things →
        meanings (book_concludes b) premises ≡ Some (premises_at s things) →
        MayRun earlier b rows outs parts premises (conclusions_at s things) }
{}

/// A table that names no earlier recipe derives its statement whatever the earlier recipes are.
pub fn derived_without_earlier_recipes()
    ensures { (earlier : List Statement) (s : Statement) (rows : List Row) (outs : List ℕ) →
        Derives [] s rows outs → Derives earlier s rows outs }
{}
