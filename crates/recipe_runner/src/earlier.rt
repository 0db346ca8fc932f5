//! The earlier recipes that rows name.

ghost use Rattle.std.specs.Prelude.{◌≡◌, ◌≤◌, ◌+◌, ℕ, List, [], ◌∷◌, Some, IfOk, IsOk, length};
ghost use Rattle.std.specs.Prelude.{slice_get};
ghost use Rattle.trees.specs.Judgements.{Judgement};
ghost use Rattle.trees.specs.Things.{meanings};
ghost use Rattle.book.specs.Shown.{book_concludes, Extends};
ghost use Rattle.recipes.specs.Statements.{Statement};
ghost use Rattle.recipe_runner.specs.Running.{MayDerive, nothing};

use book::{Book, Few};
use std::alloc::AllocError;

/// The earlier recipes of a recipe, by the numbers by which its rows name them. One that names
/// earlier recipes itself runs by its own, so that recipes may stand on others to any depth.
pub trait Earlier {
    /// What each of them states.
    ghost states: { Self → List Statement };

    /// The most rows and nodes that each of them adds to a book.
    ghost most: { Self → ℕ → ℕ };

    /// How many parts the recipe of this number has.
    fn count_parts(&self, recipe: u16) -> usize
        ensures few { result ≤ 10 }
        ensures count { (s : Statement) →
            slice_get (Self.states self.now) recipe ≡ Some s → result ≡ length s.kinds };

    /// How many premises it has.
    fn count_premises(&self, recipe: u16) -> usize
        ensures few { result ≤ 16 }
        ensures count { (s : Statement) →
            slice_get (Self.states self.now) recipe ≡ Some s → result ≡ length s.wants };

    /// Derives what it gives at parts, which are rows, of premises, which are nodes: a node for
    /// each of its conclusions, in order.
    fn derive(
        &self,
        book: &mut Book,
        recipe: u16,
        parts: &[u64],
        premises: &[u64],
    ) -> Result<Few, AllocError>
        requires { (gives : List Judgement) ×
            MayDerive (Self.states self.now) book.old recipe parts.now premises.now gives }
        ensures covered { Self.most self.now recipe ≤ book.old.spare → IsOk result }
        ensures spends { book.old.spare ≤ book.new.spare + Self.most self.now recipe }
        ensures extends { Extends book.old book.new }
        ensures concludes { IfOk result (λ nodes. (gives : List Judgement) →
            MayDerive (Self.states self.now) book.old recipe parts.now premises.now gives →
            meanings (book_concludes book.new) nodes ≡ Some gives) };
}

/// No earlier recipe but the one that wants and gives nothing, for recipes that name none.
pub struct NoRecipes;

impl Earlier for NoRecipes {
    ghost states = { λ s. nothing ∷ [] };

    ghost most = { λ s k. 0 };

    fn count_parts(&self, _recipe: u16) -> usize {
        0
    }

    fn count_premises(&self, _recipe: u16) -> usize {
        0
    }

    fn derive(
        &self,
        _book: &mut Book,
        _recipe: u16,
        _parts: &[u64],
        _premises: &[u64],
    ) -> Result<Few, AllocError> {
        Ok(Few::new())
    }
}
