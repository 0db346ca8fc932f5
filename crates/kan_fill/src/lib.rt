//! The derived rules of the Kan operations, as recipes: filling, contraction, preservation, and
//! extension of an element of a fiber.
//!
//! A table derives what it states wherever its premises are concluded and its side conditions hold:
//! the rows that it names conclude a typing, and then equations at the ends and where a side is.
//!
//! ```text
//! FILL             of G A p b a r, where p is a face and r a formula of G
//! wants            ctx G; G.I >> A; G.p.I >> b : A; G >> a : A{0}; G.p >> a = b{0} : A{0}
//! gives            G >> Fill(i.A, p, i.b, a, r) : A{r}, and what it is at r = 0, at r = 1 and on p
//! ```
#![tactic(auto)]

ghost use Rattle.std.specs.Prelude.{[], ◌∷◌};
ghost use Rattle.recipes.specs.Derivations.{Derives, StatesAt};
ghost use Rattle.trees.specs.Trees.{Tree};
ghost use Rattle.trees.specs.Judgements.{Context, trees};
ghost use Rattle.trees.specs.Things.{AContext, ATree};
ghost use Rattle.kan_fill.specs.Statements.{fill_statement, contr_statement, pres_statement};
ghost use Rattle.kan_fill.specs.Statements.{ext_statement};
ghost use Rattle.kan_fill.specs.Statements.{filling, contraction, preservation, extension};

mod contr;
mod ext;
mod fill;
mod pres;

pub use contr::{CONTR, CONTR_GIVES};
pub use ext::{EXT, EXT_GIVES};
pub use fill::{FILL, FILL_GIVES};
pub use pres::{PRES, PRES_GIVES};

/// Filling.
pub fn filling_is_derived()
    ensures { Derives [] fill_statement FILL.now FILL_GIVES.now }
{}

/// Contraction.
pub fn contraction_is_derived()
    ensures { Derives [] contr_statement CONTR.now CONTR_GIVES.now }
{}

/// Preservation, by filling.
pub fn preservation_is_derived()
    ensures { Derives (fill_statement ∷ []) pres_statement PRES.now PRES_GIVES.now }
{}

/// Extension, by contraction.
pub fn extension_is_derived()
    ensures { Derives (contr_statement ∷ []) ext_statement EXT.now EXT_GIVES.now }
{}

/// At trees the statements are what their definitions say there.
pub fn statements_at_trees()
    ensures filling { (G : Context) (A p b a r : Tree) → StatesAt fill_statement
        (AContext G ∷ ATree A ∷ ATree p ∷ ATree b ∷ ATree a ∷ ATree r ∷ [])
        (filling trees G A p b a r) }
    ensures contraction { (G : Context) (A c p b : Tree) → StatesAt contr_statement
        (AContext G ∷ ATree A ∷ ATree c ∷ ATree p ∷ ATree b ∷ [])
        (contraction trees G A c p b) }
    ensures preservation { (G : Context) (T A f p t t0 : Tree) → StatesAt pres_statement
        (AContext G ∷ ATree T ∷ ATree A ∷ ATree f ∷ ATree p ∷ ATree t ∷ ATree t0 ∷ [])
        (preservation trees G T A f p t t0) }
    ensures extension { (G : Context) (T A w p z a : Tree) → StatesAt ext_statement
        (AContext G ∷ ATree T ∷ ATree A ∷ ATree w ∷ ATree p ∷ ATree z ∷ ATree a ∷ [])
        (extension trees G T A w p z a) }
{}
