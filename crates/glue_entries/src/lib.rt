//! What stands behind the conclusions of the rules of Glue, and that types of equivalences are
//! equal where their ends are.
//!
//! ```text
//! glue_entry(GlueRule::Unglue, Label::Type)
//! // G >> A, behind G >> unglue p T w b : A: it is premise 0
//! ```
#![tactic(auto)]

ghost use Rattle.std.specs.Prelude.{[], ◌∷◌};
ghost use Rattle.recipes.specs.Derivations.{Derives, StatesAt};
ghost use Rattle.trees.specs.Trees.{Tree};
ghost use Rattle.trees.specs.Judgements.{Context, trees};
ghost use Rattle.trees.specs.Things.{AContext, ATree};
ghost use Rattle.glue_entries.specs.Statements.{equiv_tycong, equiv_tycong_statement};

mod equiv_tycong;
mod glue;
mod glue_beta;
mod glue_face;
mod glue_tycong;
mod glue_tyface;
mod glue_u;
mod glue_ucong;
mod glue_uface;
mod gluing;
mod unglue_cong;
mod unglue_face;

pub use equiv_tycong::{EQUIV_TYCONG, EQUIV_TYCONG_GIVES};
pub use gluing::glue_entry;

/// Types of equivalences are equal where their ends are. The entries of this crate name it.
pub fn equivalences_are_derived()
    ensures derived { Derives [] equiv_tycong_statement EQUIV_TYCONG.now EQUIV_TYCONG_GIVES.now }
    ensures at_trees { (G : Context) (T A V B : Tree) →
        StatesAt equiv_tycong_statement
        (AContext G ∷ ATree T ∷ ATree A ∷ ATree V ∷ ATree B ∷ [])
        (equiv_tycong trees G T A V B) }
{}
