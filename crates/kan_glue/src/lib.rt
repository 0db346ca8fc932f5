//! The unfolding of composition at a glued type, as recipes.
#![tactic(auto)]

ghost use Rattle.recipes.specs.Derivations.{Derives};
ghost use Rattle.kan_glue.specs.Steps.{extend_statement};
ghost use Rattle.kan_glue.specs.Steps.{glue_all_statement};
ghost use Rattle.kan_glue.specs.Steps.{glue_base_statement};
ghost use Rattle.kan_glue.specs.Parts.{glue_parts};
ghost use Rattle.kan_glue.specs.Steps.{reglue_statement};
ghost use Rattle.kan_fill.specs.Statements.{kan_statements};
ghost use Rattle.kan_calls.specs.Unfoldings.{unfold_statement};
ghost use Rattle.theory.specs.declared.rule.CompRule.TheVariants.{CompGlue};
ghost use Rattle.theory.specs.declared.rule.RuleName.TheVariants.{Composition};

mod calls;
mod comp_glue;
mod extend;
mod glue_all;
mod glue_base;
mod parts;
mod reglue;

pub use calls::{ROWS, unfold};
pub use comp_glue::{COMP_GLUE, COMP_GLUE_GIVES};
pub use extend::{EXTEND, EXTEND_GIVES};
pub use glue_all::{GLUE_ALL, GLUE_ALL_GIVES};
pub use glue_base::{GLUE_BASE, GLUE_BASE_GIVES};
pub use reglue::{REGLUE, REGLUE_GIVES};

/// The recipe `glue_base`.
pub fn glue_base_is_derived()
    ensures { Derives kan_statements glue_base_statement
        GLUE_BASE.now GLUE_BASE_GIVES.now }
{}

/// The recipe `glue_all`.
pub fn glue_all_is_derived()
    ensures { Derives kan_statements glue_all_statement
        GLUE_ALL.now GLUE_ALL_GIVES.now }
{}

/// The recipe `extend`.
pub fn extend_is_derived()
    ensures { Derives kan_statements extend_statement
        EXTEND.now EXTEND_GIVES.now }
{}

/// The recipe `reglue`.
pub fn reglue_is_derived()
    ensures { Derives kan_statements reglue_statement
        REGLUE.now REGLUE_GIVES.now }
{}

/// The recipe `comp_glue`.
pub fn comp_glue_is_derived()
    ensures { Derives glue_parts (unfold_statement (Composition CompGlue))
        COMP_GLUE.now COMP_GLUE_GIVES.now }
{}
