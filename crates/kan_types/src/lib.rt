//! The unfolding of composition at types of functions, pairs, paths and numbers: recipes that type
//! the right side of the rule and conclude the rule, and the call that runs them over a book.
//!
//! ```text
//! let step = RuleUse { rule: Composition(CompPi), parts, premises };
//! let unfolded = unfold(book, ctx, &step)?;   // ctx concludes `ctx G`
//! book.conclusion(unfolded.equal)             // G >> comp (pi A B) p b a = lam .. : ..
//! book.conclusion(unfolded.typing)            // G >> lam .. : ..
//! ```
#![tactic(auto)]

ghost use Rattle.theory.specs.declared.rule.RuleName.TheVariants.{Composition};
ghost use Rattle.theory.specs.declared.rule.CompRule.TheVariants.{CompPi, CompSig, CompPath};
ghost use Rattle.theory.specs.declared.rule.CompRule.TheVariants.{CompZero, CompSuc};
ghost use Rattle.recipes.specs.Derivations.{Derives};
ghost use Rattle.kan_fill.specs.Statements.{kan_statements};
ghost use Rattle.kan_calls.specs.Unfoldings.{unfold_statement};

mod calls;
mod comp_path;
mod comp_pi;
mod comp_sig;
mod comp_suc;
mod comp_zero;

pub use calls::{ROWS, unfold};
pub use comp_path::{COMP_PATH, COMP_PATH_GIVES};
pub use comp_pi::{COMP_PI, COMP_PI_GIVES};
pub use comp_sig::{COMP_SIG, COMP_SIG_GIVES};
pub use comp_suc::{COMP_SUC, COMP_SUC_GIVES};
pub use comp_zero::{COMP_ZERO, COMP_ZERO_GIVES};

/// At a type of functions.
pub fn functions_are_derived()
    ensures { Derives kan_statements (unfold_statement (Composition CompPi))
        COMP_PI.now COMP_PI_GIVES.now }
{}

/// At a type of pairs.
pub fn pairs_are_derived()
    ensures { Derives kan_statements (unfold_statement (Composition CompSig))
        COMP_SIG.now COMP_SIG_GIVES.now }
{}

/// At a type of paths.
pub fn paths_are_derived()
    ensures { Derives kan_statements (unfold_statement (Composition CompPath))
        COMP_PATH.now COMP_PATH_GIVES.now }
{}

/// At the numbers, from zero.
pub fn zero_is_derived()
    ensures { Derives kan_statements (unfold_statement (Composition CompZero))
        COMP_ZERO.now COMP_ZERO_GIVES.now }
{}

/// At the numbers, from a successor.
pub fn successors_are_derived()
    ensures { Derives kan_statements (unfold_statement (Composition CompSuc))
        COMP_SUC.now COMP_SUC_GIVES.now }
{}
