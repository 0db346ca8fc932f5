//! The grammar as a relation by productions, and the states and steps of a parser that is exact for
//! it.
//!
//! Little here runs. `specs/Grammar` says which tokens spell which tree, and `specs/Machine` what a
//! parser keeps, token by token; the proofs say what tokens complete each state, and the law below
//! follows.
//!
//! ```text
//! laws_of_runs();
//! // the run over the tokens of `U -> U` may end, and its tree is the only one that they spell;
//! // over those of `a * b` it stops at `*`, and no expression begins with `a *`
//! ```
#![tactic(auto)]

mod past;

ghost use Rattle.productions.specs.Grammar.{IsModule, IsWholeExp};
ghost use Rattle.productions.specs.Machine.{start_exp, start_module};
ghost use Rattle.productions.specs.Runs.{IsExact};

pub use past::{Past, note};

/// The parser is exact: a run that may end has the only reading of its tokens, and one that stops
/// does so at the first token with which no text begins.
pub fn laws_of_runs()
    ensures of_modules { IsExact IsModule start_module }
    ensures of_expressions { IsExact IsWholeExp start_exp }
{}
