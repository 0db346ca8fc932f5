//! The unfolding of composition at the universe, as recipes.
#![tactic(auto)]

ghost use Rattle.recipes.specs.Derivations.{Derives};
ghost use Rattle.kan_fill.specs.Statements.{kan_statements};
ghost use Rattle.kan_calls.specs.Unfoldings.{unfold_statement};
ghost use Rattle.kan_universe.specs.Equivalences.{assemble_statement};
ghost use Rattle.kan_universe.specs.Lines.{back_statement};
ghost use Rattle.kan_universe.specs.Lines.{cube_statement};
ghost use Rattle.kan_universe.specs.Equivalences.{eqv_statement};
ghost use Rattle.kan_universe.specs.Equivalences.{eqv_m_statement};
ghost use Rattle.kan_universe.specs.Equivalences.{eqv_n_statement};
ghost use Rattle.kan_universe.specs.Equivalences.{eqv_uv_statement};
ghost use Rattle.kan_universe.specs.Equivalences.{eqv_w_statement};
ghost use Rattle.kan_universe.specs.Lines.{line_statement};
ghost use Rattle.kan_universe.specs.Parts.{equivalence_parts, lines, universe_parts};
ghost use Rattle.kan_universe.specs.Lines.{square_statement};
ghost use Rattle.theory.specs.declared.rule.CompRule.TheVariants.{CompU};
ghost use Rattle.theory.specs.declared.rule.RuleName.TheVariants.{Composition};

mod assemble;
mod back;
mod calls;
mod comp_u;
mod cube;
mod eqv;
mod eqv_m;
mod eqv_n;
mod eqv_uv;
mod eqv_w;
mod line;
mod lines;
mod parts;
mod square;

pub use assemble::{ASSEMBLE, ASSEMBLE_GIVES};
pub use back::{BACK, BACK_GIVES};
pub use calls::{ROWS, unfold};
pub use comp_u::{COMP_U, COMP_U_GIVES};
pub use cube::{CUBE, CUBE_GIVES};
pub use eqv::{EQV, EQV_GIVES};
pub use eqv_m::{EQV_M, EQV_M_GIVES};
pub use eqv_n::{EQV_N, EQV_N_GIVES};
pub use eqv_uv::{EQV_UV, EQV_UV_GIVES};
pub use eqv_w::{EQV_W, EQV_W_GIVES};
pub use line::{LINE, LINE_GIVES};
pub use square::{SQUARE, SQUARE_GIVES};

/// The recipe `line`.
pub fn line_is_derived()
    ensures { Derives kan_statements line_statement
        LINE.now LINE_GIVES.now }
{}

/// The recipe `back`.
pub fn back_is_derived()
    ensures { Derives kan_statements back_statement
        BACK.now BACK_GIVES.now }
{}

/// The recipe `square`.
pub fn square_is_derived()
    ensures { Derives kan_statements square_statement
        SQUARE.now SQUARE_GIVES.now }
{}

/// The recipe `cube`.
pub fn cube_is_derived()
    ensures { Derives kan_statements cube_statement
        CUBE.now CUBE_GIVES.now }
{}

/// The recipe `eqv_uv`.
pub fn eqv_uv_is_derived()
    ensures { Derives lines eqv_uv_statement
        EQV_UV.now EQV_UV_GIVES.now }
{}

/// The recipe `eqv_m`.
pub fn eqv_m_is_derived()
    ensures { Derives lines eqv_m_statement
        EQV_M.now EQV_M_GIVES.now }
{}

/// The recipe `eqv_n`.
pub fn eqv_n_is_derived()
    ensures { Derives lines eqv_n_statement
        EQV_N.now EQV_N_GIVES.now }
{}

/// The recipe `eqv_w`.
pub fn eqv_w_is_derived()
    ensures { Derives lines eqv_w_statement
        EQV_W.now EQV_W_GIVES.now }
{}

/// The recipe `assemble`.
pub fn assemble_is_derived()
    ensures { Derives lines assemble_statement
        ASSEMBLE.now ASSEMBLE_GIVES.now }
{}

/// The recipe `eqv`.
pub fn eqv_is_derived()
    ensures { Derives equivalence_parts eqv_statement
        EQV.now EQV_GIVES.now }
{}

/// The recipe `comp_u`.
pub fn comp_u_is_derived()
    ensures { Derives universe_parts (unfold_statement (Composition CompU))
        COMP_U.now COMP_U_GIVES.now }
{}
