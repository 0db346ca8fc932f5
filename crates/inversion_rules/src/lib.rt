//! Recipes that open literal forms: from the nodes that make a form, which stand in another
//! context, the nodes of its parts under a substitution. With them stand uses of what stands behind
//! a judgement.
//!
//! ```text
//! OPEN_BINDER      of H d G A B, the parts of (pi A B)[d] or (sig A B)[d]
//! wants            d : H to G; G >> A; G.A >> B
//! gives            H >> A[d]; H.A[d] >> B[push (d then up) (var 0)]
//! ```
#![tactic(auto)]

ghost use Rattle.std.specs.Prelude.{[], ◌∷◌};
ghost use Rattle.recipes.specs.Derivations.{Derives, StatesAt};
ghost use Rattle.trees.specs.Trees.{Tree, Subst};
ghost use Rattle.trees.specs.Judgements.{Context, trees};
ghost use Rattle.trees.specs.Things.{AContext, ASubst, ATree};
ghost use Rattle.rules.specs.Table.{pi, sig};
ghost use Rattle.inversion_rules.specs.Statements.{open_binder, open_pathp};
ghost use Rattle.inversion_rules.specs.Statements.{open_glue_type, open_lam};
ghost use Rattle.inversion_rules.specs.Statements.{open_pair, open_plam, open_glue, open_binder_u};
ghost use Rattle.inversion_rules.specs.Statements.{open_pathp_u, open_glue_type_u, up_var, up_name};
ghost use Rattle.inversion_rules.specs.Statements.{up_face, anchor, anchor_conv};
ghost use Rattle.inversion_rules.specs.Statements.{beta_asks, beta_answers};
ghost use Rattle.inversion_rules.specs.Statements.{fits};
ghost use Rattle.inversion_rules.specs.Statements.{open_binder_statement, open_pathp_statement};
ghost use Rattle.inversion_rules.specs.Statements.{open_glue_type_statement, open_lam_statement};
ghost use Rattle.inversion_rules.specs.Statements.{open_pair_statement, open_plam_statement};
ghost use Rattle.inversion_rules.specs.Statements.{open_glue_statement, open_binder_u_statement};
ghost use Rattle.inversion_rules.specs.Statements.{open_pathp_u_statement};
ghost use Rattle.inversion_rules.specs.Statements.{open_glue_type_u_statement};
ghost use Rattle.inversion_rules.specs.Statements.{up_var_statement, up_name_statement};
ghost use Rattle.inversion_rules.specs.Statements.{up_face_statement};
ghost use Rattle.inversion_rules.specs.Statements.{fits_pi_statement, fits_sig_statement};
ghost use Rattle.inversion_rules.specs.Statements.{anchor_statement, anchor_conv_statement};
ghost use Rattle.inversion_rules.specs.Statements.{beta_asks_statement, beta_answers_statement};

mod anchor;
mod anchor_conv;
mod beta_answers;
mod beta_asks;
mod fits_pi;
mod fits_sig;
mod open_binder;
mod open_binder_u;
mod open_glue;
mod open_glue_type;
mod open_glue_type_u;
mod open_lam;
mod open_pair;
mod open_pathp;
mod open_pathp_u;
mod open_plam;
mod up_face;
mod up_name;
mod up_var;

pub use anchor::{ANCHOR, ANCHOR_GIVES};
pub use anchor_conv::{ANCHOR_CONV, ANCHOR_CONV_GIVES};
pub use beta_answers::{BETA_ANSWERS, BETA_ANSWERS_GIVES};
pub use beta_asks::{BETA_ASKS, BETA_ASKS_GIVES};
pub use fits_pi::{FITS_PI, FITS_PI_GIVES};
pub use fits_sig::{FITS_SIG, FITS_SIG_GIVES};
pub use open_binder::{OPEN_BINDER, OPEN_BINDER_GIVES};
pub use open_binder_u::{OPEN_BINDER_U, OPEN_BINDER_U_GIVES};
pub use open_glue::{OPEN_GLUE, OPEN_GLUE_GIVES};
pub use open_glue_type::{OPEN_GLUE_TYPE, OPEN_GLUE_TYPE_GIVES};
pub use open_glue_type_u::{OPEN_GLUE_TYPE_U, OPEN_GLUE_TYPE_U_GIVES};
pub use open_lam::{OPEN_LAM, OPEN_LAM_GIVES};
pub use open_pair::{OPEN_PAIR, OPEN_PAIR_GIVES};
pub use open_pathp::{OPEN_PATHP, OPEN_PATHP_GIVES};
pub use open_pathp_u::{OPEN_PATHP_U, OPEN_PATHP_U_GIVES};
pub use open_plam::{OPEN_PLAM, OPEN_PLAM_GIVES};
pub use up_face::{UP_FACE, UP_FACE_GIVES};
pub use up_name::{UP_NAME, UP_NAME_GIVES};
pub use up_var::{UP_VAR, UP_VAR_GIVES};

/// The parts of forms, under a substitution.
pub fn forms_are_opened()
    ensures open_binder { Derives [] open_binder_statement OPEN_BINDER.now OPEN_BINDER_GIVES.now }
    ensures open_pathp { Derives [] open_pathp_statement OPEN_PATHP.now OPEN_PATHP_GIVES.now }
    ensures open_glue_type { Derives []
        open_glue_type_statement OPEN_GLUE_TYPE.now OPEN_GLUE_TYPE_GIVES.now }
    ensures open_lam { Derives [] open_lam_statement OPEN_LAM.now OPEN_LAM_GIVES.now }
    ensures open_pair { Derives [] open_pair_statement OPEN_PAIR.now OPEN_PAIR_GIVES.now }
    ensures open_plam { Derives [] open_plam_statement OPEN_PLAM.now OPEN_PLAM_GIVES.now }
    ensures open_glue { Derives [] open_glue_statement OPEN_GLUE.now OPEN_GLUE_GIVES.now }
{}

/// The parts of forms that are in the universe, as types.
pub fn types_in_the_universe_are_opened()
    ensures open_binder_u { Derives []
        open_binder_u_statement OPEN_BINDER_U.now OPEN_BINDER_U_GIVES.now }
    ensures open_pathp_u { Derives []
        open_pathp_u_statement OPEN_PATHP_U.now OPEN_PATHP_U_GIVES.now }
    ensures open_glue_type_u { Derives []
        open_glue_type_u_statement OPEN_GLUE_TYPE_U.now OPEN_GLUE_TYPE_U_GIVES.now }
{}

/// The weakenings by a variable, a name and a face.
pub fn weakenings_are_derived()
    ensures up_var { Derives [] up_var_statement UP_VAR.now UP_VAR_GIVES.now }
    ensures up_name { Derives [] up_name_statement UP_NAME.now UP_NAME_GIVES.now }
    ensures up_face { Derives [] up_face_statement UP_FACE.now UP_FACE_GIVES.now }
{}

/// Types that equal others, and typings whose types are at hand.
pub fn typings_are_derived()
    ensures fits_pi { Derives [] fits_pi_statement FITS_PI.now FITS_PI_GIVES.now }
    ensures fits_sig { Derives [] fits_sig_statement FITS_SIG.now FITS_SIG_GIVES.now }
    ensures anchor { Derives [] anchor_statement ANCHOR.now ANCHOR_GIVES.now }
    ensures anchor_conv { Derives [] anchor_conv_statement ANCHOR_CONV.now ANCHOR_CONV_GIVES.now }
{}

/// A function that is applied at a domain that equals its own.
pub fn applications_are_derived()
    ensures beta_asks { Derives [] beta_asks_statement BETA_ASKS.now BETA_ASKS_GIVES.now }
    ensures beta_answers { Derives []
        beta_answers_statement BETA_ANSWERS.now BETA_ANSWERS_GIVES.now }
{}

/// At trees the statements are what their definitions say there.
pub fn statements_at_trees()
    ensures open_binder { (H : Context) (d : Subst) (G : Context) (A B : Tree) →
        StatesAt open_binder_statement
        (AContext H ∷ ASubst d ∷ AContext G ∷ ATree A ∷ ATree B ∷ [])
        (open_binder trees H d G A B) }
    ensures open_pathp { (H : Context) (d : Subst) (G : Context) (A u v : Tree) →
        StatesAt open_pathp_statement
        (AContext H ∷ ASubst d ∷ AContext G ∷ ATree A ∷ ATree u ∷ ATree v ∷ [])
        (open_pathp trees H d G A u v) }
    ensures open_glue_type { (H : Context) (d : Subst) (G : Context) (A p T w : Tree) →
        StatesAt open_glue_type_statement
        (AContext H ∷ ASubst d ∷ AContext G ∷ ATree A ∷ ATree p ∷ ATree T ∷ ATree w ∷ [])
        (open_glue_type trees H d G A p T w) }
    ensures open_lam { (H : Context) (d : Subst) (G : Context) (A b B : Tree) →
        StatesAt open_lam_statement
        (AContext H ∷ ASubst d ∷ AContext G ∷ ATree A ∷ ATree b ∷ ATree B ∷ [])
        (open_lam trees H d G A b B) }
    ensures open_pair { (H : Context) (d : Subst) (G : Context) (a b A B : Tree) →
        StatesAt open_pair_statement
        (AContext H ∷ ASubst d ∷ AContext G ∷ ATree a ∷ ATree b ∷ ATree A ∷ ATree B ∷ [])
        (open_pair trees H d G a b A B) }
    ensures open_plam { (H : Context) (d : Subst) (G : Context) (A b u v : Tree) →
        StatesAt open_plam_statement
        (AContext H ∷ ASubst d ∷ AContext G ∷ ATree A ∷ ATree b ∷ ATree u ∷ ATree v ∷ [])
        (open_plam trees H d G A b u v) }
    ensures open_glue { (H : Context) (d : Subst) (G : Context) (A p T w c a : Tree) →
        StatesAt open_glue_statement
        (AContext H ∷ ASubst d ∷ AContext G ∷ ATree A ∷ ATree p ∷
        ATree T ∷ ATree w ∷ ATree c ∷ ATree a ∷ [])
        (open_glue trees H d G A p T w c a) }
    ensures open_binder_u { (G : Context) (A B : Tree) →
        StatesAt open_binder_u_statement
        (AContext G ∷ ATree A ∷ ATree B ∷ [])
        (open_binder_u trees G A B) }
    ensures open_pathp_u { (G : Context) (A u v : Tree) →
        StatesAt open_pathp_u_statement
        (AContext G ∷ ATree A ∷ ATree u ∷ ATree v ∷ [])
        (open_pathp_u trees G A u v) }
    ensures open_glue_type_u { (G : Context) (A p T w : Tree) →
        StatesAt open_glue_type_u_statement
        (AContext G ∷ ATree A ∷ ATree p ∷ ATree T ∷ ATree w ∷ [])
        (open_glue_type_u trees G A p T w) }
    ensures up_var { (H : Context) (A : Tree) →
        StatesAt up_var_statement
        (AContext H ∷ ATree A ∷ [])
        (up_var trees H A) }
    ensures up_name { (H : Context) →
        StatesAt up_name_statement
        (AContext H ∷ [])
        (up_name trees H) }
    ensures up_face { (H : Context) (p : Tree) →
        StatesAt up_face_statement
        (AContext H ∷ ATree p ∷ [])
        (up_face trees H p) }
    ensures fits_pi { (G : Context) (A B T : Tree) →
        StatesAt fits_pi_statement
        (AContext G ∷ ATree A ∷ ATree B ∷ ATree T ∷ [])
        (fits trees (pi trees) G A B T) }
    ensures fits_sig { (G : Context) (A B T : Tree) →
        StatesAt fits_sig_statement
        (AContext G ∷ ATree A ∷ ATree B ∷ ATree T ∷ [])
        (fits trees (sig trees) G A B T) }
    ensures anchor { (G : Context) (a A : Tree) →
        StatesAt anchor_statement
        (AContext G ∷ ATree a ∷ ATree A ∷ [])
        (anchor trees G a A) }
    ensures anchor_conv { (G : Context) (a A B : Tree) →
        StatesAt anchor_conv_statement
        (AContext G ∷ ATree a ∷ ATree A ∷ ATree B ∷ [])
        (anchor_conv trees G a A B) }
    ensures beta_asks { (G : Context) (C b E A B a : Tree) →
        StatesAt beta_asks_statement
        (AContext G ∷ ATree C ∷ ATree b ∷ ATree E ∷ ATree A ∷ ATree B ∷ ATree a ∷ [])
        (beta_asks trees G C b E A B a) }
    ensures beta_answers { (G : Context) (C b E A B a : Tree) →
        StatesAt beta_answers_statement
        (AContext G ∷ ATree C ∷ ATree b ∷ ATree E ∷ ATree A ∷ ATree B ∷ ATree a ∷ [])
        (beta_answers trees G C b E A B a) }
{}
