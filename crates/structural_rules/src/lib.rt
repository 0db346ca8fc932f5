//! Derived rules of contexts, substitutions and congruence, as recipes: what other derivations use
//! again and again.
//!
//! ```text
//! LIFT_VAR         of H d G A
//! wants            d : H to G; G >> A
//! gives            push (d then up) (var 0) : H.A[d] to G.A
//! ```
#![tactic(auto)]

ghost use Rattle.std.specs.Prelude.{[], ◌∷◌};
ghost use Rattle.recipes.specs.Derivations.{Derives, StatesAt};
ghost use Rattle.trees.specs.Trees.{Tree, Subst};
ghost use Rattle.trees.specs.Judgements.{Context, trees};
ghost use Rattle.trees.specs.Things.{AContext, ASubst, ATree};
ghost use Rattle.structural_rules.specs.Statements.{lift_var, lift_name, lift_face, swap_face};
ghost use Rattle.structural_rules.specs.Statements.{swap_faces, merge_faces, cover_ty, cover_tm};
ghost use Rattle.structural_rules.specs.Statements.{lam_cong, pair_cong, plam_cong};
ghost use Rattle.structural_rules.specs.Statements.{sys_cong, glue_cong};
ghost use Rattle.structural_rules.specs.Statements.{lift_var_statement, lift_name_statement};
ghost use Rattle.structural_rules.specs.Statements.{lift_face_statement, swap_face_statement};
ghost use Rattle.structural_rules.specs.Statements.{swap_faces_statement, merge_faces_statement};
ghost use Rattle.structural_rules.specs.Statements.{restrict_ty0_statement, restrict_ty1_statement};
ghost use Rattle.structural_rules.specs.Statements.{restrict_tm0_statement, restrict_tm1_statement};
ghost use Rattle.structural_rules.specs.Statements.{cover_ty_statement, cover_tm_statement};
ghost use Rattle.structural_rules.specs.Statements.{lam_cong_statement, pair_cong_statement};
ghost use Rattle.structural_rules.specs.Statements.{plam_cong_statement, sys_cong_statement};
ghost use Rattle.structural_rules.specs.Statements.{glue_cong_statement};

mod cover_tm;
mod cover_ty;
mod glue_cong;
mod lam_cong;
mod lift_face;
mod lift_name;
mod lift_var;
mod merge_faces;
mod pair_cong;
mod plam_cong;
mod restrict_tm0;
mod restrict_tm1;
mod restrict_ty0;
mod restrict_ty1;
mod swap_face;
mod swap_faces;
mod sys_cong;

pub use cover_tm::{COVER_TM, COVER_TM_GIVES};
pub use cover_ty::{COVER_TY, COVER_TY_GIVES};
pub use glue_cong::{GLUE_CONG, GLUE_CONG_GIVES};
pub use lam_cong::{LAM_CONG, LAM_CONG_GIVES};
pub use lift_face::{LIFT_FACE, LIFT_FACE_GIVES};
pub use lift_name::{LIFT_NAME, LIFT_NAME_GIVES};
pub use lift_var::{LIFT_VAR, LIFT_VAR_GIVES};
pub use merge_faces::{MERGE_FACES, MERGE_FACES_GIVES};
pub use pair_cong::{PAIR_CONG, PAIR_CONG_GIVES};
pub use plam_cong::{PLAM_CONG, PLAM_CONG_GIVES};
pub use restrict_tm0::{RESTRICT_TM0, RESTRICT_TM0_GIVES};
pub use restrict_tm1::{RESTRICT_TM1, RESTRICT_TM1_GIVES};
pub use restrict_ty0::{RESTRICT_TY0, RESTRICT_TY0_GIVES};
pub use restrict_ty1::{RESTRICT_TY1, RESTRICT_TY1_GIVES};
pub use swap_face::{SWAP_FACE, SWAP_FACE_GIVES};
pub use swap_faces::{SWAP_FACES, SWAP_FACES_GIVES};
pub use sys_cong::{SYS_CONG, SYS_CONG_GIVES};

/// Substitutions under a variable, a name and a face.
pub fn lifts_are_derived()
    ensures variable { Derives [] lift_var_statement LIFT_VAR.now LIFT_VAR_GIVES.now }
    ensures name { Derives [] lift_name_statement LIFT_NAME.now LIFT_NAME_GIVES.now }
    ensures face { Derives [] lift_face_statement LIFT_FACE.now LIFT_FACE_GIVES.now }
{}

/// A face and a name, or two faces, in another order, and two faces as one.
pub fn exchanges_are_derived()
    ensures name { Derives [] swap_face_statement SWAP_FACE.now SWAP_FACE_GIVES.now }
    ensures faces { Derives [] swap_faces_statement SWAP_FACES.now SWAP_FACES_GIVES.now }
    ensures merge { Derives [] merge_faces_statement MERGE_FACES.now MERGE_FACES_GIVES.now }
{}

/// Where a name is at an end, types and terms are what they are at it.
pub fn restrictions_are_derived()
    ensures type_at_0 { Derives [] restrict_ty0_statement RESTRICT_TY0.now RESTRICT_TY0_GIVES.now }
    ensures type_at_1 { Derives [] restrict_ty1_statement RESTRICT_TY1.now RESTRICT_TY1_GIVES.now }
    ensures term_at_0 { Derives [] restrict_tm0_statement RESTRICT_TM0.now RESTRICT_TM0_GIVES.now }
    ensures term_at_1 { Derives [] restrict_tm1_statement RESTRICT_TM1.now RESTRICT_TM1_GIVES.now }
{}

/// What is equal on two faces is equal on their join.
pub fn covers_are_derived()
    ensures types { Derives [] cover_ty_statement COVER_TY.now COVER_TY_GIVES.now }
    ensures terms { Derives [] cover_tm_statement COVER_TM.now COVER_TM_GIVES.now }
{}

/// Functions, pairs, paths, systems and elements of glued types are equal where their parts are.
pub fn congruences_are_derived()
    ensures lam { Derives [] lam_cong_statement LAM_CONG.now LAM_CONG_GIVES.now }
    ensures pair { Derives [] pair_cong_statement PAIR_CONG.now PAIR_CONG_GIVES.now }
    ensures plam { Derives [] plam_cong_statement PLAM_CONG.now PLAM_CONG_GIVES.now }
    ensures sys { Derives [] sys_cong_statement SYS_CONG.now SYS_CONG_GIVES.now }
    ensures glue { Derives [] glue_cong_statement GLUE_CONG.now GLUE_CONG_GIVES.now }
{}

/// At trees the statements are what their definitions say there.
pub fn statements_at_trees()
    ensures lift_var { (H : Context) (d : Subst) (G : Context) (A : Tree) →
        StatesAt lift_var_statement
        (AContext H ∷ ASubst d ∷ AContext G ∷ ATree A ∷ [])
        (lift_var trees H d G A) }
    ensures lift_name { (H : Context) (d : Subst) (G : Context) →
        StatesAt lift_name_statement
        (AContext H ∷ ASubst d ∷ AContext G ∷ [])
        (lift_name trees H d G) }
    ensures lift_face { (H : Context) (d : Subst) (G : Context) (p : Tree) →
        StatesAt lift_face_statement
        (AContext H ∷ ASubst d ∷ AContext G ∷ ATree p ∷ [])
        (lift_face trees H d G p) }
    ensures swap_face { (G : Context) (p : Tree) →
        StatesAt swap_face_statement
        (AContext G ∷ ATree p ∷ [])
        (swap_face trees G p) }
    ensures swap_faces { (G : Context) (p q : Tree) →
        StatesAt swap_faces_statement
        (AContext G ∷ ATree p ∷ ATree q ∷ [])
        (swap_faces trees G p q) }
    ensures merge_faces { (G : Context) (p q : Tree) →
        StatesAt merge_faces_statement
        (AContext G ∷ ATree p ∷ ATree q ∷ [])
        (merge_faces trees G p q) }
    ensures cover_ty { (G : Context) (p q a b : Tree) →
        StatesAt cover_ty_statement
        (AContext G ∷ ATree p ∷ ATree q ∷ ATree a ∷ ATree b ∷ [])
        (cover_ty trees G p q a b) }
    ensures cover_tm { (G : Context) (p q a b A : Tree) →
        StatesAt cover_tm_statement
        (AContext G ∷ ATree p ∷ ATree q ∷ ATree a ∷ ATree b ∷ ATree A ∷ [])
        (cover_tm trees G p q a b A) }
    ensures lam_cong { (G : Context) (A C b c B : Tree) →
        StatesAt lam_cong_statement
        (AContext G ∷ ATree A ∷ ATree C ∷ ATree b ∷ ATree c ∷ ATree B ∷ [])
        (lam_cong trees G A C b c B) }
    ensures pair_cong { (G : Context) (a b u v A B : Tree) →
        StatesAt pair_cong_statement
        (AContext G ∷ ATree a ∷ ATree b ∷ ATree u ∷ ATree v ∷ ATree A ∷ ATree B ∷ [])
        (pair_cong trees G a b u v A B) }
    ensures plam_cong { (G : Context) (A b c u v : Tree) →
        StatesAt plam_cong_statement
        (AContext G ∷ ATree A ∷ ATree b ∷ ATree c ∷ ATree u ∷ ATree v ∷ [])
        (plam_cong trees G A b c u v) }
    ensures sys_cong { (G : Context) (p q a b u v A : Tree) →
        StatesAt sys_cong_statement
        (AContext G ∷ ATree p ∷ ATree q ∷ ATree a ∷ ATree b ∷ ATree u ∷ ATree v ∷ ATree A ∷ [])
        (sys_cong trees G p q a b u v A) }
    ensures glue_cong { (G : Context) (A p T w u a v b : Tree) →
        StatesAt glue_cong_statement
        (AContext G ∷ ATree A ∷ ATree p ∷ ATree T ∷ ATree w ∷
        ATree u ∷ ATree a ∷ ATree v ∷ ATree b ∷ [])
        (glue_cong trees G A p T w u a v b) }
{}
