//! What substitutions do that are provable from H to G. They shift no further than there are
//! entries: each pushes a tree for each entry of G that it does not keep of H, and drops no more
//! entries of H than there are. And they take each formula of G to a formula of H, and each face to
//! a face.
//!
//! ```text
//! // push up zero : [].nat to [].nat
//! substitutions_span_contexts();
//! // the shift, 1, is no more than the one entry of the first context; and 1 + 1, the entries of
//! // the second and the shift, are 1 + 1, the pushed trees and the entries of the first
//!
//! // d : H to G is a node of a book, and p a face of G
//! substitutions_keep_faces();
//! // p[d] is a face of H
//! ```
#![tactic(auto)]

ghost use Rattle.std.specs.Prelude.{IsTrue};
ghost use Rattle.trees.specs.Trees.{Subst, Tree, apply};
ghost use Rattle.trees.specs.Judgements.{Context};
ghost use Rattle.trees.specs.Language.{Sb};
ghost use Rattle.conditions.specs.Sides.{is_face, is_formula};
ghost use Rattle.derivation.specs.Derivations.{Provable};
ghost use Rattle.substitution_laws.specs.Spans.{Spans};

/// A law, and no code: a provable substitution spans its contexts, so that its shift is no greater
/// than the number of variables and names that it comes from.
pub fn substitutions_span_contexts()
    ensures { (H : Context) (d : Subst) (G : Context) → Provable (Sb H d G) → Spans H d G }
{}

/// A law, and no code: under a provable substitution formulas stay formulas, and faces faces.
pub fn substitutions_keep_faces()
    ensures formulas { (H G : Context) (d : Subst) (r : Tree) → Provable (Sb H d G)
        → IsTrue (is_formula G r) → IsTrue (is_formula H (apply r d)) }
    ensures faces { (H G : Context) (d : Subst) (p : Tree) → Provable (Sb H d G)
        → IsTrue (is_face G p) → IsTrue (is_face H (apply p d)) }
{}
