//! The table of rules, checked by other ways. Nothing here runs.
//!
//! The rules are stable under substitution: what is an instance of a rule over a context G becomes
//! an instance of it over H, along any substitution from H to G. The table is read at patterns,
//! where a forgotten lift or a part under the wrong binder would make the two sides differ.
//!
//! ```text
//! // along d : H to G, where d' is d under one more binder
//! app over G       G >> f : pi A B; G >> a : A
//!                  gives G >> app f a : B{a}
//! app over H       H >> f[d] : pi A[d] B[d']; H >> a[d] : A[d]
//!                  gives H >> app f[d] a[d] : B[d']{a[d]}, which is (app f a)[d] : B{a}[d]
//! ```
//!
//! What is stable may still be wrong, as a tree with one bound name in the place of another. Of 246
//! single edits that make another tree of a Kan operation, 96 leave it stable. So these trees are
//! besides compared with those that are written with bound names in place of shifted indices.
//!
//! ```text
//! // the table                                       with names
//! sig T (pathp (twice A) y+ (app f+ (var 0)))        sig T (λ x. pathp (λ i. A) y (app f x))
//! ```
//!
//! And what forms of a text mean is made of the operators and the derived trees of the table:
//! `translation` names them for trees alone, and the table for each language.
//!
//! ```text
//! forms_are_of_the_table();        // so `fill A p b a r` of a text is the table's, at trees
//! ```
#![tactic(auto)]

ghost use Rattle.theory.specs.declared.rule.EqualityRule.{EqualityRule};
ghost use Rattle.theory.specs.declared.rule.UniverseRule.{UniverseRule};
ghost use Rattle.theory.specs.declared.rule.PiRule.{PiRule};
ghost use Rattle.theory.specs.declared.rule.SigmaRule.{SigmaRule};
ghost use Rattle.theory.specs.declared.rule.PathRule.{PathRule};
ghost use Rattle.theory.specs.declared.rule.NatRule.{NatRule};
ghost use Rattle.theory.specs.declared.rule.RuleName.TheVariants.{Equality, Universe, Pi, Sigma};
ghost use Rattle.theory.specs.declared.rule.SystemRule.{SystemRule};
ghost use Rattle.theory.specs.declared.rule.CompRule.{CompRule};
ghost use Rattle.theory.specs.declared.rule.GlueRule.{GlueRule};
ghost use Rattle.theory.specs.declared.rule.RuleName.TheVariants.{Paths, Naturals, Systems};
ghost use Rattle.theory.specs.declared.rule.RuleName.TheVariants.{Composition, Gluing};
ghost use Rattle.std.specs.Prelude.{◌≡◌};
ghost use Rattle.trees.specs.Trees.{Tree};
ghost use Rattle.trees.specs.Judgements.{trees};
ghost use Rattle.rules.specs.Table.{motive_step, equiv, comp_pi, comp_sig, comp_path, comp_glue};
ghost use Rattle.rules.specs.Table.{comp_u};
ghost use Rattle.stability.specs.Alike.{SameOperators, SameTerms, SameSystems};
ghost use Rattle.stability.specs.Named.{named_step, named_equiv, named_pi, named_sig, named_path};
ghost use Rattle.stability.specs.Named.{named_glue, named_u};
ghost use Rattle.stability.specs.Depths.{equality_depths, universe_depths, pi_depths};
ghost use Rattle.stability.specs.Depths.{sigma_depths, path_depths, nat_depths};
ghost use Rattle.stability.specs.Depths.{system_depths, comp_depths, glue_depths};
ghost use Rattle.stability.specs.Stable.{IsStable};

/// Whatever substitution d : H to G there is, it takes the premises, side conditions and conclusion
/// of each of these rules over G to those of the rule over H, at the parts that it takes these to.
///
/// The other families are of rules that conclude a context or a substitution, or apply one.
pub fn rules_are_stable()
    ensures equality { (name : EqualityRule) → IsStable (Equality name) (equality_depths name) }
    ensures universe { (name : UniverseRule) → IsStable (Universe name) (universe_depths name) }
    ensures pi { (name : PiRule) → IsStable (Pi name) (pi_depths name) }
    ensures sigma { (name : SigmaRule) → IsStable (Sigma name) (sigma_depths name) }
    ensures paths { (name : PathRule) → IsStable (Paths name) (path_depths name) }
    ensures naturals { (name : NatRule) → IsStable (Naturals name) (nat_depths name) }
    ensures systems { (name : SystemRule) → IsStable (Systems name) (system_depths name) }
    ensures composition { (name : CompRule) → IsStable (Composition name) (comp_depths name) }
    ensures gluing { (name : GlueRule) → IsStable (Gluing name) (glue_depths name) }
{}

/// The trees that rules of composition, of Glue and of `natrec` name, with all that these are made
/// of, are those that are written with bound names: a step of a recursion, the equivalences, and
/// what composition is at each form of type.
pub fn trees_are_named()
    ensures steps { (P : Tree) → motive_step trees P ≡ named_step trees P }
    ensures equivalences { (T A : Tree) → equiv trees T A ≡ named_equiv trees T A }
    ensures functions { (A B p b a : Tree) → comp_pi trees A B p b a ≡ named_pi trees A B p b a }
    ensures pairs { (A B p b a : Tree) → comp_sig trees A B p b a ≡ named_sig trees A B p b a }
    ensures paths { (A u v p b a : Tree) →
        comp_path trees A u v p b a ≡ named_path trees A u v p b a }
    ensures gluing { (A q T w p b a : Tree) →
        comp_glue trees A q T w p b a ≡ named_glue trees A q T w p b a }
    ensures universe { (p b a : Tree) → comp_u trees p b a ≡ named_u trees p b a }
{}

/// A law, and no code: each operator that a form of a text stands for is that of the rules, and so
/// are covers and bodies of systems, lines along formulas, and filling.
pub fn forms_are_of_the_table()
    ensures operators { SameOperators }
    ensures terms { SameTerms }
    ensures systems { SameSystems }
{}
