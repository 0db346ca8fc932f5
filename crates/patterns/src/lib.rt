//! Patterns: trees, substitutions, contexts and judgements with parts that are not known, and a
//! test that two of them mean the same whatever the parts are.
//!
//! Nothing here runs. A pattern is read in any language of trees; read in normal terms with unknown
//! parts it computes to its normal form, and the tests compare normal forms. The functions below
//! have what is proved as their contracts.
//!
//! ```text
//! // A of G, d : H to G and e : K to H are parts that are not known
//! same_tree        A[d][e] and A[d then e]         true: they are one tree at all parts
//! same_tree        A+{a} and A                     true
//! ```
#![tactic(auto)]

ghost use Rattle.std.specs.Prelude.{◌≡◌, ℕ, true, length, map, List};
ghost use Rattle.std.specs.List.{All, list_all};
ghost use Rattle.trees.specs.Trees.{Tree, apply, then};
ghost use Rattle.trees.specs.Judgements.{trees};
ghost use Rattle.substitution.specs.Action.{ActAlike};
ghost use Rattle.patterns.specs.Patterns.{Pattern, SubstPattern, ContextPattern, JudgementPattern};
ghost use Rattle.patterns.specs.Patterns.{ConditionPattern, RulePattern};
ghost use Rattle.patterns.specs.Values.{Parts, tree_of, subst_of, context_of};
ghost use Rattle.patterns.specs.Values.{judged_of, judgement_of, condition_of, rule_of};
ghost use Rattle.patterns.specs.Normals.{Normal, NormalSubst, normals, unknown};
ghost use Rattle.patterns.specs.Normals.{trimmed, apply_normal, after};
ghost use Rattle.patterns.specs.Fillings.{Fits, filled, filled_subst, filled_context};
ghost use Rattle.patterns.specs.Fillings.{filled_judgement};
ghost use Rattle.patterns.specs.Tests.{same_tree, same_subst, same_context};
ghost use Rattle.patterns.specs.Tests.{same_judgement, same_judgements, same_condition};
ghost use Rattle.patterns.specs.Tests.{same_rule};
ghost use Rattle.patterns.specs.Examples.{HoldsAtAll, filling_examples, law_examples};
ghost use Rattle.patterns.specs.Examples.{every_example};
ghost use Rattle.patterns.specs.Refusals.{is_refused, Differ, one_index_off};

/// Two patterns that a test accepts mean the same at all parts.
pub fn tests_are_sound()
    ensures of_trees { (v : Parts trees) (p q : Pattern) →
        same_tree p q ≡ true → tree_of trees v p ≡ tree_of trees v q }
    ensures of_substs { (v : Parts trees) (d e : SubstPattern) →
        same_subst d e ≡ true → subst_of trees v d ≡ subst_of trees v e }
    ensures of_contexts { (v : Parts trees) (G H : ContextPattern) →
        same_context G H ≡ true → context_of trees v G ≡ context_of trees v H }
    ensures of_judgements { (v : Parts trees) (i j : JudgementPattern) →
        same_judgement i j ≡ true → judgement_of v i ≡ judgement_of v j }
    ensures of_lists { (v : Parts trees) (is js : List JudgementPattern) →
        same_judgements is js ≡ true → map (judgement_of v) is ≡ map (judgement_of v) js }
    ensures of_conditions { (v : Parts trees) (c k : ConditionPattern) →
        same_condition c k ≡ true → condition_of v c ≡ condition_of v k }
    ensures of_rules { (v : Parts trees) (r s : RulePattern) →
        same_rule r s ≡ true → rule_of v r ≡ rule_of v s }
{}

/// A pattern read in normal terms u, filled in at the parts v, is the pattern read at the parts w
/// that the terms are at v.
pub fn normaliser_is_sound()
    ensures of_trees { (v : Parts trees) (u : Parts normals) (w : Parts trees) →
        Fits v u w → (p : Pattern) → filled v (tree_of normals u p) ≡ tree_of trees w p }
    ensures of_substs { (v : Parts trees) (u : Parts normals) (w : Parts trees) →
        Fits v u w → (d : SubstPattern) →
        filled_subst v (subst_of normals u d) ≡ subst_of trees w d }
    ensures of_contexts { (v : Parts trees) (u : Parts normals) (w : Parts trees) →
        Fits v u w → (G : ContextPattern) →
        filled_context v (context_of normals u G) ≡ context_of trees w G }
    ensures of_judgements { (v : Parts trees) (u : Parts normals) (w : Parts trees) →
        Fits v u w → (j : JudgementPattern) →
        filled_judgement v (judged_of normals u j) ≡ judgement_of w j }
    ensures of_unknown { (v : Parts trees) → Fits v unknown v }
{}

/// Normal terms are substituted, and trimmed, as the trees that they stand for.
pub fn normal_terms_are_trees()
    ensures apply { (v : Parts trees) (d : NormalSubst) (t : Normal) →
        filled v (apply_normal d t) ≡ apply (filled v t) (filled_subst v d) }
    ensures then { (v : Parts trees) (d s : NormalSubst) →
        filled_subst v (after d s) ≡ then (filled_subst v s) (filled_subst v d) }
    ensures trim { (v : Parts trees) (s : NormalSubst) →
        ActAlike (filled_subst v (trimmed s)) (filled_subst v s) }
{}

/// Examples: the line of filling has its ends, and the laws of substitution are found.
pub fn examples()
    ensures hold { All HoldsAtAll every_example }
    ensures filling { length filling_examples ≡ 5 }
    ensures laws { length law_examples ≡ 11 }
{}

/// Patterns that differ by one index are refused, and mean different things at some parts.
pub fn refusals()
    ensures refused { list_all is_refused one_index_off ≡ true }
    ensures differ { All Differ one_index_off }
{}
