//! What stands behind a judgement: the context of a typing, the type of a term, the sides of an
//! equation, the contexts of a substitution, the parts of a type. Wherever a judgement is
//! derivable, so is what stands behind it, but no rule leads there. An entry tells how it is had
//! from the premises of the rule that concludes the judgement, and from what stands behind these.
//!
//! ```text
//! tmeq.conv   G >> a = b : A; G >> A = B   |   G >> a = b : B
//! type        the right side of premise 1
//! left        tm.conv of the left side of premise 0 and premise 1
//! ```
//!
//! What stands behind a judgement is said once for every language in which rules are read, and what
//! an entry states is made of it and of the table of rules.
#![tactic(auto)]

ghost use Rattle.std.specs.Prelude.{◌≡◌, ℕ, List, Some, map};
ghost use Rattle.std.specs.List.{All};
ghost use Rattle.theory.specs.declared.rule.RuleName.{RuleName};
ghost use Rattle.theory.specs.RuleNames.{kinds_of};
ghost use Rattle.trees.specs.Judgements.{trees, Judgement, TreeRule};
ghost use Rattle.trees.specs.Things.{Thing, kind_of};
ghost use Rattle.patterns.specs.Patterns.{JudgementPattern};
ghost use Rattle.patterns.specs.Values.{Parts, judgement_of};
ghost use Rattle.rules.specs.Rules.{rule_at};
ghost use Rattle.rules.specs.Instances.{IsInstance};
ghost use Rattle.recipes.specs.declared.row.Row.{Row};
ghost use Rattle.recipes.specs.Made.{ShiftIsAtMost, greatest_part_shift};
ghost use Rattle.recipes.specs.Statements.{Statement};
ghost use Rattle.presuppositions.specs.declared.source.Label.{Label};
ghost use Rattle.presuppositions.specs.declared.source.Source.{Source};
ghost use Rattle.presuppositions.specs.Behind.{behind, behind_pattern};
ghost use Rattle.presuppositions.specs.Sources.{sources, source_patterns};
ghost use Rattle.presuppositions.specs.Entries.{IsEntry, entry_statement};
ghost use Rattle.presuppositions.specs.AtTrees.{StatesBehind, DerivesBehind};

mod source;

pub use source::{Entry, Label, Source, at_hand, derived};

/// What stands behind a pattern stands, at all values of its parts, behind its value, and so it is
/// with sources.
pub fn values_keep_what_stands_behind()
    ensures judgement { (v : Parts trees) (label : Label) (J K : JudgementPattern) →
        behind_pattern label J ≡ Some K →
        behind label (judgement_of v J) ≡ Some (judgement_of v K) }
    ensures sources { (v : Parts trees) (wants Js : List JudgementPattern) (ss : List Source) →
        source_patterns wants ss ≡ Some Js →
        sources (map (judgement_of v) wants) ss ≡ Some (map (judgement_of v) Js) }
{}

/// At given parts an entry wants what its sources name of the premises of the rule, and gives what
/// stands behind its conclusion.
pub fn entries_at_trees()
    ensures { (name : RuleName) (l : Label) (ss : List Source) (s : Statement) (xs : List Thing) →
        map kind_of xs ≡ kinds_of name → entry_statement name l ss ≡ Some s →
        (r : TreeRule) → rule_at name xs ≡ Some r → StatesBehind l ss s xs r }
{}

/// Of an instance of a rule, an entry derives what stands behind its conclusion, from what the
/// sources name of its premises.
pub fn entries_derive()
    ensures { (earlier : List Statement) (name : RuleName) (l : Label) (ss : List Source)
        (rows : List Row) (last : ℕ) → IsEntry earlier name l ss rows last →
        (xs : List Thing) (premises : List Judgement) (K : Judgement) →
        IsInstance name xs premises K → All (ShiftIsAtMost greatest_part_shift) xs →
        DerivesBehind earlier l ss rows last xs premises K }
{}
