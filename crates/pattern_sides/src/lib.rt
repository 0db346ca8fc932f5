//! Side conditions with unknown parts: a test that one follows from others, whatever the parts are.
//!
//! Parts may be declared formulas and faces over a context. A part under a substitution is then one
//! too where the substitution takes the names of that context to formulas. Whether a face holds,
//! and whether two formulas have one value, is tried at all values of their atoms: names, and parts
//! under substitutions. There are few, mostly one or two.
//!
//! Nothing here runs. The functions below have what is proved as their contracts.
//!
//! ```text
//! // p is declared a face of G, and r a formula
//! G.p              p or (r = 0) holds              found
//! G.(r = 1)        p holds, where p or (r = 0) is declared to hold in G       found
//! G                (r = 0) or (r = 1) holds        refused: a formula may be at neither end
//! ```
#![tactic(auto)]

ghost use Rattle.std.specs.Prelude.{◌≡◌, true, List, map};
ghost use Rattle.std.specs.List.{All, list_all};
ghost use Rattle.trees.specs.Judgements.{trees};
ghost use Rattle.patterns.specs.Values.{Parts};
ghost use Rattle.patterns.specs.Fillings.{filled_condition};
ghost use Rattle.patterns.specs.Tests.{NormalCondition};
ghost use Rattle.conditions.specs.Sides.{SideHolds};
ghost use Rattle.pattern_sides.specs.Follows.{follows};
ghost use Rattle.pattern_sides.specs.Examples.{does_follow, does_not_follow, examples, refusals};

/// Where the others hold, a side condition holds that the test finds to follow from them.
pub fn side_test_is_sound()
    ensures { (v : Parts trees) (facts : List NormalCondition) →
        All SideHolds (map (filled_condition v) facts) →
        (c : NormalCondition) → follows facts c ≡ true → SideHolds (filled_condition v c) }
{}

/// What the test finds, and what it refuses.
pub fn side_examples()
    ensures found { list_all does_follow examples ≡ true }
    ensures refused { list_all does_not_follow refusals ≡ true }
{}
