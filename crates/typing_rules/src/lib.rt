//! Derived rules by which the forms of a text are typed: what a checker concludes when the parts of
//! a form are typed, as recipes.
//!
//! A type stands under a substitution: where a head has the type `(pi A B)[d]`, and its argument
//! checks at `A[d]`, the type of the application is B under d with the argument pushed.
//!
//! ```text
//! APPLIED          of H d G A B f a
//! wants            d : H to G; G >> A; G.A >> B; H >> f : (pi A B)[d]; H >> a : A[d]
//! gives            H >> app f a : B[push d a]; push d a : H to G.A
//! ```
#![tactic(auto)]

ghost use Rattle.std.specs.Prelude.{[], ◌∷◌};
ghost use Rattle.recipes.specs.Derivations.{Derives, StatesAt};
ghost use Rattle.trees.specs.Trees.{Tree, Subst};
ghost use Rattle.trees.specs.Judgements.{Context, trees};
ghost use Rattle.trees.specs.Things.{AContext, ASubst, ATree};
ghost use Rattle.typing_rules.specs.Places.{composed, line_ends, motive_start, no_entries};
ghost use Rattle.typing_rules.specs.Places.{nothing_done, past_name, past_variable, pushed};
ghost use Rattle.typing_rules.specs.Places.{term_instance, type_instance, under_name};
ghost use Rattle.typing_rules.specs.Places.{under_variable, variable, with_entry, with_name};
ghost use Rattle.typing_rules.specs.Places.{composed_statement, line_ends_statement};
ghost use Rattle.typing_rules.specs.Places.{motive_start_statement, no_entries_statement};
ghost use Rattle.typing_rules.specs.Places.{nothing_done_statement, past_name_statement};
ghost use Rattle.typing_rules.specs.Places.{past_variable_statement, pushed_statement};
ghost use Rattle.typing_rules.specs.Places.{term_instance_statement, type_instance_statement};
ghost use Rattle.typing_rules.specs.Places.{under_name_statement, under_variable_statement};
ghost use Rattle.typing_rules.specs.Places.{variable_statement, with_entry_statement};
ghost use Rattle.typing_rules.specs.Places.{with_name_statement};
ghost use Rattle.typing_rules.specs.Types.{family_of_numbers, motive_step, numbers_type};
ghost use Rattle.typing_rules.specs.Types.{path_in_universe, path_small, path_type, pi_small};
ghost use Rattle.typing_rules.specs.Types.{pi_type, sig_small, sig_type, small_type};
ghost use Rattle.typing_rules.specs.Types.{universe_type, family_of_numbers_statement};
ghost use Rattle.typing_rules.specs.Types.{motive_step_statement, numbers_type_statement};
ghost use Rattle.typing_rules.specs.Types.{path_in_universe_statement, path_small_statement};
ghost use Rattle.typing_rules.specs.Types.{path_type_statement, pi_small_statement};
ghost use Rattle.typing_rules.specs.Types.{pi_type_statement, sig_small_statement};
ghost use Rattle.typing_rules.specs.Types.{sig_type_statement, small_type_statement};
ghost use Rattle.typing_rules.specs.Types.{universe_type_statement};
ghost use Rattle.typing_rules.specs.Terms.{applied, first, function, pair_term, path_applied};
ghost use Rattle.typing_rules.specs.Terms.{path_term, recursion, second, successor_term};
ghost use Rattle.typing_rules.specs.Terms.{transported, zero_term, applied_statement};
ghost use Rattle.typing_rules.specs.Terms.{first_statement, function_statement};
ghost use Rattle.typing_rules.specs.Terms.{pair_term_statement, path_applied_statement};
ghost use Rattle.typing_rules.specs.Terms.{path_term_statement, recursion_statement};
ghost use Rattle.typing_rules.specs.Terms.{second_statement, successor_term_statement};
ghost use Rattle.typing_rules.specs.Terms.{transported_statement, zero_term_statement};

mod applied;
mod composed;
mod family_of_numbers;
mod first;
mod function;
mod line_ends;
mod motive_start;
mod motive_step;
mod no_entries;
mod nothing_done;
mod numbers_type;
mod pair_term;
mod past_name;
mod past_variable;
mod path_applied;
mod path_in_universe;
mod path_small;
mod path_term;
mod path_type;
mod pi_small;
mod pi_type;
mod pushed;
mod recursion;
mod second;
mod sig_small;
mod sig_type;
mod small_type;
mod successor_term;
mod term_instance;
mod transported;
mod type_instance;
mod under_name;
mod under_variable;
mod universe_type;
mod variable;
mod with_entry;
mod with_name;
mod zero_term;

pub use applied::{APPLIED, APPLIED_GIVES};
pub use composed::{COMPOSED, COMPOSED_GIVES};
pub use family_of_numbers::{FAMILY_OF_NUMBERS, FAMILY_OF_NUMBERS_GIVES};
pub use first::{FIRST, FIRST_GIVES};
pub use function::{FUNCTION, FUNCTION_GIVES};
pub use line_ends::{LINE_ENDS, LINE_ENDS_GIVES};
pub use motive_start::{MOTIVE_START, MOTIVE_START_GIVES};
pub use motive_step::{MOTIVE_STEP, MOTIVE_STEP_GIVES};
pub use no_entries::{NO_ENTRIES, NO_ENTRIES_GIVES};
pub use nothing_done::{NOTHING_DONE, NOTHING_DONE_GIVES};
pub use numbers_type::{NUMBERS_TYPE, NUMBERS_TYPE_GIVES};
pub use pair_term::{PAIR_TERM, PAIR_TERM_GIVES};
pub use past_name::{PAST_NAME, PAST_NAME_GIVES};
pub use past_variable::{PAST_VARIABLE, PAST_VARIABLE_GIVES};
pub use path_applied::{PATH_APPLIED, PATH_APPLIED_GIVES};
pub use path_in_universe::{PATH_IN_UNIVERSE, PATH_IN_UNIVERSE_GIVES};
pub use path_small::{PATH_SMALL, PATH_SMALL_GIVES};
pub use path_term::{PATH_TERM, PATH_TERM_GIVES};
pub use path_type::{PATH_TYPE, PATH_TYPE_GIVES};
pub use pi_small::{PI_SMALL, PI_SMALL_GIVES};
pub use pi_type::{PI_TYPE, PI_TYPE_GIVES};
pub use pushed::{PUSHED, PUSHED_GIVES};
pub use recursion::{RECURSION, RECURSION_GIVES};
pub use second::{SECOND, SECOND_GIVES};
pub use sig_small::{SIG_SMALL, SIG_SMALL_GIVES};
pub use sig_type::{SIG_TYPE, SIG_TYPE_GIVES};
pub use small_type::{SMALL_TYPE, SMALL_TYPE_GIVES};
pub use successor_term::{SUCCESSOR_TERM, SUCCESSOR_TERM_GIVES};
pub use term_instance::{TERM_INSTANCE, TERM_INSTANCE_GIVES};
pub use transported::{TRANSPORTED, TRANSPORTED_GIVES};
pub use type_instance::{TYPE_INSTANCE, TYPE_INSTANCE_GIVES};
pub use under_name::{UNDER_NAME, UNDER_NAME_GIVES};
pub use under_variable::{UNDER_VARIABLE, UNDER_VARIABLE_GIVES};
pub use universe_type::{UNIVERSE_TYPE, UNIVERSE_TYPE_GIVES};
pub use variable::{VARIABLE, VARIABLE_GIVES};
pub use with_entry::{WITH_ENTRY, WITH_ENTRY_GIVES};
pub use with_name::{WITH_NAME, WITH_NAME_GIVES};
pub use zero_term::{ZERO_TERM, ZERO_TERM_GIVES};

/// Contexts, substitutions, and instances.
pub fn places_are_derived()
    ensures no_entries { Derives [] no_entries_statement NO_ENTRIES.now NO_ENTRIES_GIVES.now }
    ensures with_entry { Derives [] with_entry_statement WITH_ENTRY.now WITH_ENTRY_GIVES.now }
    ensures with_name { Derives [] with_name_statement WITH_NAME.now WITH_NAME_GIVES.now }
    ensures nothing_done { Derives [] nothing_done_statement
        NOTHING_DONE.now NOTHING_DONE_GIVES.now }
    ensures past_variable { Derives [] past_variable_statement
        PAST_VARIABLE.now PAST_VARIABLE_GIVES.now }
    ensures past_name { Derives [] past_name_statement PAST_NAME.now PAST_NAME_GIVES.now }
    ensures under_variable { Derives [] under_variable_statement
        UNDER_VARIABLE.now UNDER_VARIABLE_GIVES.now }
    ensures under_name { Derives [] under_name_statement UNDER_NAME.now UNDER_NAME_GIVES.now }
    ensures composed { Derives [] composed_statement COMPOSED.now COMPOSED_GIVES.now }
    ensures pushed { Derives [] pushed_statement PUSHED.now PUSHED_GIVES.now }
    ensures line_ends { Derives [] line_ends_statement LINE_ENDS.now LINE_ENDS_GIVES.now }
    ensures motive_start { Derives [] motive_start_statement
        MOTIVE_START.now MOTIVE_START_GIVES.now }
    ensures type_instance { Derives [] type_instance_statement
        TYPE_INSTANCE.now TYPE_INSTANCE_GIVES.now }
    ensures term_instance { Derives [] term_instance_statement
        TERM_INSTANCE.now TERM_INSTANCE_GIVES.now }
    ensures variable { Derives [] variable_statement VARIABLE.now VARIABLE_GIVES.now }
{}

/// At trees these state what their definitions say there.
pub fn places_at_trees()
    ensures no_entries { StatesAt no_entries_statement [] (no_entries trees) }
    ensures with_entry { (H : Context) (A : Tree) →
        StatesAt with_entry_statement
        (AContext H ∷ ATree A ∷ [])
        (with_entry trees H A) }
    ensures with_name { (H : Context) →
        StatesAt with_name_statement
        (AContext H ∷ [])
        (with_name trees H) }
    ensures nothing_done { (H : Context) →
        StatesAt nothing_done_statement
        (AContext H ∷ [])
        (nothing_done trees H) }
    ensures past_variable { (H : Context) (d : Subst) (G : Context) (A : Tree) →
        StatesAt past_variable_statement
        (AContext H ∷ ASubst d ∷ AContext G ∷ ATree A ∷ [])
        (past_variable trees H d G A) }
    ensures past_name { (H : Context) (d : Subst) (G : Context) →
        StatesAt past_name_statement
        (AContext H ∷ ASubst d ∷ AContext G ∷ [])
        (past_name trees H d G) }
    ensures under_variable { (H : Context) (d : Subst) (G : Context) (A : Tree) →
        StatesAt under_variable_statement
        (AContext H ∷ ASubst d ∷ AContext G ∷ ATree A ∷ [])
        (under_variable trees H d G A) }
    ensures under_name { (H : Context) (d : Subst) (G : Context) →
        StatesAt under_name_statement
        (AContext H ∷ ASubst d ∷ AContext G ∷ [])
        (under_name trees H d G) }
    ensures composed { (K : Context) (e : Subst) (H : Context) (d : Subst) (G : Context) →
        StatesAt composed_statement
        (AContext K ∷ ASubst e ∷ AContext H ∷ ASubst d ∷ AContext G ∷ [])
        (composed trees K e H d G) }
    ensures pushed { (H : Context) (d : Subst) (G : Context) (A a : Tree) →
        StatesAt pushed_statement
        (AContext H ∷ ASubst d ∷ AContext G ∷ ATree A ∷ ATree a ∷ [])
        (pushed trees H d G A a) }
    ensures line_ends { (H : Context) →
        StatesAt line_ends_statement
        (AContext H ∷ [])
        (line_ends trees H) }
    ensures motive_start { (H : Context) →
        StatesAt motive_start_statement
        (AContext H ∷ [])
        (motive_start trees H) }
    ensures type_instance { (H : Context) (d : Subst) (G : Context) (A : Tree) →
        StatesAt type_instance_statement
        (AContext H ∷ ASubst d ∷ AContext G ∷ ATree A ∷ [])
        (type_instance trees H d G A) }
    ensures term_instance { (H : Context) (d : Subst) (G : Context) (a A : Tree) →
        StatesAt term_instance_statement
        (AContext H ∷ ASubst d ∷ AContext G ∷ ATree a ∷ ATree A ∷ [])
        (term_instance trees H d G a A) }
    ensures variable { (H : Context) (d : Subst) (G : Context) (A : Tree) →
        StatesAt variable_statement
        (AContext H ∷ ASubst d ∷ AContext G ∷ ATree A ∷ [])
        (variable trees H d G A) }
{}

/// Types, and types in the universe.
pub fn types_are_derived()
    ensures universe_type { Derives [] universe_type_statement
        UNIVERSE_TYPE.now UNIVERSE_TYPE_GIVES.now }
    ensures numbers_type { Derives [] numbers_type_statement
        NUMBERS_TYPE.now NUMBERS_TYPE_GIVES.now }
    ensures small_type { Derives [] small_type_statement SMALL_TYPE.now SMALL_TYPE_GIVES.now }
    ensures pi_type { Derives [] pi_type_statement PI_TYPE.now PI_TYPE_GIVES.now }
    ensures pi_small { Derives [] pi_small_statement PI_SMALL.now PI_SMALL_GIVES.now }
    ensures sig_type { Derives [] sig_type_statement SIG_TYPE.now SIG_TYPE_GIVES.now }
    ensures sig_small { Derives [] sig_small_statement SIG_SMALL.now SIG_SMALL_GIVES.now }
    ensures path_type { Derives [] path_type_statement PATH_TYPE.now PATH_TYPE_GIVES.now }
    ensures path_small { Derives [] path_small_statement PATH_SMALL.now PATH_SMALL_GIVES.now }
    ensures motive_step { Derives [] motive_step_statement MOTIVE_STEP.now MOTIVE_STEP_GIVES.now }
    ensures path_in_universe { Derives [] path_in_universe_statement
        PATH_IN_UNIVERSE.now PATH_IN_UNIVERSE_GIVES.now }
    ensures family_of_numbers { Derives [] family_of_numbers_statement
        FAMILY_OF_NUMBERS.now FAMILY_OF_NUMBERS_GIVES.now }
{}

/// At trees these state what their definitions say there.
pub fn types_at_trees()
    ensures universe_type { (H : Context) →
        StatesAt universe_type_statement
        (AContext H ∷ [])
        (universe_type trees H) }
    ensures numbers_type { (H : Context) →
        StatesAt numbers_type_statement
        (AContext H ∷ [])
        (numbers_type trees H) }
    ensures small_type { (H : Context) (A : Tree) →
        StatesAt small_type_statement
        (AContext H ∷ ATree A ∷ [])
        (small_type trees H A) }
    ensures pi_type { (H : Context) (A B : Tree) →
        StatesAt pi_type_statement
        (AContext H ∷ ATree A ∷ ATree B ∷ [])
        (pi_type trees H A B) }
    ensures pi_small { (H : Context) (A B : Tree) →
        StatesAt pi_small_statement
        (AContext H ∷ ATree A ∷ ATree B ∷ [])
        (pi_small trees H A B) }
    ensures sig_type { (H : Context) (A B : Tree) →
        StatesAt sig_type_statement
        (AContext H ∷ ATree A ∷ ATree B ∷ [])
        (sig_type trees H A B) }
    ensures sig_small { (H : Context) (A B : Tree) →
        StatesAt sig_small_statement
        (AContext H ∷ ATree A ∷ ATree B ∷ [])
        (sig_small trees H A B) }
    ensures path_type { (H : Context) (A u v : Tree) →
        StatesAt path_type_statement
        (AContext H ∷ ATree A ∷ ATree u ∷ ATree v ∷ [])
        (path_type trees H A u v) }
    ensures path_small { (H : Context) (A u v : Tree) →
        StatesAt path_small_statement
        (AContext H ∷ ATree A ∷ ATree u ∷ ATree v ∷ [])
        (path_small trees H A u v) }
    ensures motive_step { (H : Context) (P : Tree) →
        StatesAt motive_step_statement
        (AContext H ∷ ATree P ∷ [])
        (motive_step trees H P) }
    ensures path_in_universe { (u v : Tree) (H : Context) (c : Tree) →
        StatesAt path_in_universe_statement
        (ATree u ∷ ATree v ∷ AContext H ∷ ATree c ∷ [])
        (path_in_universe trees u v H c) }
    ensures family_of_numbers { (H : Context) (c : Tree) →
        StatesAt family_of_numbers_statement
        (AContext H ∷ ATree c ∷ [])
        (family_of_numbers trees H c) }
{}

/// Terms of each form.
pub fn terms_are_derived()
    ensures zero_term { Derives [] zero_term_statement ZERO_TERM.now ZERO_TERM_GIVES.now }
    ensures successor_term { Derives [] successor_term_statement
        SUCCESSOR_TERM.now SUCCESSOR_TERM_GIVES.now }
    ensures function { Derives [] function_statement FUNCTION.now FUNCTION_GIVES.now }
    ensures applied { Derives [] applied_statement APPLIED.now APPLIED_GIVES.now }
    ensures pair_term { Derives [] pair_term_statement PAIR_TERM.now PAIR_TERM_GIVES.now }
    ensures first { Derives [] first_statement FIRST.now FIRST_GIVES.now }
    ensures second { Derives [] second_statement SECOND.now SECOND_GIVES.now }
    ensures path_term { Derives [] path_term_statement PATH_TERM.now PATH_TERM_GIVES.now }
    ensures path_applied { Derives [] path_applied_statement
        PATH_APPLIED.now PATH_APPLIED_GIVES.now }
    ensures recursion { Derives [] recursion_statement RECURSION.now RECURSION_GIVES.now }
    ensures transported { Derives [] transported_statement TRANSPORTED.now TRANSPORTED_GIVES.now }
{}

/// At trees these state what their definitions say there.
pub fn terms_at_trees()
    ensures zero_term { (H : Context) →
        StatesAt zero_term_statement
        (AContext H ∷ [])
        (zero_term trees H) }
    ensures successor_term { (H : Context) (n : Tree) →
        StatesAt successor_term_statement
        (AContext H ∷ ATree n ∷ [])
        (successor_term trees H n) }
    ensures function { (H : Context) (A b B : Tree) →
        StatesAt function_statement
        (AContext H ∷ ATree A ∷ ATree b ∷ ATree B ∷ [])
        (function trees H A b B) }
    ensures applied { (H : Context) (d : Subst) (G : Context) (A B f a : Tree) →
        StatesAt applied_statement
        (AContext H ∷ ASubst d ∷ AContext G ∷ ATree A ∷ ATree B ∷ ATree f ∷ ATree a ∷ [])
        (applied trees H d G A B f a) }
    ensures pair_term { (H : Context) (d : Subst) (G : Context) (A B a b : Tree) →
        StatesAt pair_term_statement
        (AContext H ∷ ASubst d ∷ AContext G ∷ ATree A ∷ ATree B ∷ ATree a ∷ ATree b ∷ [])
        (pair_term trees H d G A B a b) }
    ensures first { (H : Context) (d : Subst) (G : Context) (A B c : Tree) →
        StatesAt first_statement
        (AContext H ∷ ASubst d ∷ AContext G ∷ ATree A ∷ ATree B ∷ ATree c ∷ [])
        (first trees H d G A B c) }
    ensures second { (H : Context) (d : Subst) (G : Context) (A B c : Tree) →
        StatesAt second_statement
        (AContext H ∷ ASubst d ∷ AContext G ∷ ATree A ∷ ATree B ∷ ATree c ∷ [])
        (second trees H d G A B c) }
    ensures path_term { (H : Context) (A b : Tree) →
        StatesAt path_term_statement
        (AContext H ∷ ATree A ∷ ATree b ∷ [])
        (path_term trees H A b) }
    ensures path_applied { (r : Tree) (H : Context) (d : Subst) (G : Context) (A u v c : Tree) →
        StatesAt path_applied_statement
        (ATree r ∷ AContext H ∷ ASubst d ∷ AContext G ∷ ATree A ∷ ATree u ∷ ATree v ∷ ATree c ∷ [])
        (path_applied trees r H d G A u v c) }
    ensures recursion { (H : Context) (P a b n : Tree) →
        StatesAt recursion_statement
        (AContext H ∷ ATree P ∷ ATree a ∷ ATree b ∷ ATree n ∷ [])
        (recursion trees H P a b n) }
    ensures transported { (H : Context) (A a : Tree) →
        StatesAt transported_statement
        (AContext H ∷ ATree A ∷ ATree a ∷ [])
        (transported trees H A a) }
{}
