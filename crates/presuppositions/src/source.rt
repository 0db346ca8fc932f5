//! What stands behind the conclusion of a rule, and from what it is had.

ghost use Rattle.presuppositions.specs.Entries.{Has};
ghost use Rattle.std.specs.Prelude.{[], ◌∷◌};
ghost use Rattle.recipes.specs.declared.row.Row.TheVariants as row;

use recipes::Row;

/// What stands behind a judgement.
#[derive(Clone, Copy, Debug, PartialEq, Eq, Hash)]
pub enum Label {
    /// `ctx G`, behind what is so in G; of `ctx G.A`, `ctx G.I` and `ctx G.p` it is `ctx G`.
    Context,
    /// `G >> A`, behind `G >> a : A`, `G >> a = b : A` and `ctx G.A`.
    Type,
    /// The left side of an equation, typed.
    Left,
    /// The right side of an equation, typed.
    Right,
    /// `ctx H`, behind `d : H to G`.
    From,
    /// `ctx G`, behind `d : H to G`.
    To,
    /// `G >> A`, behind `G >> pi A B` and `G >> sig A B`.
    Domain,
    /// `G.A >> B`, behind `G >> pi A B` and `G >> sig A B`.
    Codomain,
    /// `G.I >> A`, behind `G >> pathp A u v`.
    Line,
    /// `G >> u : A{0}`, behind `G >> pathp A u v`.
    LeftEnd,
    /// `G >> v : A{1}`, behind `G >> pathp A u v`.
    RightEnd,
}

/// A judgement from which an entry has its conclusion. Premises of the rule are counted from 0.
#[derive(Clone, Copy, Debug, PartialEq, Eq)]
pub enum Source {
    /// A premise of the rule.
    Premise(u16),
    /// What stands behind a premise.
    Behind(u16, Label),
    /// What stands behind that which stands behind a premise.
    Further(u16, Label, Label),
}

/// How what stands behind the conclusion of a rule is had: the rows of a recipe over the parts of
/// the rule and under its side conditions, whose premises are the sources.
#[derive(Clone, Copy, Debug)]
pub struct Entry {
    pub sources: &'static [Source],
    pub rows: &'static [Row],
    /// The number of what the last row makes.
    pub last: u16,
}

/// The rows of a recipe that has nothing to do.
static AT_HAND: &[Row] = &[Row::Premise(0)];

/// The entry that is its one source.
pub fn at_hand(sources: &'static [Source]) -> Option<Entry>
    ensures { Has sources.now (row.Premise 0 ∷ []) 0 result }
{
    derived(sources, AT_HAND, 0)
}

/// The entry of these sources and rows.
pub fn derived(sources: &'static [Source], rows: &'static [Row], last: u16) -> Option<Entry>
    ensures { Has sources.now rows.now last result }
{
    Some(Entry {
        sources,
        rows,
        last,
    })
}
