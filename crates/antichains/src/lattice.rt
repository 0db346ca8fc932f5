//! What has a meet and a join.

ghost use Rattle.std.specs.Prelude.{◌≡◌, IfOk};

use std::alloc::AllocError;

/// Things that are worth something at each place, as a formula is under each valuation, and that
/// meet and join there as what they are worth does.
pub trait Lattice: Drop {
    /// Where a thing is worth something.
    ghost Place: { Type 0 };

    /// What it is worth there.
    ghost Worth: { Type 0 };

    ghost worth: { Self → Place → Worth };

    /// The meet of what two things are worth.
    ghost both: { Worth → Worth → Worth };

    /// The join of what two things are worth.
    ghost either: { Worth → Worth → Worth };

    /// The meet of the two at each place.
    fn meet(&self, other: &Self) -> Result<Self, AllocError>
        ensures { IfOk result (λ met. (x : Place) →
            worth met x ≡ both (worth self.now x) (worth other.now x)) };

    /// The join of the two at each place.
    fn join(&self, other: &Self) -> Result<Self, AllocError>
        ensures { IfOk result (λ joined. (x : Place) →
            worth joined x ≡ either (worth self.now x) (worth other.now x)) };
}
