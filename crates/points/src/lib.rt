//! What formulas of the interval are worth: values, valuations and points of a cube. The
//! definitions stand in `specs/`.
//!
//! Nothing here runs: the functions have the laws of the definitions as their contracts, so that a
//! check proves each.
//!
//! ```text
//! meet free_value zero_value                   // zero_value
//! join free_value (negation free_value)        // free_value: a name and its negation are not 1
//! value_at (with_value 2 one_value []) 0       // free_value: nothing is told of the name 0
//! ```
#![tactic(auto)]

ghost use Rattle.std.specs.Prelude.{◌≡◌, ◌≢◌, ℕ, Bool, true, not};
ghost use Rattle.points.specs.Values.{Value, zero_value, one_value, free_value, negation, meet};
ghost use Rattle.points.specs.Values.{join, end_value, Valuation, value_at, with_value};
ghost use Rattle.points.specs.Points.{Point, Free, coordinate_at, with_free, end_coordinate};
ghost use Rattle.points.specs.Points.{with_end, coordinate_value, valuation_of, LiesOver};

/// Values are a De Morgan algebra with the ends as its bounds; negation swaps the ends and keeps
/// the value of a free name.
pub fn laws_of_values()
    ensures negation_negation { (v : Value) → negation (negation v) ≡ v }
    ensures negation_meet { (v w : Value) → negation (meet v w) ≡ join (negation v) (negation w) }
    ensures negation_join { (v w : Value) → negation (join v w) ≡ meet (negation v) (negation w) }
    ensures negation_end { (end : Bool) → negation (end_value end) ≡ end_value (not end) }
    ensures negation_free { negation free_value ≡ free_value }
    ensures end_true { end_value true ≡ one_value }
    ensures meet_one { (v : Value) → meet v one_value ≡ v }
    ensures meet_zero { (v : Value) → meet v zero_value ≡ zero_value }
    ensures join_zero { (v : Value) → join v zero_value ≡ v }
    ensures join_one { (v : Value) → join v one_value ≡ one_value }
    ensures meet_commutes { (v w : Value) → meet v w ≡ meet w v }
    ensures meet_assoc { (u v w : Value) → meet (meet u v) w ≡ meet u (meet v w) }
    ensures meet_join { (u v w : Value) → meet u (join v w) ≡ join (meet u v) (meet u w) }
    ensures meet_absorbs { (v w : Value) → meet v (join v w) ≡ v }
    ensures ends_differ { zero_value ≢ one_value }
    ensures free_is_no_end { (end : Bool) → free_value ≢ end_value end }
{}

/// A valuation with another value for one name: that is its value there, and all other names keep
/// theirs.
pub fn laws_of_valuations()
    ensures at_the_name { (name : ℕ) (v : Value) (valuation : Valuation) →
        value_at (with_value name v valuation) name ≡ v }
    ensures at_another { (name : ℕ) (v : Value) (valuation : Valuation) (other : ℕ) →
        other ≢ name → value_at (with_value name v valuation) other ≡ value_at valuation other }
{}

/// A point with a name made free or put at an end, the valuation that a point is, and the
/// valuations over it.
pub fn laws_of_points()
    ensures free_at_the_name { (name : ℕ) (x : Point) →
        coordinate_at (with_free name x) name ≡ Free }
    ensures as_before_at_another { (name : ℕ) (x : Point) (other : ℕ) →
        other ≢ name → coordinate_at (with_free name x) other ≡ coordinate_at x other }
    ensures at_its_end { (name : ℕ) (end : Bool) (x : Point) →
        coordinate_at (with_end name end x) name ≡ end_coordinate end }
    ensures ends_elsewhere { (name : ℕ) (end : Bool) (x : Point) (other : ℕ) →
        other ≢ name → coordinate_at (with_end name end x) other ≡ coordinate_at x other }
    ensures own_end { (end : Bool) → coordinate_value (end_coordinate end) ≡ end_value end }
    ensures own_value { (x : Point) (name : ℕ) →
        value_at (valuation_of x) name ≡ coordinate_value (coordinate_at x name) }
    ensures lies_over_itself { (x : Point) → LiesOver x (valuation_of x) }

    // At its ends a point fixes the values over it; at a free name it leaves them open.
    ensures fixed_at_ends { (x : Point) (v w : Valuation) (name : ℕ) →
        LiesOver x v → LiesOver x w → coordinate_at x name ≢ Free
        → value_at v name ≡ value_at w name }
    ensures open_at_free { (x : Point) (v : Valuation) (name : ℕ) (w : Value) →
        LiesOver x v → LiesOver (with_free name x) (with_value name w v) }
{}
