//! Laws of side conditions.

ghost use Rattle.std.specs.Prelude.{◌≡◌, IsTrue};
ghost use Rattle.trees.specs.Trees.{Tree, Var};
ghost use Rattle.trees.specs.Judgements.{Context};
ghost use Rattle.points.specs.Points.{Point};
ghost use Rattle.conditions.specs.Formulas.{i1, neg, max, eq0, eq1, join, all, one_name};
ghost use Rattle.conditions.specs.Sides.{is_face, is_true, Satisfies, HoldsIn, SameIn};

/// Side conditions say what they ought to. A name i and its negation are two things of which
/// neither tells of the other: so `max i (neg i)` is not `i1`, and `join (i=0) (i=1)` does not hold
/// where there are no faces. Under `all i` only the name i is free. What holds where the faces of a
/// context are true somewhere is a face.
pub fn laws_of_sides()
    ensures no_middle { SameIn one_name (max (Var 0) (neg (Var 0))) i1 → ⊥ }
    ensures no_ends { HoldsIn one_name (join (eq0 (Var 0)) (eq1 (Var 0))) → ⊥ }
    ensures all_names { (x : Point) →
        is_true x (all (join (eq0 (Var 0)) (eq1 (Var 1)))) ≡ is_true x (eq1 (Var 0)) }
    ensures faces_hold { (G : Context) (x : Point) (p : Tree) →
        Satisfies G x → HoldsIn G p → IsTrue (is_face G p) }
{}
