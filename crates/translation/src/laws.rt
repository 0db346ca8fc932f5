//! What the definition gives for some texts.

ghost use Rattle.translation.specs.Examples.{
  Arrows,
  Composition,
  Filling,
  Local,
  Motive,
  NoPair,
  Outer,
};

/// The trees of some texts: the variables of a tele, arrows, an opened motive, the sides of a
/// composition, filling, a side that is no pair, and a definition within a tele.
pub fn laws_of_texts()
    ensures outer { Outer }
    ensures arrows { Arrows }
    ensures motive { Motive }
    ensures composition { Composition }
    ensures filling { Filling }
    ensures no_pair { NoPair }
    ensures local { Local }
{}
