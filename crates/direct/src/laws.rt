//! What the definitions say of some codes, and that trees are compared exactly.

ghost use Rattle.std.specs.Prelude.{◌≡◌, ◌↔◌, IsTrue};
ghost use Rattle.trees.specs.Trees.{Tree};
ghost use Rattle.direct.specs.Literal.{same_tree};
ghost use Rattle.direct.specs.Examples.{
  Applications,
  Functions,
  Pairs,
  Paths,
  Recursions,
  Transports,
  Universes,
};

/// Two trees are found the same exactly where they are one; and some codes of each form that are
/// direct, and some that are not.
pub fn laws_of_direct_codes()
    ensures same { (t u : Tree) → IsTrue (same_tree t u) ↔ (t ≡ u) }
    ensures functions { Functions }
    ensures applications { Applications }
    ensures pairs { Pairs }
    ensures paths { Paths }
    ensures universes { Universes }
    ensures transports { Transports }
    ensures recursions { Recursions }
{}
