//! How deep trees nest. However deep a text nests, the tree that is read of it nests no deeper than
//! a bound, and what walks or drops a tree goes no further down.
//!
//! ```text
//! what_is_read_is_shallow();
//! // of a name in 1000 brackets the tree has 512, each in the one before, and the last is empty
//! ```
#![tactic(auto)]

ghost use Rattle.std.specs.Prelude.{List, ◌*◌, ◌+◌, ◌≤◌};
ghost use Rattle.syntax.specs.Tree.{Tree};
ghost use Rattle.productions.specs.Words.{Piece};
ghost use Rattle.productions.specs.Grammar.{IsModule, IsWholeExp, limit};
ghost use Rattle.productions.specs.declared.past.Past.{Past};
ghost use Rattle.depths.specs.Depth.{depth};

/// A law, and no code: what is read nests at most five times as deep as a text may, and a little
/// more, also where the text is too deep. At one depth of a text five parts of its tree may stand,
/// each in the one before: an arrow, an application, a form as `PathP`, a projection and brackets.
pub fn what_is_read_is_shallow()
    ensures modules { (ts : List Piece) (m : Tree) (q : Past) → IsModule ts m q
        → depth m ≤ 5 * limit + 4 }
    ensures expressions { (ts : List Piece) (e : Tree) (q : Past) → IsWholeExp ts e q
        → depth e ≤ 5 * limit + 2 }
{}
