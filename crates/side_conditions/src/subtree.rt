//! Trees below the binders of a face.

ghost use Rattle.std.specs.Prelude.{◌≡◌};
ghost use Rattle.side_conditions.specs.Whole.{whole_row as row_of};

use closures::{Closure, Environment};
use rows::TermId;

/// The tree of a closure, below so many `all`, each of which binds a name.
#[derive(Clone, Copy, Debug, PartialEq, Eq, Hash)]
pub struct Subtree {
    pub closure: Closure,
    pub depth: u64,
}

impl Subtree {
    /// The whole tree of a closure.
    pub fn outermost(closure: Closure) -> Subtree
        ensures closure { result.closure ≡ closure }
        ensures depth { result.depth ≡ 0 }
    {
        Subtree { closure, depth: 0 }
    }

    /// The row whose tree this is as it stands, if it is that of one.
    pub fn whole_row(&self) -> Option<TermId>
        ensures { result ≡ row_of self.now }
    {
        match (self.closure.environment, self.depth) {
            (Environment::Empty, 0) => Some(self.closure.row),
            _ => None,
        }
    }
}
