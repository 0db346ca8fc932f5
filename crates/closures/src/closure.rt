//! Rows with what waits before them.

use crate::environments::Environment;
use rows::TermId;

/// The tree of a row under the substitutions of an environment.
#[derive(Clone, Copy, Debug, PartialEq, Eq, Hash)]
pub struct Closure {
    pub row: TermId,
    pub environment: Environment,
}

impl Closure {
    ghost use Rattle.std.specs.Prelude.{◌≡◌};

    /// The tree of a row as it is.
    pub fn of_row(row: TermId) -> Closure
        ensures row { result.row ≡ row }
        ensures environment { result.environment ≡ Environment.Empty }
    {
        Closure {
            row,
            environment: Environment::Empty,
        }
    }
}
