//! Operators over the rows of their kids.

ghost use Rattle.std.specs.Prelude.{◌≡◌, ◌<◌, ◌-◌, IfOk};
ghost use Rattle.trees.specs.Operators.{kids_of};
ghost use Rattle.rows.specs.Tables.{Grows};
ghost use Rattle.closures.specs.Environments.{deepest};
ghost use Rattle.closures.specs.Shown.{lists};
ghost use Rattle.closures.specs.Closures.{IsClosure};
ghost use Rattle.tree_frames.specs.Frames.{FrameStands, IsKidAt, OpensTo};

use closures::{Closure, Environment, Environments, Head, head_of, kid};
use rows::Reader;
use std::alloc::AllocError;
use trees::Op;

/// An operator over the rows of its kids, of which those before a place are done, below so many
/// variables and names.
#[derive(Clone, Copy, Debug)]
pub struct Frame<'a> {
    pub op: Op,
    pub at: u8,
    pub kids: &'a [u64],
    pub environment: Environment,
    pub level: u64,
}

/// What stands outermost in a tree.
#[derive(Clone, Copy, Debug)]
pub enum Opened<'a> {
    /// The variable of this index.
    Variable(u128),
    Operator(Frame<'a>),
}

/// Opens the tree of a closure, below so many variables and names.
pub fn open_tree<'a, R: Reader>(
    rows: &'a R,
    environments: &mut Environments,
    closure: Closure,
    level: u64,
) -> Result<Opened<'a>, AllocError>
    requires { IsClosure (R.means rows.now) (lists environments.old) (deepest - 1) closure }
    ensures grows { Grows (lists environments.old) (lists environments.new) }
    ensures opens { IfOk result (OpensTo (R.means rows.now) (lists environments.old)
        (lists environments.new) closure level) }
{
    match head_of(rows, environments, closure)? {
        Head::Var(index) => Ok(Opened::Variable(index)),
        Head::Make(op, kids, environment) => Ok(Opened::Operator(Frame {
            op,
            at: 0,
            kids,
            environment,
            level,
        })),
    }
}

/// The closure of a kid of a frame.
pub fn kid_of<R: Reader>(
    rows: &R,
    environments: &Environments,
    frame: &Frame<'_>,
    at: u8,
) -> Closure
    requires stands { FrameStands (R.means rows.now) (lists environments.now) (deepest - 1)
        frame.now }
    requires place { at < kids_of frame.now.op }
    ensures { IsKidAt (R.means rows.now) (lists environments.now) frame.now at result }
{
    let row = frame.kids[at as usize];
    kid(environments, frame.op, at, row, frame.environment)
}
