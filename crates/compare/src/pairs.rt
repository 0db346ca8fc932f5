//! The pairs of closures that a comparison has to look at.

ghost use Rattle.std.specs.Prelude.{OnOk};
ghost use Rattle.compare.specs.Pairs.{Adds};

use closures::Closure;
use indexmap::IndexSet;
use std::alloc::AllocError;

/// Two closures whose trees are compared.
#[derive(Clone, Copy, Debug, PartialEq, Eq, Hash)]
pub struct Pair {
    pub left: Closure,
    pub right: Closure,
}

/// Adds a pair, unless it is there or its closures are one.
pub fn add_pair(pairs: &mut IndexSet<Pair>, pair: Pair) -> Result<(), AllocError>
    ensures { OnOk result (Adds pair pairs.old.keys pairs.new.keys) }
{
    if pair.left == pair.right {
        return Ok(());
    }
    match pairs.insert_full(pair) {
        Ok(_) => Ok(()),
        Err(_) => Err(AllocError),
    }
}
