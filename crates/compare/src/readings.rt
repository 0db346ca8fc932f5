//! Rows that read alike, and so mean the same whatever stands behind them.

ghost use Rattle.std.specs.Prelude.{◌≡◌, IsTrue};
ghost use Rattle.rows.specs.Views.{IsTree, IsSubst};

use rows::{Reader, SubId, TermId, TermRow};

/// Whether two rows of substitutions are one, or read alike.
fn substs_read_alike<R: Reader>(rows: &R, left: SubId, right: SubId) -> bool
    requires left { IsSubst (R.means rows.now left.0) }
    requires right { IsSubst (R.means rows.now right.0) }
    ensures { IsTrue result → R.means rows.now left.0 ≡ R.means rows.now right.0 }
{
    left == right || rows.subst(left) == rows.subst(right)
}

/// Whether two rows of trees are one, or read alike: as instances of one row by substitutions that
/// read alike, or as one operator over the same rows.
pub fn read_alike<R: Reader>(rows: &R, left: TermId, right: TermId) -> bool
    requires left { IsTree (R.means rows.now left.0) }
    requires right { IsTree (R.means rows.now right.0) }
    ensures { IsTrue result → R.means rows.now left.0 ≡ R.means rows.now right.0 }
{
    if left == right {
        return true;
    }
    match (rows.term(left), rows.term(right)) {
        (TermRow::Instance(t, d), TermRow::Instance(u, e)) => {
            t == u && substs_read_alike(rows, d, e)
        }
        (row, other) => row.reads_as(other),
    }
}
