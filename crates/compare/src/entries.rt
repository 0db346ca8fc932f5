//! The last entries of two contexts.

ghost use Rattle.rows.specs.Views.{IsContext};
ghost use Rattle.compare.specs.Entries.{EntriesAre};

use rows::{CtxId, CtxRow, Reader, TermId};

/// What the last entries of two contexts leave to compare.
#[derive(Clone, Copy, Debug)]
pub enum LastEntries {
    /// Neither context has an entry.
    Empty,
    /// Variables or faces on both sides: the contexts before them, and their trees.
    Trees(CtxId, CtxId, TermId, TermId),
    /// Names on both sides: the contexts before them.
    Names(CtxId, CtxId),
    /// The entries are of two forms.
    Other,
}

/// Looks at the last entries of two contexts.
pub fn last_entries<R: Reader>(rows: &R, left: CtxId, right: CtxId) -> LastEntries
    requires left { IsContext (R.means rows.now left.0) }
    requires right { IsContext (R.means rows.now right.0) }
    ensures { EntriesAre (R.means rows.now) left.0 right.0 result }
{
    match (rows.context(left), rows.context(right)) {
        (CtxRow::Nil, CtxRow::Nil) => LastEntries::Empty,
        (CtxRow::Var(g, a), CtxRow::Var(h, b)) => LastEntries::Trees(g, h, a, b),
        (CtxRow::Face(g, p), CtxRow::Face(h, q)) => LastEntries::Trees(g, h, p, q),
        (CtxRow::Name(g), CtxRow::Name(h)) => LastEntries::Names(g, h),
        _ => LastEntries::Other,
    }
}
