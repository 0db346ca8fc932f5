//! Stations, as rows.

/// What two trees are.
#[derive(Clone, Copy, Debug, PartialEq, Eq)]
pub(crate) enum Sort {
    Term,
    Formula,
    Face,
    /// Elements of a glued type, of which the normal forms unglued come next.
    Glued,
    /// Terms of which the normal forms come next.
    Rough,
}

/// Two trees of a context, by their rows.
#[derive(Clone, Copy, Debug)]
pub(crate) struct StationRows {
    pub(crate) ctx: u64,
    pub(crate) left: u64,
    pub(crate) right: u64,
    pub(crate) sort: Sort,
}
