//! Files by their paths.

ghost use Rattle.std.specs.Prelude.{◌≡◌, Option};
ghost use Rattle.host_io.specs.Counts.{FileCounts, counted_fetch, counted_store};
ghost use Rattle.host_io.specs.Files.{Held, FetchGives, StoreDoes};

/// How a fetch ended.
#[derive(Clone, Copy, Debug, PartialEq, Eq)]
pub enum Fetched {
    /// The bytes of the path were appended.
    Found,
    /// There is no such path.
    Missing,
    /// The path can't be read for another reason.
    Failed,
    /// The path holds as many bytes as the limit, or more, and none was appended.
    Longer,
    /// It was out of memory for the bytes.
    Memory,
}

/// How a store ended.
#[derive(Clone, Copy, Debug, PartialEq, Eq)]
pub enum Stored {
    /// The path holds the bytes.
    Done,
    /// The bytes could not be written, and nothing changed.
    Failed,
    /// It was out of memory, and nothing changed.
    Memory,
}

/// Files by their paths. Counts say how often something went wrong.
pub trait Files {
    /// The bytes at each path that is held, where that is told.
    ghost held: { Self → Option Held };

    /// How many fetches were answered by `Missing`, and how many fetches and stores failed.
    ghost counts: { Self → FileCounts };

    /// Appends the bytes of the path to `into`, if they are fewer than `limit`. Any answer but
    /// `Found` leaves `into` as it was. No more bytes are read than `limit`.
    fn fetch(&mut self, path: &str, limit: u64, into: &mut Vec<u8>) -> Fetched
        ensures bytes { FetchGives (held self.old) path.now limit
            into.old.items into.new.items result }
        ensures held { held self.new ≡ held self.old }
        ensures counted { counts self.new ≡ counted_fetch result (counts self.old) };

    /// Puts the bytes at the path, in place of what it held: all of them, or none.
    fn store(&mut self, path: &str, bytes: &[u8]) -> Stored
        ensures held { StoreDoes (held self.old) (held self.new) path.now bytes.now result }
        ensures counted { counts self.new ≡ counted_store result (counts self.old) };
}
