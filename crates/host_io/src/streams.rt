//! A source and a sink of bytes.

ghost use Rattle.std.specs.Prelude.{◌≡◌, ◌<◌, ℕ, List, [], length, Option};
ghost use Rattle.std.specs.Io.KnownBytes.{IsAtEnd};
ghost use Rattle.host_io.specs.Counts.{counted_read, counted_write};
ghost use Rattle.host_io.specs.Streams.{ReadGives, WriteTakes};

/// How a read ended.
#[derive(Clone, Copy, Debug, PartialEq, Eq)]
pub enum Got {
    /// So many bytes were read, to the start of the buffer. None into a buffer that is not empty is
    /// the end of the input.
    Bytes(usize),
    /// The read failed, and gave nothing.
    Failed,
}

/// How a write ended.
#[derive(Clone, Copy, Debug, PartialEq, Eq)]
pub enum Took {
    /// So many bytes were taken, from the start of the piece on.
    Bytes(usize),
    /// The write failed, and took nothing.
    Failed,
}

/// Bytes to be read, with a count of the reads that failed.
pub trait Source {
    /// The bytes to come, where they are told.
    ghost left: { Self → Option (List ℕ) };

    /// How many reads failed.
    ghost faults: { Self → ℕ };

    /// Reads bytes into the start of the buffer.
    fn read(&mut self, buf: &mut [u8]) -> Got
        ensures bytes { ReadGives (left self.old) (left self.new) buf.new result }
        ensures end { result ≡ Got.Bytes 0 → 0 < length buf.new → IsAtEnd (left self.new) }
        ensures counted { faults self.new ≡ counted_read result (faults self.old) };
}

/// A place that takes bytes, with a count of the writes that failed.
pub trait Sink {
    /// The bytes that were taken, where they are told.
    ghost taken: { Self → Option (List ℕ) };

    /// How many writes failed.
    ghost faults: { Self → ℕ };

    /// Takes bytes from the start of the piece.
    fn write(&mut self, piece: &[u8]) -> Took
        ensures bytes { WriteTakes (taken self.old) (taken self.new) piece.now result }
        ensures stuck { result ≡ Took.Bytes 0 → piece.now ≡ [] }
        ensures counted { faults self.new ≡ counted_write result (faults self.old) };
}
