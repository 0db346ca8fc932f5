//! Standard input and output.

ghost use Rattle.std.specs.Prelude.{◌≡◌, ◌<◌, [], length};
ghost use Rattle.std.specs.Io.{ReadsAtMost, WritesAtMost};
ghost use Rattle.std.specs.Io.KnownBytes.{IsAtEnd, ReadConsumes, WriteAppends};
ghost use Rattle.host_io.specs.Counts.{counted_read, counted_write};
ghost use Rattle.host_io.specs.Streams.{ReadGives, WriteTakes};

use crate::faults::{Fault, fault_of};
use crate::{Got, Sink, Source, Took};
use std::io;
use std::io::{ErrorKind, Read, Write};
use std::marker::Model;

/// A source over a reader, as standard input is one. It tells what the reader tells of the bytes to
/// come: of standard input nothing.
#[derive(Drop)]
pub struct StdIn<R: Read + Drop> {
    reader: R,
    faults: u64,
}

impl<R: Read + Drop> Model for StdIn<R> {
    ghost use Rattle.host_io.specs.Seen.{SeenSource};

    ghost Value = { SeenSource };

    ghost view = { λ s. record { left = R.remaining s.reader; faults = s.faults } };
}

impl<R: Read + Drop> StdIn<R> {
    /// A source of what the reader gives.
    pub fn new(reader: R) -> Self
        ensures { result ≡ record { left = R.remaining reader; faults = 0 } }
    {
        StdIn { reader, faults: 0 }
    }
}

/// One read, made again where a signal interrupts it.
fn read_retrying<R: Read>(reader: &mut R, buf: &mut [u8]) -> io::Result<usize>
    ensures bound { ReadsAtMost result buf.new }
    ensures bytes { ReadConsumes (R.remaining reader.old) (R.remaining reader.new) result buf.new }
{
    for _ in 0..u64::MAX {
        match reader.read(buf) {
            Err(error) if fault_of(&error) == Fault::Interrupted => {}
            outcome => return outcome,
        }
    }
    Err(io::Error::from(ErrorKind::Interrupted))
}

impl<R: Read + Drop> Source for StdIn<R> {
    ghost left = { λ s. s.left };

    ghost faults = { λ s. s.faults };

    fn read(&mut self, buf: &mut [u8]) -> Got
        ensures bytes { ReadGives self.old.left self.new.left buf.new result }
        ensures end { result ≡ Got.Bytes 0 → 0 < length buf.new → IsAtEnd self.new.left }
        ensures counted { self.new.faults ≡ counted_read result self.old.faults }
    {
        match read_retrying(&mut self.reader, buf) {
            Ok(count) => Got::Bytes(count),
            Err(_) => {
                self.faults = self.faults.saturating_add(1);
                Got::Failed
            }
        }
    }
}

/// A sink over a writer, as standard output is one. It tells what the writer tells of the bytes
/// that it took: of standard output nothing.
#[derive(Drop)]
pub struct StdOut<W: Write + Drop> {
    writer: W,
    faults: u64,
}

impl<W: Write + Drop> Model for StdOut<W> {
    ghost use Rattle.host_io.specs.Seen.{SeenSink};

    ghost Value = { SeenSink };

    ghost view = { λ s. record { taken = W.contents s.writer; faults = s.faults } };
}

impl<W: Write + Drop> StdOut<W> {
    /// A sink that hands what it takes to the writer.
    pub fn new(writer: W) -> Self
        ensures { result ≡ record { taken = W.contents writer; faults = 0 } }
    {
        StdOut { writer, faults: 0 }
    }
}

/// One write, made again where a signal interrupts it.
fn write_retrying<W: Write>(writer: &mut W, piece: &[u8]) -> io::Result<usize>
    ensures bound { WritesAtMost result piece.now }
    ensures bytes { WriteAppends (W.contents writer.old) (W.contents writer.new) result piece.now }
{
    for _ in 0..u64::MAX {
        match writer.write(piece) {
            Err(error) if fault_of(&error) == Fault::Interrupted => {}
            outcome => return outcome,
        }
    }
    Err(io::Error::from(ErrorKind::Interrupted))
}

impl<W: Write + Drop> Sink for StdOut<W> {
    ghost taken = { λ s. s.taken };

    ghost faults = { λ s. s.faults };

    // A writer that takes nothing of a piece that is not empty would never take it.
    fn write(&mut self, piece: &[u8]) -> Took
        ensures bytes { WriteTakes self.old.taken self.new.taken piece.now result }
        ensures stuck { result ≡ Took.Bytes 0 → piece.now ≡ [] }
        ensures counted { self.new.faults ≡ counted_write result self.old.faults }
    {
        match write_retrying(&mut self.writer, piece) {
            Ok(count) if count > 0 || piece.is_empty() => Took::Bytes(count),
            _ => {
                self.faults = self.faults.saturating_add(1);
                Took::Failed
            }
        }
    }
}
