//! A dialogue by lines.

ghost use Rattle.std.specs.Prelude.{◌≡◌, ◌++◌, ℕ, List, [], ◌∷◌, IfOk, string_bytes};
ghost use Rattle.host_io.specs.Seen.{seen_sink, seen_source};
ghost use Rattle.dialogue.specs.Dialogues.{AreAmong, IsOneLine, Talked, without_return};
ghost use Rattle.dialogue.specs.Steps.{LastAnswered, LineAnswered, Stepped};

use crate::writing::write_text;
use host_io::{Got, Sink, Source};
use std::alloc::{AllocError, Global};
use std::ops::ControlFlow;

/// The most bytes that a dialogue has.
const LIMIT: usize = 1 << 24;

/// The most bytes that one read gives.
const PIECE: usize = 1 << 12;

/// How a dialogue ended.
#[derive(Clone, Copy, Debug, PartialEq, Eq)]
pub enum Ending {
    /// At the line `:q`, or at the end of the input.
    Closed,
    /// The input has more than 16,777,216 bytes.
    TooLong,
    /// A read failed.
    ReadFault,
    /// A write failed.
    WriteFault,
    /// Out of memory.
    Memory,
}

/// What answers lines.
pub trait Answering {
    /// Which answers lines have that are not empty.
    ghost answers: { Self → List ℕ → List ℕ → Type 0 };

    /// The text that answers a line which is not empty. The only error is out of memory.
    fn answer(&mut self, alloc: Global, line: &[u8]) -> Result<String, AllocError>
        ensures text { IfOk result (λ text. answers self.old line.now (string_bytes text)) }
        ensures same { AreAmong (answers self.old) (answers self.new) };
}

/// The line without the carriage return at its end, if it has one.
fn without_return(line: &[u8]) -> &[u8]
    ensures { result.now ≡ without_return line.now }
{
    line.strip_suffix(b"\r".as_slice()).unwrap_or(line)
}

/// Writes the answer to a line, if it is not empty. The line `:q` ends the dialogue.
fn answer_line<A: Answering, O: Sink>(
    alloc: Global,
    answering: &mut A,
    line: &[u8],
    out: &mut O,
) -> ControlFlow<Ending>
    ensures answered { let see = seen_sink O.taken O.faults in
        LineAnswered (A.answers answering.old) line.now (see out.old) (see out.new) result }
    ensures same { AreAmong (A.answers answering.old) (A.answers answering.new) }
{
    if line == b":q".as_slice() {
        return ControlFlow::Break(Ending::Closed);
    }
    if line.is_empty() {
        return ControlFlow::Continue(());
    }
    let Ok(text) = answering.answer(alloc, line) else {
        return ControlFlow::Break(Ending::Memory);
    };
    match write_text(out, text.as_bytes()) {
        Ok(()) => ControlFlow::Continue(()),
        Err(_) => ControlFlow::Break(Ending::WriteFault),
    }
}

/// Answers what stands at the end of the input.
fn answer_last<A: Answering, O: Sink>(
    alloc: Global,
    answering: &mut A,
    line: &[u8],
    out: &mut O,
) -> Ending
    ensures answered { let see = seen_sink O.taken O.faults in
        LastAnswered (A.answers answering.old) line.now (see out.old) (see out.new) result }
    ensures same { AreAmong (A.answers answering.old) (A.answers answering.new) }
{
    match answer_line(alloc, answering, line, out) {
        ControlFlow::Continue(()) => Ending::Closed,
        ControlFlow::Break(ending) => ending,
    }
}

/// Takes one more byte. A newline ends the line that is pending, which is answered.
fn take_byte<A: Answering, O: Sink>(
    alloc: Global,
    answering: &mut A,
    pending: &mut Vec<u8>,
    byte: u8,
    out: &mut O,
) -> ControlFlow<Ending>
    requires { IsOneLine pending.old.items }
    ensures stepped { let see = seen_sink O.taken O.faults in
        Stepped (A.answers answering.old) (see out.old) (see out.new)
        (pending.old.items ++ byte ∷ []) pending.new.items result }
    ensures same { AreAmong (A.answers answering.old) (A.answers answering.new) }
{
    if byte == b'\n' {
        let flow = answer_line(alloc, answering, without_return(pending), out);
        pending.clear();
        return flow;
    }
    match pending.push(byte) {
        Ok(()) => ControlFlow::Continue(()),
        Err(_) => ControlFlow::Break(Ending::Memory),
    }
}

/// Takes these bytes, up to where the dialogue ends.
fn take_piece<A: Answering, O: Sink>(
    alloc: Global,
    answering: &mut A,
    pending: &mut Vec<u8>,
    piece: &[u8],
    out: &mut O,
) -> ControlFlow<Ending>
    requires { IsOneLine pending.old.items }
    ensures stepped { let see = seen_sink O.taken O.faults in
        Stepped (A.answers answering.old) (see out.old) (see out.new)
        (pending.old.items ++ piece.now) pending.new.items result }
    ensures same { AreAmong (A.answers answering.old) (A.answers answering.new) }
{
    for byte in piece {
        take_byte(alloc, answering, pending, *byte, out)?;
    }
    ControlFlow::Continue(())
}

/// Answers the lines of the input, each before more is read. The line `:q` or the end of the input
/// ends the dialogue. A carriage return before a newline is no part of the line, and an empty line
/// has no answer. At most 16,777,216 bytes are taken.
pub fn talk<A: Answering, I: Source, O: Sink>(
    alloc: Global,
    answering: &mut A,
    input: &mut I,
    out: &mut O,
) -> Ending
    ensures talked { let see = seen_source I.left I.faults in
        let seen = seen_sink O.taken O.faults in
        Talked (A.answers answering.old) (see input.old) (see input.new)
        (seen out.old) (seen out.new) result }
    ensures same { AreAmong (A.answers answering.old) (A.answers answering.new) }
{
    let mut pending = Vec::new(alloc);
    let mut room = LIMIT;
    let mut buffer = [0; PIECE];
    loop {
        let count = match input.read(&mut buffer) {
            Got::Bytes(0) => return answer_last(alloc, answering, &pending, out),
            Got::Bytes(count) => count,
            Got::Failed => return Ending::ReadFault,
        };
        let piece = &buffer[..count.min(room)];
        match take_piece(alloc, answering, &mut pending, piece, out) {
            ControlFlow::Continue(()) => {}
            ControlFlow::Break(ending) => return ending,
        }
        if count > room {
            return Ending::TooLong;
        }
        room -= count;
    }
}
