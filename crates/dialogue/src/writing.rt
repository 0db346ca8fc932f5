//! Writing a text to a sink.

ghost use Rattle.std.specs.Prelude.{◌≢◌, []};
ghost use Rattle.host_io.specs.Seen.{seen_sink};
ghost use Rattle.dialogue.specs.Writes.{Wrote, WroteSome};

use host_io::{Sink, Took};

/// A write that failed.
#[derive(Drop)]
pub struct WriteFault;

/// Writes some of the text, and gives what is left of it.
fn write_some<'a, O: Sink>(out: &mut O, text: &'a [u8]) -> Result<&'a [u8], WriteFault>
    requires { text.now ≢ [] }
    ensures { let see = seen_sink O.taken O.faults in
        WroteSome text.now (see out.old) (see out.new) result }
{
    match out.write(text) {
        Took::Bytes(count) => Ok(text.split_at(count).1),
        Took::Failed => Err(WriteFault),
    }
}

/// Writes the text, in as many pieces as the sink takes, up to the first write that fails.
pub fn write_text<O: Sink>(out: &mut O, text: &[u8]) -> Result<(), WriteFault>
    ensures { let see = seen_sink O.taken O.faults in
        Wrote text.now (see out.old) (see out.new) result }
{
    let mut rest = text;
    while !rest.is_empty() {
        rest = write_some(out, rest)?;
    }
    Ok(())
}
