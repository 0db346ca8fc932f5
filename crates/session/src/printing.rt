//! Printing of outcomes.

ghost use Rattle.std.specs.Prelude.{◌≡◌, ◌≢◌};
ghost use Rattle.host_io.specs.Seen.{seen_sink};
ghost use Rattle.outcomes.specs.Json.{text_in};
ghost use Rattle.outcomes.specs.Outcomes.{status_of};
ghost use Rattle.session.specs.Printing.{Printed};

use dialogue::write_text;
use host_io::Sink;
use outcomes::{Outcome, Status};
use std::alloc::Global;

/// Prints the outcome, in JSON if that is asked, and gives the status to end with.
pub(crate) fn print<O: Sink>(alloc: Global, outcome: &Outcome, json: bool, out: &mut O) -> Status
    ensures printed { let see = seen_sink O.taken O.faults in
        result ≢ Status.Memory → Printed (text_in json outcome.now) (status_of outcome.now)
        (see out.old) (see out.new) result }
    ensures memory { result ≡ Status.Memory → out.new ≡ out.old }
    ensures spared { result ≡ Status.Memory → outcome.now ≢ Outcome.WriteFault }
{
    match outcome.text_in(alloc, json) {
        Ok(text) => match write_text(out, text.as_bytes()) {
            Ok(()) => outcome.status(),
            Err(_) => Status::Fault,
        },
        Err(_) => Status::Memory,
    }
}
