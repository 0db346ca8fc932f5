//! What is told of definitions that are not all typed.

ghost use Rattle.std.specs.Prelude.{◌≡◌, ◌<◌, [], ℕ, IfOk, Some, length, string_bytes};
ghost use Rattle.resolver.specs.Resolved.{defs_in};
ghost use Rattle.direct.specs.Direct.{other_place};
ghost use Rattle.linking.specs.Linked.{IsLinked};
ghost use Rattle.session.specs.Checks.{OtherJob, evidence_path};
ghost use Rattle.session.specs.Loaded.{texts_of};
ghost use Rattle.session.specs.Found.{AreNotDirect};
ghost use Rattle.session.specs.Others.{IsOther};
ghost use Rattle.session.specs.Refutals.{IsRefutal};

use crate::found::Reason;
use crate::job::Job;
use crate::places::{refusal_at, refused_at, spent_in};
use crate::program::Program;
use crate::refutals::{Refutal, refutal_of};
use book::Book;
use evidence::Evidence;
use examining::Place;
use outcomes::{Cause, Outcome};
use std::alloc::{AllocError, Global};

/// What comes of definitions that are not all typed.
#[derive(Drop)]
pub(crate) enum Other {
    /// One is refused at this place.
    Refuted(Place, Refutal),
    /// The budget of a question for what stands at this place was spent.
    Spent(Place),
    /// A step was not taken. The place of the first that is not direct.
    NotTaken(usize),
}

/// What comes of so many definitions, of which this is the first that is not direct: the evidence
/// is tested.
pub(crate) fn other_of(
    alloc: Global,
    book: &mut Book,
    count: usize,
    first: usize,
    reason: Reason,
) -> Result<Other, AllocError>
    ensures { IfOk result (IsOther count first) }
{
    match reason {
        Reason::Refused(place, fault) => {
            if place.definition >= count {
                return Ok(Other::NotTaken(first));
            }
            match refutal_of(alloc, book, &fault)? {
                Some(refutal) => Ok(Other::Refuted(place, refutal)),
                None => Ok(Other::NotTaken(first)),
            }
        }
        Reason::Spent(place) => {
            if place.definition >= count {
                return Ok(Other::NotTaken(first));
            }
            Ok(Other::Spent(place))
        }
        Reason::NotTaken => Ok(Other::NotTaken(first)),
    }
}

/// The path of the evidence that a module is refused.
pub(crate) fn evidence_path(alloc: Global, name: &str) -> Result<String, AllocError>
    ensures { IfOk result (λ path. string_bytes path ≡ evidence_path name.now) }
{
    let mut path = String::from_str(alloc, name)?;
    path.push_str(".no.drv")?;
    Ok(path)
}

/// To tell of a definition that is refused, with the evidence stored.
fn refuted_job(
    alloc: Global,
    program: &Program,
    name: &str,
    place: Place,
    refutal: Refutal,
) -> Result<Job, AllocError>
    requires linked { IsLinked (texts_of program.now) program.now.codes }
    requires other { AreNotDirect (defs_in program.now.codes) }
    requires within { place.definition < length (defs_in program.now.codes) }
    requires refutal { IsRefutal refutal }
    ensures { (turns : ℕ) → IfOk result
        (OtherJob name.now turns (texts_of program.now) (defs_in program.now.codes)) }
{
    match refutal {
        Refutal::CannotInfer => {
            let refusal = refusal_at(alloc, program, place, Cause::CannotInfer)?;
            Ok(Job::Tell(Outcome::Refused(refusal)))
        }
        Refutal::Shown(cause, Evidence { shown, bytes }) => {
            let refusal = refusal_at(alloc, program, place, cause)?;
            let path = evidence_path(alloc, name)?;
            let told = Outcome::Refuted(refusal, shown);
            Ok(Job::Store { path, bytes, told })
        }
    }
}

/// What it comes to where definitions are not all typed.
pub(crate) fn other_job(
    alloc: Global,
    program: &Program,
    name: &str,
    turns: u64,
    other: Other,
) -> Result<Job, AllocError>
    requires linked { IsLinked (texts_of program.now) program.now.codes }
    requires other { (first : ℕ) × (other_place (defs_in program.now.codes) [] ≡ Some first)
        × IsOther (length (defs_in program.now.codes)) first other }
    ensures { IfOk result
        (OtherJob name.now turns (texts_of program.now) (defs_in program.now.codes)) }
{
    match other {
        Other::Refuted(place, refutal) => Ok(refuted_job(alloc, program, name, place, refutal)?),
        Other::Spent(place) => Ok(Job::Tell(spent_in(alloc, program, place, turns)?)),
        Other::NotTaken(first) => Ok(Job::Tell(refused_at(alloc, program, first)?)),
    }
}
