//! Refusals of definitions, with their evidence.

ghost use Rattle.std.specs.Prelude.{◌≡◌, IfOk, Some};
ghost use Rattle.evidence.specs.declared.lines.Evidence.{Evidence};
ghost use Rattle.evidence.specs.Told.{IsTypeShown, IsUnaligned};
ghost use Rattle.session.specs.Refutals.{IsEvidence, IsRefutal};
ghost use Rattle.session.specs.declared.refutals.Refutal.{Refutal};

use book::Book;
use evidence::{Equated, Evidence, differing, of_type, of_universe, unaligned};
use examining::{CheckFault, Kind};
use outcomes::Cause;
use rows::TermId;
use std::alloc::{AllocError, Global};
use theory::Op;
use values::Unaligned;

/// Why a definition is refused.
#[derive(Drop)]
pub(crate) enum Refutal {
    /// A form stands where a type is to be inferred, and has none of its own.
    CannotInfer,
    /// The cause, with its evidence.
    Shown(Cause, Evidence),
}

/// The cause that a type is not of a kind, and the operator that it does not begin with.
fn wanted_of(kind: Kind) -> (Cause, Option<Op>)
    ensures { (e : Evidence) → IsTypeShown result.1 e → IsEvidence result.0 e }
{
    match kind {
        Kind::Function => (Cause::WantedFunction, Some(Op::Pi)),
        Kind::Pair => (Cause::WantedPair, Some(Op::Sig)),
        Kind::Path => (Cause::WantedPath, Some(Op::PathP)),
        Kind::Glue => (Cause::WantedGlue, None),
        Kind::Type => (Cause::WantedType, Some(Op::U)),
    }
}

/// A cause with its evidence, if it is that.
fn shown(cause: Cause, evidence: Option<Evidence>) -> Option<Refutal>
    requires { (e : Evidence) → evidence ≡ Some e → IsEvidence cause e }
    ensures { (r : Refutal) → result ≡ Some r → IsRefutal r }
{
    match evidence {
        Some(evidence) => Some(Refutal::Shown(cause, evidence)),
        None => None,
    }
}

/// The evidence that two types could not be aligned. None where it is not that.
pub(crate) fn evidence_of(
    alloc: Global,
    book: &mut Book,
    types: &Unaligned,
) -> Result<Option<Evidence>, AllocError>
    ensures { IfOk result (λ found. (e : Evidence) → found ≡ Some e → IsUnaligned e) }
{
    let nodes = Equated {
        types: types.types,
        found: types.trail.left,
        wanted: types.trail.right,
    };
    Ok(unaligned(alloc, book, nodes)?)
}

/// What is told of a refusal, once its evidence is tested. None where it is not that.
pub(crate) fn refutal_of(
    alloc: Global,
    book: &mut Book,
    fault: &CheckFault,
) -> Result<Option<Refutal>, AllocError>
    ensures { IfOk result (λ found. (r : Refutal) → found ≡ Some r → IsRefutal r) }
{
    match fault {
        CheckFault::CannotInfer => Ok(Some(Refutal::CannotInfer)),
        CheckFault::Wanted(kind, equation) => {
            let (cause, unwanted) = wanted_of(*kind);
            Ok(shown(cause, of_type(alloc, book, unwanted, *equation)?))
        }
        CheckFault::UInU(equation) => {
            Ok(shown(Cause::UInU, of_universe(alloc, book, *equation)?))
        }
        CheckFault::Mismatch(trail) => {
            let evidence = differing(alloc, book, None, trail.left, trail.right)?;
            Ok(shown(Cause::Mismatch, evidence))
        }
        CheckFault::SidesDiffer(face, trail) => {
            let face = Some(TermId(*face));
            let evidence = differing(alloc, book, face, trail.left, trail.right)?;
            Ok(shown(Cause::SidesDiffer, evidence))
        }
        CheckFault::Unaligned(types) => {
            Ok(shown(Cause::Unaligned, evidence_of(alloc, book, types)?))
        }
    }
}
