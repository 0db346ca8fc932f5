//! The command `make`: it writes a module of any size, checks it in memory, and judges its
//! derivation.

ghost use Rattle.std.specs.Prelude.{◌≡◌, ℕ, IfOk, Some, codes, length};
ghost use Rattle.std.specs.FinMap.{empty, insert};
ghost use Rattle.linking.specs.Linked.{IsLinked};
ghost use Rattle.linking.specs.Modules.{judgements};
ghost use Rattle.replay.specs.declared.judging.Verdict.TheVariants.{Yes};
ghost use Rattle.outcomes.specs.declared.outcome.Outcome.TheVariants.{Judged};
ghost use Rattle.session.specs.Loaded.{texts_of};
ghost use Rattle.session.specs.Makes.{Makes};
ghost use Rattle.session.specs.Normals.{AreProved};
ghost use Rattle.outcomes.specs.Outcomes.{status_of};

use crate::found::{Found, derivation_of, found_of};
use crate::program::{Program, read_program};
use crate::replay_command::judged;
use book::Book;
use generated_module::generated;
use host_io::MemFiles;
use outcomes::{Cause, Outcome, Status, refused};
use replay::Verdict;
use std::alloc::{AllocError, Global};

/// The budget of a question of evaluation, in moves. The definitions that are made ask none.
const TURNS: u64 = 1_000_000;

/// How many roots all right rows have, where that was found.
fn roots_of(outcome: &Outcome) -> Option<u64>
    ensures { (k : ℕ) → result ≡ Some k → (rows : ℕ) × (outcome.now ≡ Judged (Yes rows k)) }
{
    match outcome {
        Outcome::Judged(Verdict::Yes { rows: _, roots }) => Some(*roots),
        _ => None,
    }
}

/// How many roots the derivation of a module has, which was judged. None where a definition is not
/// typed, or the derivation is not right.
fn replayed_roots(alloc: Global, program: &Program) -> Result<Option<u64>, AllocError>
    requires { IsLinked (texts_of program.now) program.now.codes }
    ensures { IfOk result (λ roots. (k : ℕ) → roots ≡ Some k →
        AreProved (judgements (texts_of program.now))
        × (length (judgements (texts_of program.now)) ≡ k)) }
{
    let mut book = Book::new(alloc)?;
    let found = found_of(alloc, &mut book, program.codes.as_slice(), TURNS)?;
    let Found::Stated(nodes) = found else {
        return Ok(None);
    };
    book.laws_of_nodes();
    let bytes = derivation_of(alloc, &book, &nodes)?;
    let outcome = judged(alloc, &bytes, Some(program))?;
    Ok(roots_of(&outcome))
}

/// The module of so many definitions, held alone.
fn alone(alloc: Global, text: &str) -> Result<MemFiles, AllocError>
    ensures { IfOk result (λ files. files.held ≡ insert empty (codes "Gen.ctt") text.now) }
{
    let mut files = MemFiles::new(alloc, &[])?;
    files.put("Gen.ctt", text.as_bytes())?;
    Ok(files)
}

/// That no module was made, which never comes.
fn not_made(alloc: Global) -> Result<Outcome, AllocError>
    ensures { IfOk result (λ told. status_of told ≡ Status.No) }
{
    let path = String::from_str(alloc, "Gen.ctt")?;
    Ok(refused(Cause::RefusedForm, None, Some(path)))
}

/// Makes the module of so many definitions, checks it in memory, and judges its derivation. The
/// only error is out of memory.
pub(crate) fn make(alloc: Global, count: u64) -> Result<Outcome, AllocError>
    ensures { IfOk result (Makes count) }
{
    let text = generated(alloc, count)?;
    let mut files = alone(alloc, text.as_str())?;
    let Ok(program) = read_program(alloc, "Gen", &mut files)? else {
        return not_made(alloc);
    };
    match (replayed_roots(alloc, &program)?, count.checked_mul(2)) {
        (Some(roots), Some(twice)) if roots == twice => Ok(Outcome::Made {
            text,
            definitions: count,
            roots,
        }),
        _ => not_made(alloc),
    }
}
