//! The command `check`: it checks a module, and stores its derivation.

ghost use Rattle.std.specs.Prelude.{◌≡◌, IfOk, IsErr, string_bytes};
ghost use Rattle.resolver.specs.Resolved.{defs_in};
ghost use Rattle.host_io.specs.Seen.{seen_files};
ghost use Rattle.linking.specs.Linked.{IsLinked};
ghost use Rattle.session.specs.Checks.{CheckJob, IsChecked, derivation_path};
ghost use Rattle.session.specs.Jobs.{MayDo, MayLeave};
ghost use Rattle.session.specs.Loaded.{texts_of};
ghost use Rattle.session.specs.Counted.{IsCounted};

use crate::found::{Found, derivation_of, found_of};
use crate::job::{Job, carry_out};
use crate::others::{Other, other_job, other_of};
use crate::program::{Program, read_program};
use book::Book;
use host_io::Files;
use outcomes::Outcome;
use resolver::CodeDef;
use std::alloc::{AllocError, Global};

/// What comes of the definitions of a module.
#[derive(Drop)]
enum Checks {
    /// The bytes of their derivation.
    Derived(Vec<u8>),
    /// Not all are typed.
    NotTyped(Other),
}

/// Checks definitions in order over a book, and writes the derivation of what they state.
fn derive_over(
    alloc: Global,
    book: &mut Book,
    defs: &[CodeDef],
    turns: u64,
) -> Result<Checks, AllocError>
    ensures { IfOk result (IsChecked defs.now) }
{
    match found_of(alloc, book, defs, turns)? {
        Found::Stated(nodes) => Ok(Checks::Derived(derivation_of(alloc, book, &nodes)?)),
        Found::Other(first, reason) => {
            let other = other_of(alloc, book, defs.len(), first, reason)?;
            Ok(Checks::NotTyped(other))
        }
    }
}

/// Checks definitions in order, and writes the derivation of what they state.
fn derive(alloc: Global, defs: &[CodeDef], turns: u64) -> Result<Checks, AllocError>
    ensures { IfOk result (IsChecked defs.now) }
{
    let mut book = Book::new(alloc)?;
    derive_over(alloc, &mut book, defs, turns)
}

/// The path of a module's derivation.
fn derivation_path(alloc: Global, name: &str) -> Result<String, AllocError>
    ensures { IfOk result (λ path. string_bytes path ≡ derivation_path name.now) }
{
    let mut path = String::from_str(alloc, name)?;
    path.push_str(".drv")?;
    Ok(path)
}

/// What a check of a module that was read comes to.
fn check_job(alloc: Global, program: &Program, name: &str, turns: u64) -> Result<Job, AllocError>
    requires { IsLinked (texts_of program.now) program.now.codes }
    ensures { IfOk result
        (CheckJob name.now turns (texts_of program.now) (defs_in program.now.codes)) }
{
    let defs = program.codes.as_slice();
    match derive(alloc, defs, turns)? {
        Checks::NotTyped(other) => Ok(other_job(alloc, program, name, turns, other)?),
        Checks::Derived(bytes) => {
            let path = derivation_path(alloc, name)?;
            let told = Outcome::Checked(defs.len() as u64);
            Ok(Job::Store { path, bytes, told })
        }
    }
}

/// Checks the module of this name and those that its imports reach, each question of evaluation
/// within so many moves, and stores the derivation of all that they state at its path, or the
/// evidence that one is refused. The only error is out of memory.
pub(crate) fn check<F: Files>(
    alloc: Global,
    name: &str,
    turns: u64,
    files: &mut F,
) -> Result<Outcome, AllocError>
    ensures answer { let see = seen_files F.held F.counts in
        IfOk result (λ told.
        MayDo (CheckJob name.now turns) name.now (see files.old) (see files.new) told
        × IsCounted (see files.old) (see files.new) told) }
    ensures left { let see = seen_files F.held F.counts in
        IsErr result → MayLeave (CheckJob name.now turns) name.now (see files.old) (see files.new) }
{
    let program = match read_program(alloc, name, files)? {
        Ok(program) => program,
        Err(outcome) => return Ok(outcome),
    };
    let job = check_job(alloc, &program, name, turns)?;
    Ok(carry_out(job, files)?)
}
