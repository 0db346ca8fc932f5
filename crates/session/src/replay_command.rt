//! The command `replay`: it judges a derivation file, and whether it is one of a module.

ghost use Rattle.std.specs.Prelude.{IfOk};
ghost use Rattle.std.specs.Option.{option_map};
ghost use Rattle.host_io.specs.Seen.{seen_files};
ghost use Rattle.session.specs.Answers.{IsFound, MayReplay};
ghost use Rattle.session.specs.Counted.{IsCounted, StoresNothing};
ghost use Rattle.session.specs.Loaded.{codes_of, wanted_by};

use crate::program::{Program, read_program};
use crate::roots::first_other_root;
use host_io::{Fetched, Files};
use outcomes::Outcome;
use replay::{Verdict, judge};
use std::alloc::{AllocError, Global};

/// Judges the bytes of a derivation file, of this module if one is named.
pub(crate) fn judged(
    alloc: Global,
    bytes: &[u8],
    of: Option<&Program>,
) -> Result<Outcome, AllocError>
    ensures { IfOk result (IsFound bytes.now (wanted_by (codes_of of.entry))) }
{
    let judged = judge(alloc, bytes)?;
    let (Verdict::Yes { rows: _, roots: _ }, Some(program)) = (judged.verdict, of) else {
        return Ok(Outcome::Judged(judged.verdict));
    };
    match first_other_root(alloc, judged.rows, program.codes.as_slice())? {
        Some(root) => Ok(Outcome::RootDiffers(root)),
        None => Ok(Outcome::Judged(judged.verdict)),
    }
}

/// Judges the derivation file at the path, of a module if one is named. The only error is out of
/// memory.
pub(crate) fn replay<F: Files>(
    alloc: Global,
    path: &str,
    of: Option<&str>,
    files: &mut F,
) -> Result<Outcome, AllocError>
    ensures answer { let see = seen_files F.held F.counts in
        IfOk result (λ o. MayReplay (F.held files.old) path.now (option_map (λ m. m.now) of.entry) o
        × IsCounted (see files.old) (see files.new) o) }
    ensures stored { let see = seen_files F.held F.counts in
        StoresNothing (see files.old) (see files.new) }
{
    let wanted = match of {
        None => None,
        Some(name) => match read_program(alloc, name, files)? {
            Ok(program) => Some(program),
            Err(outcome) => return Ok(outcome),
        },
    };
    let mut bytes = Vec::new(alloc);
    match files.fetch(path, u64::MAX, &mut bytes) {
        Fetched::Found => judged(alloc, &bytes, wanted.as_ref()),
        Fetched::Missing => Ok(Outcome::MissingFile(String::from_str(alloc, path)?)),
        Fetched::Failed => Ok(Outcome::ReadFault),
        Fetched::Longer | Fetched::Memory => Err(AllocError),
    }
}
