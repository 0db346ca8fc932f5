//! A module with those that its imports reach.

ghost use Rattle.std.specs.Prelude.{IfOk};
ghost use Rattle.host_io.specs.Seen.{seen_files};
ghost use Rattle.session.specs.Counted.{StoresNothing};
ghost use Rattle.session.specs.Loaded.{IsProgram};

use host_io::Files;
use linking::link;
use loading::load;
use module_texts::{ModuleText, path_of};
use outcomes::{Outcome, of_load, of_scope};
use resolver::Codes;
use std::alloc::{AllocError, Global};

/// A module with those that its imports reach.
#[derive(Drop)]
pub(crate) struct Program {
    /// In the order of loading, each after its imports.
    pub(crate) texts: Vec<ModuleText>,
    /// The definitions of all of them, in order.
    pub(crate) codes: Codes,
}

/// Reads a module with those that its imports reach. The inner error is how that ended.
pub(crate) fn read_program<F: Files>(
    alloc: Global,
    name: &str,
    files: &mut F,
) -> Result<Result<Program, Outcome>, AllocError>
    ensures program { let see = seen_files F.held F.counts in
        IfOk result (IsProgram name.now (see files.old) (see files.new)) }
    ensures stored { let see = seen_files F.held F.counts in
        StoresNothing (see files.old) (see files.new) }
{
    let texts = match load(alloc, files, name) {
        Ok(texts) => texts,
        Err(fault) => return Ok(Err(of_load(fault)?)),
    };
    match link(alloc, &texts) {
        Ok(codes) => Ok(Ok(Program { texts, codes })),
        Err(refused) => {
            let path = path_of(alloc, texts[refused.module].name.as_str())?;
            Ok(Err(of_scope(refused.fault, Some(path))?))
        }
    }
}
