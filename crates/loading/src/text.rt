//! One module: what its file holds, and how that is read.

ghost use Rattle.std.specs.Prelude.{◌≡◌, IfErr, IfOk, string_bytes};
ghost use Rattle.syntax.specs.View.{module_of};
ghost use Rattle.loading.specs.Texts.{CountsAfter, FailsAt, FailsIn, IsText, ReadsAs};
ghost use Rattle.module_texts.specs.Texts.{path_of, text_of};

use grammar::{ReadFault, read};
use host_io::{Fetched, Files};
use layout_lexer::{LexFault, tokens};
use module_texts::ModuleText;
use std::alloc::{AllocError, Global};
use syntax::Module;

/// More bytes than a module has.
const LIMIT: u64 = 16_777_217;

/// Why a module is not loaded. Paths are those of the files of modules.
#[derive(Drop)]
pub enum LoadFault {
    /// The file is not there.
    Missing(String),
    /// A file could not be read.
    Unreadable,
    /// The file holds no tokens.
    NoTokens(LexFault, String),
    /// The tokens of the file are read as no module.
    NoModule(ReadFault, String),
    /// An import names a module whose loading has not ended.
    Cycle(String),
    /// An import names one module more than are loaded for a command.
    TooMany(String),
    /// Out of memory.
    Memory,
}

/// The module that these bytes spell, which the path holds.
fn module_in(alloc: Global, bytes: &[u8], path: String) -> Result<Module, LoadFault>
    ensures ok { IfOk result (λ m. ReadsAs bytes.now (module_of m)) }
    ensures err { IfErr result (FailsIn bytes.now (string_bytes path)) }
{
    let tokens = match tokens(alloc, bytes) {
        Ok(tokens) => tokens,
        Err(LexFault::Memory) => return Err(LoadFault::Memory),
        Err(fault) => return Err(LoadFault::NoTokens(fault, path)),
    };
    match read(alloc, bytes, &tokens) {
        Ok(module) => Ok(module),
        Err(ReadFault::Memory) => Err(LoadFault::Memory),
        Err(fault) => Err(LoadFault::NoModule(fault, path)),
    }
}

/// Fetches and reads the module of this name, whose file has this path.
pub fn read_text<F: Files>(
    alloc: Global,
    files: &mut F,
    name: &str,
    path: String,
) -> Result<ModuleText, LoadFault>
    requires { string_bytes path ≡ path_of name.now }
    ensures ok { IfOk result (λ x. IsText (F.held files.old) name.now (text_of x)) }
    ensures err { IfErr result (FailsAt (F.held files.old) name.now) }
    ensures counted { CountsAfter result (F.counts files.old) (F.counts files.new) }
    ensures held { F.held files.new ≡ F.held files.old }
{
    let Ok(name) = String::from_str(alloc, name) else {
        return Err(LoadFault::Memory);
    };
    let mut bytes = Vec::new(alloc);
    match files.fetch(path.as_str(), LIMIT, &mut bytes) {
        Fetched::Found => match module_in(alloc, &bytes, path) {
            Ok(module) => Ok(ModuleText {
                name,
                bytes,
                module,
            }),
            Err(fault) => Err(fault),
        },
        Fetched::Longer => Err(LoadFault::NoTokens(LexFault::TooLong, path)),
        Fetched::Missing => Err(LoadFault::Missing(path)),
        Fetched::Failed => Err(LoadFault::Unreadable),
        Fetched::Memory => Err(LoadFault::Memory),
    }
}
