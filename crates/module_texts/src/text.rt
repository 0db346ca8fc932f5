//! One module.

ghost use Rattle.std.specs.Prelude.{◌≡◌, IfOk, string_bytes};
ghost use Rattle.module_texts.specs.Texts.{name_at, path_of};

use layout_lexer::Span;
use std::alloc::{AllocError, Global};
use syntax::Module;

/// A module that was read.
#[derive(Drop)]
pub struct ModuleText {
    pub name: String,
    /// What its file holds.
    pub bytes: Vec<u8>,
    pub module: Module,
}

/// The path of a module's file.
pub fn path_of(alloc: Global, name: &str) -> Result<String, AllocError>
    ensures { IfOk result (λ path. string_bytes path ≡ path_of name.now) }
{
    let mut path = String::from_str(alloc, name)?;
    path.push_str(".ctt")?;
    Ok(path)
}

/// The name that a piece of a text spells.
pub fn name_at(alloc: Global, bytes: &[u8], span: Span) -> Result<String, AllocError>
    ensures { IfOk result (λ name. string_bytes name ≡ name_at bytes.now span) }
{
    let end = (span.end as usize).min(bytes.len());
    let start = (span.start as usize).min(end);
    Ok(String::from_utf8_lossy(alloc, &bytes[start..end])?)
}
