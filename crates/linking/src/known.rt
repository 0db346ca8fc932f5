//! What is kept of a module that was resolved.

ghost use Rattle.std.specs.Prelude.{◌≡◌, IfOk};
ghost use Rattle.translation.specs.Texts.{word};
ghost use Rattle.resolver.specs.Resolved.{bound_by};

use layout_lexer::Span;
use resolver::{CodeDef, Name, ScopeName, ScopeNames};
use std::alloc::{AllocError, Global};

/// A module that was resolved.
#[derive(Drop)]
pub(crate) struct Known {
    /// Of each module before it, whether it imports that.
    pub imports: Vec<bool>,
    /// The names that it defines, with their numbers.
    pub names: ScopeNames,
}

/// The name that a piece of a text spells.
fn name_at(alloc: Global, bytes: &[u8], span: Span) -> Result<Name, AllocError>
    ensures { IfOk result (λ name. name ≡ word bytes.now span) }
{
    let end = (span.end as usize).min(bytes.len());
    let start = (span.start as usize).min(end);
    Name::new(alloc, &bytes[start..end])
}

/// The names that definitions of a text bind.
pub(crate) fn names_of(
    alloc: Global,
    bytes: &[u8],
    defs: &[CodeDef],
) -> Result<ScopeNames, AllocError>
    ensures { IfOk result (λ names. names ≡ bound_by bytes.now defs.now) }
{
    let mut names = ScopeNames::new(alloc);
    for def in defs {
        names.push(ScopeName {
            name: name_at(alloc, bytes, def.name)?,
            def: def.number,
        })?;
    }
    Ok(names)
}
