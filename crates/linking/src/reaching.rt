//! Which definitions of other modules a module may name.

ghost use Rattle.std.specs.Prelude.{◌≡◌, ◌++◌, IfOk, OnOk, bytes_eq, length, map, string_bytes};
ghost use Rattle.std.specs.List.{list_any};
ghost use Rattle.module_texts.specs.Texts.{imports_of, name_of, text_of};
ghost use Rattle.linking.specs.Reaching.{Finds, Sees, are_among, either};

use crate::known::Known;
use module_texts::{ModuleText, name_at};
use resolver::{Name, Scope, ScopeName, ScopeNames};
use std::alloc::{AllocError, Global};

/// The names of the modules that a module imports.
fn import_names(alloc: Global, text: &ModuleText) -> Result<Vec<String>, AllocError>
    ensures { IfOk result (λ names.
        map string_bytes names.items ≡ imports_of (text_of text.now)) }
{
    let mut names = Vec::new(alloc);
    for span in text.module.imports.as_slice() {
        names.push(name_at(alloc, &text.bytes, *span)?)?;
    }
    Ok(names)
}

/// Whether a name is among others.
fn is_among(names: &[String], name: &str) -> bool
    ensures { result ≡ list_any (bytes_eq name.now) (map string_bytes names.now) }
{
    for other in names {
        if name == other.as_str() {
            return true;
        }
    }
    false
}

/// Of each of these modules, whether another imports it.
pub(crate) fn imports_among(
    alloc: Global,
    modules: &[ModuleText],
    text: &ModuleText,
) -> Result<Vec<bool>, AllocError>
    ensures { IfOk result (λ flags.
        flags.items ≡ are_among (imports_of (text_of text.now)) (map name_of modules.now)) }
{
    let names = import_names(alloc, text)?;
    let mut flags = Vec::new(alloc);
    for module in modules {
        flags.push(is_among(&names, module.name.as_str()))?;
    }
    Ok(flags)
}

/// Wants besides what a module imports.
fn want(wanted: &mut [bool], imports: &[bool])
    ensures { wanted.new ≡ either wanted.old imports.now }
{
    for at in 0..imports.len().min(wanted.len()) {
        if imports[at] {
            wanted[at] = true;
        }
    }
}

/// The modules that are wanted, with those that they import, the last first.
fn reached<'a>(
    alloc: Global,
    known: &'a [Known],
    mut wanted: Vec<bool>,
) -> Result<Vec<&'a Known>, AllocError>
    requires { length wanted.items ≡ length known.now }
    ensures { IfOk result (λ found. Finds known.now wanted.items found.items) }
{
    let mut found = Vec::new(alloc);
    while let Some(is_wanted) = wanted.pop() {
        if is_wanted {
            let module = &known[wanted.len()];
            want(&mut wanted, &module.imports);
            found.push(module)?;
        }
    }
    Ok(found)
}

/// Appends copies of names.
fn copy_names(alloc: Global, into: &mut ScopeNames, names: &[ScopeName]) -> Result<(), AllocError>
    ensures { OnOk result (into.new ≡ into.old ++ names.now) }
{
    for name in names {
        into.push(ScopeName {
            name: Name::new(alloc, name.name.as_bytes())?,
            def: name.def,
        })?;
    }
    Ok(())
}

/// The scope of a module that imports these.
pub(crate) fn scope_of(
    alloc: Global,
    known: &[Known],
    imports: &[bool],
    next: u32,
) -> Result<Scope, AllocError>
    requires { length imports.now ≡ length known.now }
    ensures { IfOk result (Sees known.now imports.now next) }
{
    let mut wanted = Vec::new(alloc);
    wanted.extend_from_slice(imports)?;
    let mut found = reached(alloc, known, wanted)?;
    let mut names = ScopeNames::new(alloc);
    while let Some(module) = found.pop() {
        copy_names(alloc, &mut names, module.names.as_slice())?;
    }
    Ok(Scope { names, next })
}
