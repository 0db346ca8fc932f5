//! Texts, and what is shown of their codes, or the fault.

ghost use Rattle.std.specs.Prelude.{◌≡◌, [], IfOk};
ghost use Rattle.resolver.specs.Resolved.{AreEarlier};

use crate::shown::{code_shown, defs_shown};
use grammar::{read, read_exp};
use layout_lexer::tokens;
use resolver::{Name, Scope, ScopeName, ScopeNames, resolve, resolve_exp};
use std::alloc::{AllocError, Global};
use syntax::{Exp, Module};

/// A name with its number.
fn scope_name(alloc: Global, name: &[u8], def: u32) -> Result<ScopeName, AllocError>
    ensures { IfOk result (λ n. n.def ≡ def) }
{
    let name = Name::new(alloc, name)?;
    Ok(ScopeName { name, def })
}

/// Three definitions, of which the last two have one name.
fn push_names(alloc: Global, names: &mut ScopeNames) -> Result<(), AllocError>
    requires { names.old ≡ [] }
    ensures { IfOk result (λ _. AreEarlier 3 names.new) }
{
    names.push(scope_name(alloc, b"f", 0)?)?;
    names.push(scope_name(alloc, b"g", 1)?)?;
    names.push(scope_name(alloc, b"g", 2)?)
}

fn scope(alloc: Global) -> Result<Scope, AllocError>
    ensures { IfOk result (λ s. AreEarlier s.next s.names) }
{
    let mut names = ScopeNames::new(alloc);
    push_names(alloc, &mut names)?;
    Ok(Scope { names, next: 3 })
}

fn resolved_exp(alloc: Global, text: &str, exp: &Exp) -> Result<String, AllocError> {
    let scope = scope(alloc)?;
    match resolve_exp(alloc, text.as_bytes(), exp, &scope) {
        Ok(code) => code_shown(alloc, &code),
        Err(fault) => format!(in alloc; "{fault:?}"),
    }
}

/// The code of an expression, shown, or the fault.
pub(crate) fn exp_shown(alloc: Global, text: &str) -> Result<String, AllocError> {
    let Ok(tokens) = tokens(alloc, text.as_bytes()) else {
        return String::from_str(alloc, "no tokens");
    };
    match read_exp(alloc, text.as_bytes(), &tokens) {
        Ok(exp) => resolved_exp(alloc, text, &exp),
        Err(_fault) => String::from_str(alloc, "not read"),
    }
}

fn resolved_module(alloc: Global, text: &str, module: &Module) -> Result<String, AllocError> {
    let scope = scope(alloc)?;
    match resolve(alloc, text.as_bytes(), module, &scope) {
        Ok(codes) => defs_shown(alloc, codes.as_slice()),
        Err(fault) => format!(in alloc; "{fault:?}"),
    }
}

/// The codes of the definitions of a module, shown, or the fault.
pub(crate) fn module_shown(alloc: Global, text: &str) -> Result<String, AllocError> {
    let Ok(tokens) = tokens(alloc, text.as_bytes()) else {
        return String::from_str(alloc, "no tokens");
    };
    match read(alloc, text.as_bytes(), &tokens) {
        Ok(module) => resolved_module(alloc, text, &module),
        Err(_fault) => String::from_str(alloc, "not read"),
    }
}

/// The codes of these definitions of a module, shown, or the fault.
pub(crate) fn definitions_shown(alloc: Global, defs: &str) -> Result<String, AllocError> {
    let text = format!(in alloc; "module M where\n{defs}\n")?;
    module_shown(alloc, text.as_str())
}
