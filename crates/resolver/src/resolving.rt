//! Whole texts.

ghost use Rattle.std.specs.Prelude.{◌≡◌, [], ◌∷◌, ◌++◌, IfErr, IfOk, OnErr, OnOk};
ghost use Rattle.syntax.specs.View.{module_of, tree_of};
ghost use Rattle.resolver.specs.Resolved.{AreCodes, AreEarlier, AreSpelt, IsCode, IsFault};
ghost use Rattle.resolver.specs.Resolved.{defs_in, IsFaultOf, IsSpelt};

use codes::{Code, CodeDef};
use name_resolution::References;
use scopes::{Place, Scope};
use std::alloc::{AllocError, Global};
use syntax::{Exp, Module};
use translation::ScopeFault;

/// Definitions of the top level, in order, and the number of the definition after them.
#[derive(Drop)]
pub struct Codes {
    items: Vec<CodeDef>,
    next: u32,
}

impl Codes {
    /// No definitions, which takes no memory.
    pub fn new(alloc: Global) -> Codes
        ensures items { defs_in result ≡ [] }
        ensures next { result.next ≡ 0 }
    {
        Codes {
            items: Vec::new(alloc),
            next: 0,
        }
    }

    /// Appends the definitions that come next.
    pub fn append(&mut self, mut other: Codes) -> Result<(), AllocError>
        ensures ok { OnOk result ((self.new.next ≡ other.next) ×
            (defs_in self.new ≡ defs_in self.old ++ defs_in other)) }
        ensures err { OnErr result
            ((defs_in self.new ≡ defs_in self.old) × (self.new.next ≡ self.old.next)) }
    {
        self.items.append(&mut other.items)?;
        self.next = other.next;
        Ok(())
    }

    /// The definitions, in order.
    pub fn as_slice(&self) -> &[CodeDef]
        ensures { result.now ≡ defs_in self.now }
    {
        &self.items
    }

    /// The number of the next definition.
    pub fn next(&self) -> u32
        ensures { result ≡ self.now.next }
    {
        self.next
    }
}

/// A text that is resolved.
#[derive(Clone, Copy)]
pub(crate) struct Resolver<'a> {
    pub(crate) names: References<'a>,
}

/// The definitions of a module that was read from these bytes, or the first fault.
///
/// They are numbered from the scope's next number on, a local one before that which holds it.
pub fn resolve(
    alloc: Global,
    bytes: &[u8],
    module: &Module,
    scope: &Scope,
) -> Result<Codes, ScopeFault>
    requires { AreEarlier scope.now.next scope.now.names }
    ensures ok { let now = scope.now in
        IfOk result (AreCodes bytes.now now.names now.next (module_of «module».now)) }
    ensures spelt { let names = scope.now.names in
        IfOk result (AreSpelt bytes.now names (module_of «module».now)) }
    ensures err { IfErr result (IsFaultOf bytes.now scope.now.names (module_of «module».now)) }
{
    let Ok(mut place) = Place::new(alloc, scope) else {
        return Err(ScopeFault::Memory);
    };
    let resolver = Resolver {
        names: References { alloc, bytes },
    };
    let Ok(items) = resolver.block(&mut place, module.defs.as_slice()) else {
        return Err(ScopeFault::Memory);
    };
    match place.refusal() {
        None => Ok(Codes {
            items,
            next: place.next(),
        }),
        Some(refusal) => Err(refusal.fault()),
    }
}

/// The code of an expression that was read from these bytes, or the first fault.
pub fn resolve_exp(
    alloc: Global,
    bytes: &[u8],
    exp: &Exp,
    scope: &Scope,
) -> Result<Code, ScopeFault>
    requires { AreEarlier scope.now.next scope.now.names }
    ensures ok { let now = scope.now in
        IfOk result (IsCode bytes.now now.names now.next (tree_of exp.now)) }
    ensures spelt { IfOk result (IsSpelt bytes.now scope.now.names (tree_of exp.now)) }
    ensures err { IfErr result (IsFault bytes.now scope.now.names (tree_of exp.now)) }
{
    let Ok(mut place) = Place::new(alloc, scope) else {
        return Err(ScopeFault::Memory);
    };
    let resolver = Resolver {
        names: References { alloc, bytes },
    };
    let Ok(code) = resolver.exp(&mut place, exp) else {
        return Err(ScopeFault::Memory);
    };
    match place.refusal() {
        None => Ok(code),
        Some(refusal) => Err(refusal.fault()),
    }
}
