//! What a text may name of other modules.

ghost use Rattle.std.specs.Prelude.{◌≡◌, [], ◌∷◌, ◌++◌, IfOk, OnOk, OnErr};

use std::alloc::{AllocError, Global};
use std::marker::Model;

/// A name, by its bytes.
#[derive(Drop)]
pub struct Name {
    held: Vec<u8>,
}

impl Model for Name {
    ghost use Rattle.std.specs.Prelude.{List, ℕ};

    ghost Value = { List ℕ };

    ghost view = { λ a. a.held.items };
}

impl Name {
    /// A copy of the bytes.
    pub fn new(alloc: Global, bytes: &[u8]) -> Result<Name, AllocError>
        ensures { IfOk result (λ copy. copy ≡ bytes.now) }
    {
        let mut held = Vec::new(alloc);
        held.extend_from_slice(bytes)?;
        Ok(Name { held })
    }

    /// The bytes, lent.
    pub fn as_bytes(&self) -> &[u8]
        ensures { result.now ≡ self.now }
    {
        &self.held
    }
}

/// A name with the number of the definition that it stands for.
#[derive(Drop)]
pub struct ScopeName {
    pub name: Name,
    pub def: u32,
}

/// Names in scope, the newest last.
#[derive(Drop)]
pub struct ScopeNames {
    items: Vec<ScopeName>,
}

impl Model for ScopeNames {
    ghost use Rattle.std.specs.Prelude.{List};
    ghost use Rattle.scopes.specs.declared.scope.ScopeName.{ScopeName};

    ghost Value = { List ScopeName };

    ghost view = { λ a. a.items.items };
}

impl ScopeNames {
    /// No names, which takes no memory.
    pub fn new(alloc: Global) -> ScopeNames
        ensures { result ≡ [] }
    {
        ScopeNames {
            items: Vec::new(alloc),
        }
    }

    /// Appends a name, which hides an older one.
    pub fn push(&mut self, name: ScopeName) -> Result<(), AllocError>
        ensures ok { OnOk result (self.new ≡ self.old ++ name ∷ []) }
        ensures err { OnErr result (self.new ≡ self.old) }
    {
        self.items.push(name)?;
        Ok(())
    }

    /// The names, the newest last.
    pub fn as_slice(&self) -> &[ScopeName]
        ensures { result.now ≡ self.now }
    {
        &self.items
    }
}

/// What a text may name: definitions of other modules. `next` is the number of the next definition.
#[derive(Drop)]
pub struct Scope {
    pub names: ScopeNames,
    pub next: u32,
}
