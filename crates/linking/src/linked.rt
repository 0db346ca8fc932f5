//! Modules, one after another.

ghost use Rattle.std.specs.Prelude.{◌≡◌, ◌++◌, ◌∷◌, [], IfErr, IfOk, OnOk, map, take};
ghost use Rattle.translation.specs.Translated.{Refuses};
ghost use Rattle.module_texts.specs.Texts.{text_of};
ghost use Rattle.linking.specs.Modules.{RefusedFirst};
ghost use Rattle.linking.specs.Linked.{HasLinked, IsLinked, Keeps, meaning_of_next};

use crate::known::{Known, names_of};
use crate::reaching::{imports_among, scope_of};
use module_texts::ModuleText;
use resolver::{Codes, ScopeFault, resolve};
use std::alloc::{AllocError, Global};

/// Why modules are not resolved: the fault of the first of them that has one, by its number.
#[derive(Clone, Copy, Debug, PartialEq, Eq)]
pub struct LinkFault {
    pub module: usize,
    pub fault: ScopeFault,
}

/// Modules that were resolved.
#[derive(Drop)]
pub(crate) struct Linker {
    alloc: Global,
    known: Vec<Known>,
    codes: Codes,
}

impl Linker {
    fn new(alloc: Global) -> Linker
        ensures { HasLinked [] result }
    {
        Linker {
            alloc,
            known: Vec::new(alloc),
            codes: Codes::new(alloc),
        }
    }

    /// Keeps a module that was resolved.
    fn keep(
        &mut self,
        text: &ModuleText,
        imports: Vec<bool>,
        codes: Codes,
    ) -> Result<(), AllocError>
        ensures { OnOk result (Keeps (text_of text.now) imports.items codes self.old self.new) }
    {
        let names = names_of(self.alloc, &text.bytes, codes.as_slice())?;
        self.known.push(Known { imports, names })?;
        self.codes.append(codes)?;
        Ok(())
    }

    /// Resolves the module that comes after those.
    fn add(&mut self, before: &[ModuleText], text: &ModuleText) -> Result<(), ScopeFault>
        requires { HasLinked (map text_of before.now) self.old }
        ensures ok { let texts = map text_of before.now in
            OnOk result (HasLinked (texts ++ text_of text.now ∷ []) self.new) }
        ensures err { let texts = map text_of before.now in
            IfErr result (λ f. Refuses f (meaning_of_next texts (text_of text.now)).refusal) }
    {
        let Ok(imports) = imports_among(self.alloc, before, text) else {
            return Err(ScopeFault::Memory);
        };
        let Ok(scope) = scope_of(self.alloc, &self.known, &imports, self.codes.next()) else {
            return Err(ScopeFault::Memory);
        };
        let codes = match resolve(self.alloc, &text.bytes, &text.module, &scope) {
            Ok(codes) => codes,
            Err(fault) => return Err(fault),
        };
        match self.keep(text, imports, codes) {
            Ok(()) => Ok(()),
            Err(_) => Err(ScopeFault::Memory),
        }
    }
}

/// The definitions of all modules, each resolved in the scope that its imports reach.
///
/// # Errors
/// The fault of the first module that has one.
pub fn link(alloc: Global, texts: &[ModuleText]) -> Result<Codes, LinkFault>
    ensures ok { IfOk result (IsLinked (map text_of texts.now)) }
    ensures err { IfErr result (λ f. RefusedFirst (map text_of texts.now) f.module f.fault) }
{
    let mut linker = Linker::new(alloc);
    for (module, text) in texts.iter().enumerate() {
        let before = texts.split_at(module).0;
        if let Err(fault) = linker.add(before, text) {
            return Err(LinkFault { module, fault });
        }
    }
    Ok(linker.codes)
}
