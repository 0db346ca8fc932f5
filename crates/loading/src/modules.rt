//! A module and those that its imports reach.

ghost use Rattle.std.specs.Prelude.{◌≡◌, ◌≢◌, ◌<◌, ◌↔◌, ◌+◌, ◌^◌, [], ◌∷◌, IfErr, IfOk, IsTrue};
ghost use Rattle.std.specs.Prelude.{length, map};
ghost use Rattle.std.specs.List.{Any};
ghost use Rattle.loading.specs.Texts.{CountsAfter, IsText};
ghost use Rattle.loading.specs.Loading.{Loads, Refuses, IsAnother, IsLoaded, RefusesOne};
ghost use Rattle.loading.specs.Frames.{begun_name, names_of, Passes};
ghost use Rattle.module_texts.specs.Texts.{text_of};

use crate::begun::Begun;
use crate::named::is_among;
use crate::text::{LoadFault, read_text};
use host_io::Files;
use module_texts::{ModuleText, name_at, path_of};
use std::alloc::{AllocError, Global};

/// The most modules that are loaded for one command.
const MOST_MODULES: usize = 250;

impl Begun {
    /// The name of the import that comes next, if one is left; then it is passed.
    fn next_import(&mut self, alloc: Global) -> Result<Option<String>, AllocError>
        ensures { IfOk result (Passes self.old self.new) }
    {
        let Some(span) = self.text.module.imports.as_slice().get(self.next) else {
            return Ok(None);
        };
        self.next += 1;
        Ok(Some(name_at(alloc, &self.text.bytes, *span)?))
    }
}

/// Whether a module of this name is loaded.
fn is_loaded(loaded: &[ModuleText], name: &str) -> bool
    ensures { IsTrue result ↔ IsLoaded (map text_of loaded.now) name.now }
{
    is_among(loaded, name)
}

/// Whether the loading of a module of this name is among these.
fn has_begun(begun: &[Begun], name: &str) -> bool
    ensures { IsTrue result ↔ Any (λ b. begun_name b ≡ name.now) begun.now }
{
    is_among(begun, name)
}

/// Begins to load a module that was not loaded before.
fn begin<F: Files>(
    alloc: Global,
    files: &mut F,
    loaded: usize,
    begun: &[Begun],
    name: &str,
) -> Result<ModuleText, LoadFault>
    requires fits { loaded + length begun.now < 2 ^ 64 }
    ensures another { IfOk result (λ x. IsAnother loaded (names_of begun.now) name.now) }
    ensures text { IfOk result (λ x. IsText (F.held files.old) name.now (text_of x)) }
    ensures err { IfErr result (λ f. f ≢ LoadFault.Memory →
        RefusesOne (F.held files.old) loaded (names_of begun.now) name.now f) }
    ensures counted { CountsAfter result (F.counts files.old) (F.counts files.new) }
    ensures held { F.held files.new ≡ F.held files.old }
{
    let Ok(path) = path_of(alloc, name) else {
        return Err(LoadFault::Memory);
    };
    if has_begun(begun, name) {
        return Err(LoadFault::Cycle(path));
    }
    if loaded + begun.len() >= MOST_MODULES {
        return Err(LoadFault::TooMany(path));
    }
    read_text(alloc, files, name, path)
}

/// Loads a module and those that its imports reach: each after its imports, and each once.
///
/// # Errors
/// The first refusal: modules are read one by one, and an import is loaded whole before the next.
pub fn load<F: Files>(
    alloc: Global,
    files: &mut F,
    name: &str,
) -> Result<Vec<ModuleText>, LoadFault>
    ensures ok { IfOk result (λ texts.
        Loads (F.held files.old) [] [] (name.now ∷ []) (map text_of texts.items)) }
    ensures err { IfErr result (λ f.
        f ≢ LoadFault.Memory → Refuses (F.held files.old) [] [] (name.now ∷ []) f) }
    ensures counted { CountsAfter result (F.counts files.old) (F.counts files.new) }
    ensures held { F.held files.new ≡ F.held files.old }
{
    let mut loaded = Vec::new(alloc);
    let mut begun = Vec::new(alloc);
    let text = match begin(alloc, files, 0, &begun, name) {
        Ok(text) => text,
        Err(fault) => return Err(fault),
    };
    let Ok(()) = begun.push(Begun::new(text)) else {
        return Err(LoadFault::Memory);
    };
    while let Some(mut last) = begun.pop() {
        let Ok(import) = last.next_import(alloc) else {
            return Err(LoadFault::Memory);
        };
        let Some(import) = import else {
            let Ok(()) = loaded.push(last.text) else {
                return Err(LoadFault::Memory);
            };
            continue;
        };
        let Ok(()) = begun.push(last) else {
            return Err(LoadFault::Memory);
        };
        if is_loaded(&loaded, import.as_str()) {
            continue;
        }
        let text = match begin(alloc, files, loaded.len(), &begun, import.as_str()) {
            Ok(text) => text,
            Err(fault) => return Err(fault),
        };
        let Ok(()) = begun.push(Begun::new(text)) else {
            return Err(LoadFault::Memory);
        };
    }
    Ok(loaded)
}
