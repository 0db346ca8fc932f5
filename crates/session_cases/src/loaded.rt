//! Which modules are loaded for one.

use host_io::MemFiles;
use loading::{LoadFault, ModuleText, load};
use std::alloc::{AllocError, Global};

/// How many names are shown.
const MOST: usize = 4;

/// The names of the modules, in order: the first ones, and the number of all where there are more.
fn names(alloc: Global, texts: &[ModuleText]) -> Result<String, AllocError> {
    let mut names = String::new(alloc);
    for text in texts.iter().take(MOST) {
        if !names.is_empty() {
            names.push(' ')?;
        }
        names.push_str(text.name.as_str())?;
    }
    let count = texts.len();
    if count > MOST {
        names.push_str(format!(in alloc; " of {count}")?.as_str())?;
    }
    Ok(names)
}

/// What loading a module gives: the modules, or the refusal and its path.
pub(crate) fn loaded_shown(
    alloc: Global,
    files: &mut MemFiles,
    name: &str,
) -> Result<String, AllocError> {
    match load(alloc, files, name) {
        Ok(texts) => names(alloc, &texts),
        Err(LoadFault::Missing(path)) => format!(in alloc; "Missing {path}"),
        Err(LoadFault::Unreadable) => String::from_str(alloc, "Unreadable"),
        Err(LoadFault::NoTokens(_, path)) => format!(in alloc; "NoTokens {path}"),
        Err(LoadFault::NoModule(_, path)) => format!(in alloc; "NoModule {path}"),
        Err(LoadFault::Cycle(path)) => format!(in alloc; "Cycle {path}"),
        Err(LoadFault::TooMany(path)) => format!(in alloc; "TooMany {path}"),
        Err(LoadFault::Memory) => Err(AllocError),
    }
}

/// Puts so many modules, each of which imports the next.
pub(crate) fn put_chain(alloc: Global, files: &mut MemFiles, count: u32) -> Result<(), AllocError> {
    for at in 0..count {
        let next = u64::from(at) + 1;
        let path = format!(in alloc; "m{at}.ctt")?;
        let text = format!(in alloc; "module m{at} where\nimport m{next}")?;
        files.put(path.as_str(), text.as_bytes())?;
    }
    Ok(())
}
