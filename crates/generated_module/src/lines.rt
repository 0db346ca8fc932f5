//! The lines of generated modules.

ghost use Rattle.std.specs.Prelude.{◌≡◌, IfOk, string_bytes};
ghost use Rattle.generated_module.specs.Generated.{generated, line};

use std::alloc::{AllocError, Global};

/// The line of a definition: a number, a composition, a path and a pair in turn, each of earlier
/// ones.
fn line(alloc: Global, k: u64) -> Result<String, AllocError>
    ensures { IfOk result (λ text. string_bytes text ≡ line k) }
{
    match k % 4 {
        0 => match k.checked_sub(4) {
            None => Ok(format!(in alloc; "d{k} : nat = zero\n")?),
            Some(before) => Ok(format!(in alloc; "d{k} : nat = suc d{before}\n")?),
        },
        1 => {
            let before = k - 1;
            Ok(format!(in alloc; "d{k} : nat = comp (<_> nat) (suc d{before}) []\n")?)
        }
        2 => {
            let end = k - 2;
            Ok(format!(in alloc; "d{k} : PathP (<_> nat) d{end} d{end} = <_> d{end}\n")?)
        }
        _ => {
            let first = k - 2;
            let second = k - 3;
            Ok(format!(in alloc; "d{k} : (_ : nat) * nat = (d{first},d{second})\n")?)
        }
    }
}

/// The text of the module `Gen` of so many definitions.
///
/// # Errors
/// Only where memory runs out.
pub fn generated(alloc: Global, size: u64) -> Result<String, AllocError>
    ensures { IfOk result (λ text. string_bytes text ≡ generated size) }
{
    let mut text = String::from_str(alloc, "module Gen where\n")?;
    for k in 0..size {
        let line = line(alloc, k)?;
        text.push_str(line.as_str())?;
    }
    Ok(text)
}
