//! What is read of texts.

use crate::shown::{exp_shown, module_shown};
use grammar::{ReadFault, read, read_exp};
use layout_lexer::tokens;
use std::alloc::{AllocError, Global};

/// The tree of an expression; with spans, those of its forms; or the fault.
pub(crate) fn exp_answer(alloc: Global, text: &str, spans: bool) -> Result<String, AllocError> {
    let Ok(tokens) = tokens(alloc, text.as_bytes()) else {
        return String::from_str(alloc, "no tokens");
    };
    match read_exp(alloc, text.as_bytes(), &tokens) {
        Ok(exp) => exp_shown(alloc, text, &exp, spans),
        Err(fault) => format!(in alloc; "{fault:?}"),
    }
}

/// The tree of a module, or the fault.
pub(crate) fn module_answer(alloc: Global, text: &str) -> Result<String, AllocError> {
    let Ok(tokens) = tokens(alloc, text.as_bytes()) else {
        return String::from_str(alloc, "no tokens");
    };
    match read(alloc, text.as_bytes(), &tokens) {
        Ok(module) => module_shown(alloc, text, &module),
        Err(fault) => format!(in alloc; "{fault:?}"),
    }
}

/// The fault of a text, if there is one.
fn fault_of(alloc: Global, text: &str, is_module: bool) -> Option<ReadFault> {
    let Ok(tokens) = tokens(alloc, text.as_bytes()) else {
        return Some(ReadFault::Memory);
    };
    if is_module {
        read(alloc, text.as_bytes(), &tokens).err()
    } else {
        read_exp(alloc, text.as_bytes(), &tokens).err()
    }
}

fn fault_told(alloc: Global, fault: Option<ReadFault>) -> Result<String, AllocError> {
    match fault {
        None => String::from_str(alloc, "read"),
        Some(fault) => format!(in alloc; "{fault:?}"),
    }
}

/// Whether a text is an expression, without its tree: `read`, or the fault.
pub(crate) fn exp_told(alloc: Global, text: &str) -> Result<String, AllocError> {
    fault_told(alloc, fault_of(alloc, text, false))
}

/// The same of a module.
pub(crate) fn module_told(alloc: Global, text: &str) -> Result<String, AllocError> {
    fault_told(alloc, fault_of(alloc, text, true))
}

/// Whether the beginning of a module up to a token is read, or else is refused elsewhere than at
/// its end.
enum Beginning {
    Read,
    RefusedAtItsEnd,
    Other,
}

fn ended_at(alloc: Global, text: &str, end: u32) -> Beginning {
    let Some(piece) = text.get(..end as usize) else {
        return Beginning::Other;
    };
    match fault_of(alloc, piece, true) {
        None => Beginning::Read,
        Some(ReadFault::Unexpected(place)) if place == end => Beginning::RefusedAtItsEnd,
        Some(_) => Beginning::Other,
    }
}

/// How many beginnings of a module, each up to a token, are read, where all others are refused at
/// their end; else the end of the first that is not.
pub(crate) fn beginnings_read(alloc: Global, text: &str) -> Result<String, AllocError> {
    let Ok(all) = tokens(alloc, text.as_bytes()) else {
        return String::from_str(alloc, "no tokens");
    };
    let mut count: u32 = 0;
    for token in all.as_slice() {
        let (start, end) = (token.start, token.end);
        if start == end {
            // A mark begins where the token behind it does.
            continue;
        }
        match ended_at(alloc, text, start) {
            Beginning::Read => count = count.saturating_add(1),
            Beginning::RefusedAtItsEnd => {}
            Beginning::Other => return format!(in alloc; "another answer at {start}"),
        }
    }
    format!(in alloc; "{count}")
}
