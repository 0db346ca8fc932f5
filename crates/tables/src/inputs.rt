//! Inputs that say more than their text: with a marked place, and with pieces many times.

use std::alloc::{AllocError, Global};

/// A text without its mark, and the byte where that stood.
#[derive(Debug, Drop)]
pub struct Marked {
    pub text: String,
    pub place: usize,
}

impl Marked {
    /// Of a text with a mark `^`; with none, its end is marked.
    pub fn new(alloc: Global, input: &str) -> Result<Marked, AllocError> {
        let (before, behind) = input.split_once("^").unwrap_or((input, ""));
        let place = before.len();
        let mut text = String::from_str(alloc, before)?;
        text.push_str(behind)?;
        Ok(Marked { text, place })
    }

    /// An answer `Cause(place)` as `Cause` where the place is the marked one; other answers whole.
    pub fn told(&self, alloc: Global, found: &str) -> Result<String, AllocError> {
        let place = self.place;
        let behind = format!(in alloc; "({place})")?;
        String::from_str(alloc, found.strip_suffix(behind.as_str()).unwrap_or(found))
    }
}

fn push_times(text: &mut String, piece: &str, times: u32) -> Result<(), AllocError> {
    for _ in 0..times {
        text.push_str(piece)?;
    }
    Ok(())
}

/// The text of an input `TIMES BEFORE|PIECE|MIDDLE|CLOSING`: what comes before, the piece so many
/// times, what stands in the middle, and the closing as often. A newline may stand behind TIMES.
pub fn repeated(alloc: Global, input: &str) -> Result<String, AllocError> {
    let (times, pieces) = input
        .split_once([' ', '\n'].as_slice())
        .unwrap_or((input, ""));
    let times = times.parse::<u32>().unwrap_or(0);
    let mut pieces = pieces.split("|");
    let mut text = String::from_str(alloc, pieces.next().unwrap_or(""))?;
    push_times(&mut text, pieces.next().unwrap_or(""), times)?;
    text.push_str(pieces.next().unwrap_or(""))?;
    push_times(&mut text, pieces.next().unwrap_or(""), times)?;
    Ok(text)
}
